// One workload, so many rounds of it, for a clock outside: measure WORKLOAD ROUNDS. It prints a number that depends on
// all that was done. `inspect` and `play` read an archive of whole stamps and cards from standard input.

#![tactic(auto)]

use anyhow::{Context, bail};
use archive::inspect::inspect;
use archive::play::play;
use kinds::card::{Card, Unit};
use kinds::whole::Whole;
use model::entry::Entry;
use model::image::Image;
use model::refusal::Refusal;
use model::verdict::{Outcome, Verdict};
use office::images::Published;
use office::store::{Store, blank, places};
use registrar::registrar::Registrar;
use station::job::{Job, Standing};
use std::alloc::Global;
use std::env;
use std::io::Read;

const PLACES: usize = 4096;

fn card(revision: u32) -> Card {
    Card {
        revision,
        unit: Unit::Millimetre,
        mass: 250,
    }
}

// A registrar with its tables and the image published last.
#[derive(Drop)]
struct Office {
    registrar: Registrar,
    store: Store<Whole, Card>,
    published: Published<Whole, Card>,
}

impl Office {
    fn found(heap: Global, records: usize) -> anyhow::Result<Office> {
        let mut values = places(heap, card(0), records)?;
        for (value, revision) in values.iter_mut().zip(0u32..) {
            *value = card(revision);
        }
        let mut store = Store::new(heap, card(0), records, PLACES)?;
        let published = Published::opening(heap, &values)?;
        let registrar = Registrar::found(&values, store.lend())?;
        Ok(Office {
            registrar,
            store,
            published,
        })
    }

    fn publish(&mut self) -> Result<u32, Refusal> {
        self.registrar.publish(
            self.store.lend(),
            &mut self.published.head,
            &mut self.published.rows,
            &mut self.published.outcomes,
        )
    }

    fn decide(&mut self) -> Result<Outcome<Whole>, Refusal> {
        self.registrar.decide(self.store.lend())
    }

    fn image(&self) -> Image<'_, Whole, Card> {
        self.published.image()
    }

    // Submits a job and decides it; the stamp, or 0.
    fn decided(&mut self, job: Job<Whole>, sheet: &[Entry<Whole, Card>]) -> Result<u64, Refusal> {
        let ticket = self
            .registrar
            .submit(self.store.lend(), job, sheet)
            .map_err(|(refusal, _)| refusal)?;
        ticket.waive();
        Ok(match self.decide()?.verdict {
            Verdict::Accepted { stamp } => stamp.place,
            Verdict::Overtaken | Verdict::Gone | Verdict::NoPlace => 0,
        })
    }

    // A job that looks at record 0 and puts it.
    fn look_and_put(&mut self, sheet: &mut [Entry<Whole, Card>], i: u32) -> Result<u64, Refusal> {
        let mut job = Job::open(self.image())?;
        job.look(sheet, self.image(), 0)?;
        job.put(sheet, self.image(), 0, card(i))?;
        self.decided(job, sheet)
    }

    // A job that looks at record 1 alone.
    fn look_alone(&mut self, sheet: &mut [Entry<Whole, Card>]) -> Result<u64, Refusal> {
        let mut job = Job::open(self.image())?;
        job.look(sheet, self.image(), 1)?;
        self.decided(job, sheet)
    }
}

// So many jobs in order, each at the latest image.
fn in_order(
    office: &mut Office,
    sheet: &mut [Entry<Whole, Card>],
    jobs: u32,
) -> Result<u64, Refusal> {
    let mut sum = 0u64;
    for i in 0..jobs {
        office.publish()?;
        sum = sum.wrapping_add(office.look_and_put(sheet, i)?);
    }
    Ok(sum)
}

// A journal that fills in order.
fn fill(heap: Global) -> anyhow::Result<u64> {
    let mut office = Office::found(heap, 2)?;
    let mut sheet = [blank(card(0)); 16];
    Ok(in_order(&mut office, &mut sheet, 4096)?)
}

// Half the journal at later stamps, and then jobs that all stand before them.
fn shift(heap: Global) -> anyhow::Result<u64> {
    let mut office = Office::found(heap, 2)?;
    let mut sheet = [blank(card(0)); 16];
    let mut sum = in_order(&mut office, &mut sheet, 2048)?;
    office.publish()?;
    for i in 0..2048u32 {
        if i % 32 == 31 {
            office.publish()?;
        }
        sum = sum.wrapping_add(office.look_alone(&mut sheet)?);
    }
    Ok(sum)
}

// Images of 1,024 records.
fn publish(heap: Global, rounds: u32) -> anyhow::Result<u64> {
    let mut office = Office::found(heap, 1024)?;
    let mut sum = 0u64;
    for _ in 0..rounds {
        sum = sum.wrapping_add(u64::from(office.publish()?));
    }
    Ok(sum)
}

// A full sheet tuned to image after image of 16 records; without tuning, the images alone.
fn tune(heap: Global, rounds: u32, tuned: bool) -> anyhow::Result<u64> {
    let mut office = Office::found(heap, 16)?;
    let mut sheet = [blank(card(0)); 16];
    office.publish()?;
    let mut job = Job::open(office.image())?;
    for record in 0..16 {
        job.look(&mut sheet, office.image(), record)?;
    }
    let mut sum = 0u64;
    for _ in 0..rounds {
        office.publish()?;
        if tuned && job.tune(&mut sheet, office.image())? == Standing::Live {
            sum = sum.wrapping_add(1);
        }
    }
    Ok(sum)
}

// An archive inspected again and again.
fn inspected(bytes: &[u8], rounds: u32) -> u64 {
    let mut sum = 0u64;
    for _ in 0..rounds {
        let jobs = inspect::<Whole, Card>(bytes).unwrap_or(0);
        sum = sum.wrapping_add(jobs as u64);
    }
    sum
}

// An archive played again and again, after all its jobs.
fn played(heap: Global, bytes: &[u8], rounds: u32) -> anyhow::Result<u64> {
    let [_, _, _, _, _, _, n0, n1, j0, j1, j2, j3, ..] = bytes else {
        bail!("expected an archive");
    };
    let records = usize::from(u16::from_be_bytes([*n0, *n1]));
    let jobs = u32::from_be_bytes([*j0, *j1, *j2, *j3]) as usize;
    let mut values = places(heap, card(0), records)?;
    let mut sum = 0u64;
    for _ in 0..rounds {
        if play::<Whole, Card>(bytes, jobs, &mut values).is_err() {
            bail!("expected an archive of whole stamps and cards");
        }
        if let Some(value) = values.first() {
            sum = sum.wrapping_add(u64::from(value.revision));
        }
    }
    Ok(sum)
}

fn main(rt: HostRuntime) -> anyhow::Result<()> {
    let mut arguments = env::args(&rt)?.skip(1);
    let workload = arguments.next().context("expected a workload")?;
    let rounds: u32 = arguments
        .next()
        .context("expected a number of rounds")?
        .parse()?;
    let heap = rt.alloc();
    let mut bytes = Vec::new(heap);
    let mut sum = 0u64;
    match workload.as_str() {
        "fill" => {
            for _ in 0..rounds {
                sum = sum.wrapping_add(fill(heap)?);
            }
        }
        "shift" => {
            for _ in 0..rounds {
                sum = sum.wrapping_add(shift(heap)?);
            }
        }
        "publish" => sum = publish(heap, rounds)?,
        "tune" => sum = tune(heap, rounds, true)?,
        "untuned" => sum = tune(heap, rounds, false)?,
        "inspect" => {
            rt.stdin().read_to_end(&mut bytes)?;
            sum = inspected(&bytes, rounds);
        }
        "play" => {
            rt.stdin().read_to_end(&mut bytes)?;
            sum = played(heap, &bytes, rounds)?;
        }
        _ => bail!("expected fill, shift, publish, tune, untuned, inspect or play"),
    }
    println!(rt; "{sum}")?;
    Ok(())
}
