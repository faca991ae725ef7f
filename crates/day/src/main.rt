// One day of a small register: founding, a station's job, deciding, publishing and settling.

#![tactic(auto)]

use kinds::card::{Card, Unit};
use kinds::whole::Whole;
use model::entry::Entry;
use model::image::Image;
use model::refusal::Refusal;
use model::verdict::{Outcome, Verdict};
use office::images::Published;
use office::store::{Store, blank};
use registrar::registrar::Registrar;
use registrar::ticket::Ticket;
use station::job::Job;

// The registrar's office: its own numbers, its tables, and the image published last.
#[derive(Drop)]
struct Office {
    registrar: Registrar,
    store: Store<Whole, Card>,
    published: Published<Whole, Card>,
}

impl Office {
    // An office with a new register of these values, on tables that were brought.
    fn found(
        values: &[Card],
        mut store: Store<Whole, Card>,
        published: Published<Whole, Card>,
    ) -> Result<Office, Refusal> {
        let registrar = Registrar::found(values, store.lend())?;
        Ok(Office {
            registrar,
            store,
            published,
        })
    }

    // Publishes the next image.
    fn publish(&mut self) -> Result<u32, Refusal> {
        self.registrar.publish(
            self.store.lend(),
            &mut self.published.head,
            &mut self.published.rows,
            &mut self.published.outcomes,
        )
    }

    // The job is over once it is submitted: what is left is its ticket.
    fn submit(
        &mut self,
        job: Job<Whole>,
        sheet: &[Entry<Whole, Card>],
    ) -> Result<Ticket, (Refusal, Job<Whole>)> {
        self.registrar.submit(self.store.lend(), job, sheet)
    }

    // Decides on the oldest submission.
    fn decide(&mut self) -> Result<Outcome<Whole>, Refusal> {
        self.registrar.decide(self.store.lend())
    }

    // The image published last, as a station hears it.
    fn image(&self) -> Image<'_, Whole, Card> {
        self.published.image()
    }

    // How many jobs the journal has, under the law of runs.
    fn hand_over(&self) -> usize {
        self.store.books(&self.registrar).hand_over()
    }
}

// A station's job: looks at the frame, and puts a bracket of the next revision.
fn work(
    job: &mut Job<Whole>,
    sheet: &mut [Entry<Whole, Card>],
    image: Image<'_, Whole, Card>,
) -> Result<Card, Refusal> {
    let frame = job.look(sheet, image, 0)?;
    let bracket = job.look(sheet, image, 1)?;
    let next = Card {
        revision: bracket.revision.saturating_add(1),
        ..bracket
    };
    job.put(sheet, image, 1, next)?;
    Ok(frame)
}

// Submits the job and decides it; the verdict is in the next image.
fn verdict(
    office: &mut Office,
    job: Job<Whole>,
    sheet: &[Entry<Whole, Card>],
) -> Result<Verdict<Whole>, Refusal> {
    let ticket = office.submit(job, sheet).map_err(|(refusal, _)| refusal)?;
    // With `?` a ticket would be let go here; what is refused shows when it is settled.
    let _ = office.decide();
    let _ = office.publish();
    ticket.settle(office.image()).map_err(|(refusal, ticket)| {
        ticket.waive();
        refusal
    })
}

// Publishes the first image, does one job, and answers what it saw of the frame and the verdict on it.
fn day(
    office: &mut Office,
    sheet: &mut [Entry<Whole, Card>],
) -> Result<(Card, Verdict<Whole>), Refusal> {
    office.publish()?;
    let mut job = Job::open(office.image())?;
    let frame = work(&mut job, sheet, office.image())?;
    let verdict = verdict(office, job, sheet)?;
    Ok((frame, verdict))
}

fn main(rt: HostRuntime) -> anyhow::Result<()> {
    let frame = Card {
        revision: 1,
        unit: Unit::Millimetre,
        mass: 4000,
    };
    let bracket = Card {
        revision: 7,
        unit: Unit::Millimetre,
        mass: 250,
    };
    let values = [frame, bracket];
    let store = Store::new(rt.alloc(), frame, values.len(), 8)?;
    let published = Published::opening(rt.alloc(), &values)?;
    let mut office = Office::found(&values, store, published)?;
    let mut sheet = [blank(frame); 16];
    match day(&mut office, &mut sheet) {
        Ok((seen, Verdict::Accepted { stamp })) => {
            println!(rt;
                "a job that saw a frame of revision {} is accepted at {}",
                seen.revision, stamp.place
            )?;
        }
        Ok(_) => println!(rt; "the job is not accepted")?,
        Err(refusal) => println!(rt; "{refusal}")?,
    }
    let jobs = office.hand_over();
    println!(rt;
        "image {}: the journal has {jobs} job",
        office.published.head.number
    )?;
    Ok(())
}
