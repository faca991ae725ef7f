// A register on the bench: the registrar with its tables, the image that it published last, and one job with its sheet.
use crate::content::{Content, same_table};
use crate::kinds_used::Values;
use kinds::stamp::Stamp;
use model::entry::Entry;
use model::refusal::Refusal;
use model::verdict::Outcome;
use office::images::Published;
use office::store::{Store, blank, places};
use registrar::registrar::Registrar;
use registrar::ticket::Ticket;
use station::job::{Job, Standing};
use std::alloc::{AllocError, Global};
use std::test::Fail;

// The calls on what stands on the bench. A put puts the new value.
#[derive(Clone, Copy, Debug)]
pub enum Call {
    Found,
    Open,
    Look(usize),
    Put(usize),
    Tune,
    Submit,
    Decide,
    Publish,
}

#[derive(Drop)]
pub struct Bench<S: Copy, R: Copy> {
    pub values: Values<R>,
    pub opening: Vec<R>,
    pub registrar: Registrar,
    pub store: Store<S, R>,
    pub published: Published<S, R>,
    pub job: Job<S>,
    pub sheet: Vec<Entry<S, R>>,
    // Which step of a test is taken, for the message of a failure.
    pub step: usize,
}

// An entry for a record, neither seen nor put.
pub fn entry_for<S: Stamp, R: Copy>(value: R, number: usize) -> Entry<S, R> {
    Entry {
        number,
        ..blank(value)
    }
}

// A test fails where a fact does not hold.
pub fn holds(fact: bool, otherwise: &str) -> Result<(), Fail> {
    if fact {
        Ok(())
    } else {
        Err(Fail::new(otherwise))
    }
}

// The same job once more.
fn copy_of<S: Copy>(job: &Job<S>) -> Job<S> {
    Job {
        image: job.image,
        lower: job.lower,
        upper: job.upper,
        standing: job.standing,
        count: job.count,
    }
}

fn same_job<S: Content>(a: &Job<S>, b: &Job<S>) -> bool {
    a.image == b.image
        && a.lower.is(b.lower)
        && a.upper.is(b.upper)
        && a.standing == b.standing
        && a.count == b.count
}

fn copy_of_store<S: Copy, R: Copy>(store: &Store<S, R>) -> Result<Store<S, R>, AllocError> {
    Ok(Store {
        rows: store.rows.clone()?,
        firsts: store.firsts.clone()?,
        opening: store.opening.clone()?,
        queue: store.queue.clone()?,
        queued: store.queued.clone()?,
        outcomes: store.outcomes.clone()?,
        heads: store.heads.clone()?,
        lines: store.lines.clone()?,
    })
}

fn copy_of_image<S: Copy, R: Copy>(image: &Published<S, R>) -> Result<Published<S, R>, AllocError> {
    Ok(Published {
        head: image.head,
        rows: image.rows.clone()?,
        outcomes: image.outcomes.clone()?,
    })
}

fn same_store<S: Content, R: Content>(a: &Store<S, R>, b: &Store<S, R>) -> bool {
    same_table(&a.rows, &b.rows)
        && same_table(&a.firsts, &b.firsts)
        && same_table(&a.opening, &b.opening)
        && same_table(&a.queue, &b.queue)
        && same_table(&a.queued, &b.queued)
        && same_table(&a.outcomes, &b.outcomes)
        && same_table(&a.heads, &b.heads)
        && same_table(&a.lines, &b.lines)
}

fn same_image<S: Content, R: Content>(a: &Published<S, R>, b: &Published<S, R>) -> bool {
    a.head == b.head && same_table(&a.rows, &b.rows) && same_table(&a.outcomes, &b.outcomes)
}

impl<S: Stamp, R: Copy> Bench<S, R> {
    // A registrar of so many records that was not founded, on tables for as many jobs as are named. The job
    // stands at image 1.
    pub fn new(
        heap: Global,
        values: Values<R>,
        records: usize,
        journal: usize,
    ) -> Result<Bench<S, R>, AllocError> {
        let opening = places(heap, values.old, records)?;
        let published = Published::opening(heap, &opening)?;
        Ok(Bench {
            values,
            opening,
            registrar: Registrar {
                records,
                cycle: 0,
                tickets: 0,
                oldest: 0,
                waiting: 0,
                outcomes: 0,
                jobs: 0,
            },
            store: Store::new(heap, values.new, records, journal)?,
            published,
            job: Job {
                image: 1,
                lower: S::least(),
                upper: None,
                standing: Standing::Live,
                count: 0,
            },
            sheet: places(heap, blank(values.new), 16)?,
            step: 0,
        })
    }

    // A register of two records, founded, with the first image and a job opened there. Each record has a first
    // write, so that it shows where a refused call clears them.
    pub fn founded(heap: Global, values: Values<R>, journal: usize) -> Result<Bench<S, R>, Fail> {
        let mut bench = Bench::new(heap, values, 2, journal)?;
        bench.begin(heap)?;
        Ok(bench)
    }

    fn begin(&mut self, heap: Global) -> Result<(), Fail> {
        for call in [Call::Found, Call::Publish, Call::Open] {
            self.call(call)?;
        }
        self.store.firsts = places(heap, Some(S::least()), 2)?;
        Ok(())
    }

    // A registrar founded on the tables.
    fn found(&mut self) -> Result<(), Refusal> {
        self.registrar = Registrar::found(&self.opening, self.store.lend())?;
        Ok(())
    }

    // A job opened at the image.
    fn open(&mut self) -> Result<(), Refusal> {
        self.job = Job::open(self.published.image())?;
        Ok(())
    }

    pub fn look(&mut self, number: usize) -> Result<R, Refusal> {
        let image = self.published.image();
        self.job.look(&mut self.sheet, image, number)
    }

    fn put(&mut self, number: usize) -> Result<(), Refusal> {
        let image = self.published.image();
        self.job
            .put(&mut self.sheet, image, number, self.values.new)
    }

    pub fn tune(&mut self) -> Result<Standing, Refusal> {
        let image = self.published.image();
        self.job.tune(&mut self.sheet, image)
    }

    // The job once more, submitted; the job that a refusal hands back takes its place.
    pub fn submit(&mut self) -> Result<Ticket, Refusal> {
        let job = copy_of(&self.job);
        match self.registrar.submit(self.store.lend(), job, &self.sheet) {
            Ok(ticket) => Ok(ticket),
            Err((refusal, job)) => {
                self.job = job;
                Err(refusal)
            }
        }
    }

    pub fn decide(&mut self) -> Result<Outcome<S>, Refusal> {
        self.registrar.decide(self.store.lend())
    }

    pub fn publish(&mut self) -> Result<u32, Refusal> {
        self.registrar.publish(
            self.store.lend(),
            &mut self.published.head,
            &mut self.published.rows,
            &mut self.published.outcomes,
        )
    }

    // The answer of a call, but for what it gives where it is not refused.
    pub fn call(&mut self, call: Call) -> Result<(), Refusal> {
        match call {
            Call::Found => self.found(),
            Call::Open => self.open(),
            Call::Look(number) => self.look(number).and(Ok(())),
            Call::Put(number) => self.put(number),
            Call::Tune => self.tune().and(Ok(())),
            Call::Submit => self.submit().map(Ticket::waive),
            Call::Decide => self.decide().and(Ok(())),
            Call::Publish => self.publish().and(Ok(())),
        }
    }

    // Everything on the bench once more.
    fn copy(&self) -> Result<Bench<S, R>, AllocError> {
        Ok(Bench {
            values: self.values,
            opening: self.opening.clone()?,
            registrar: self.registrar,
            store: copy_of_store(&self.store)?,
            published: copy_of_image(&self.published)?,
            job: copy_of(&self.job),
            sheet: self.sheet.clone()?,
            step: self.step,
        })
    }
}

impl<S: Content, R: Content> Bench<S, R> {
    // Whether everything that a call may be given is as on another bench.
    fn is(&self, other: &Bench<S, R>) -> bool {
        same_table(&self.opening, &other.opening)
            && self.registrar == other.registrar
            && same_store(&self.store, &other.store)
            && same_image(&self.published, &other.published)
            && same_job(&self.job, &other.job)
            && same_table(&self.sheet, &other.sheet)
    }
}

impl<S: Stamp + Content, R: Content> Bench<S, R> {
    // A call is answered so; where it is refused, it alters nothing on the bench.
    pub fn gives(&mut self, call: Call, wanted: Result<(), Refusal>) -> Result<(), Fail> {
        let before = self.copy()?;
        let answer = self.call(call);
        self.agrees(&before, call, answer, wanted)
    }

    fn agrees(
        &self,
        before: &Bench<S, R>,
        call: Call,
        answer: Result<(), Refusal>,
        wanted: Result<(), Refusal>,
    ) -> Result<(), Fail> {
        if answer != wanted {
            Err(self.unwanted(call, answer, wanted))
        } else if answer.is_err() && !self.is(before) {
            Err(self.altered(call))
        } else {
            Ok(())
        }
    }

    fn unwanted(
        &self,
        call: Call,
        answer: Result<(), Refusal>,
        wanted: Result<(), Refusal>,
    ) -> Fail {
        Fail::new(format_args!(
            "step {}: {call:?} gives {answer:?}, and not {wanted:?}",
            self.step
        ))
    }

    fn altered(&self, call: Call) -> Fail {
        Fail::new(format_args!("step {}: {call:?}, refused, alters something", self.step))
    }
}
