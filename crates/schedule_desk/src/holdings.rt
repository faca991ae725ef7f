// What names stand for: jobs with their sheets, and tickets.
ghost use Rattle.std.specs.Prelude.{◌≡◌, [], OnOk, IfErr, unwrap_or, Some};
ghost use Rattle.std.specs.BTreeMap.{get_by_text};
ghost use Rattle.std.specs.Option.{option_copied, option_copied_mut};
ghost use Rattle.schedule_calls.specs.declared.reason.Fault.TheVariants.{Memory};
ghost use Rattle.schedule_desk.specs.Held.{Finds, job_held, job_named, ticket_named, if_free};

use model::entry::Entry;
use registrar::ticket::Ticket;
use schedule_calls::reason::{Fault, Reason};
use station::job::Job;
use std::alloc::{AllocFailed, Global};
use std::collections::BTreeMap;

// A job with its sheet.
#[derive(Drop)]
pub struct Station<S: Copy, R: Copy> {
    pub job: Job<S>,
    pub sheet: Vec<Entry<S, R>>,
}

impl<S: Copy, R: Copy> Station<S, R> {
    // The number of the image that is named, or else of the one at which the job stands. It is cast, since a `u32`
    // has no `From` for a `usize`.
    pub(crate) fn image(&self, named: Option<usize>) -> usize
        ensures { result ≡ unwrap_or named self.now.job.image }
    {
        named.unwrap_or(self.job.image as usize)
    }
}

// What a name stands for: a job at work, or the ticket of a job that was submitted.
pub enum Holding<S: Copy, R: Copy> {
    AtWork(Station<S, R>),
    Submitted(Ticket),
}

impl<S: Copy, R: Copy> Holding<S, R> {
    // The job, unless it was submitted.
    fn job(&self) -> Option<&Station<S, R>>
        ensures { option_copied result ≡ job_held (Some self.now) }
    {
        match self {
            Holding::AtWork(station) => Some(station),
            Holding::Submitted(_) => None,
        }
    }

    // The job, unless it was submitted, for a call that goes on with it. It stands beside `job` as `get_mut` does
    // beside `get`: no function lends both ways.
    fn job_mut(&mut self) -> Option<&mut Station<S, R>>
        ensures { option_copied_mut result ≡ job_held (Some self.old) }
    {
        match self {
            Holding::AtWork(station) => Some(station),
            Holding::Submitted(_) => None,
        }
    }

    // Lets the job go, or waives the ticket, which cannot be forgotten.
    fn let_go(self) {
        match self {
            Holding::AtWork(_) => {}
            Holding::Submitted(ticket) => ticket.waive(),
        }
    }
}

// The jobs and the tickets by name.
pub struct Holdings<S: Copy, R: Copy> {
    heap: Global,
    named: BTreeMap<String, Holding<S, R>>,
}

// The fault of a name under which nothing stands, by the reason that names it.
fn missing<F: FnOnce(String) -> Reason + Drop>(heap: Global, name: &str, reason: F) -> Fault
    requires { F.IsAlwaysCallable reason }
{
    match String::from_str(heap, name) {
        Ok(name) => reason(name).into(),
        Err(e) => e.into(),
    }
}

// What stands under a name, or the fault that nothing does.
fn standing<T, F: FnOnce(String) -> Reason + Drop>(
    heap: Global,
    found: Option<T>,
    name: &str,
    reason: F,
) -> Result<T, Fault>
    requires { F.IsAlwaysCallable reason }
    ensures { Finds (λ x. x) found result }
{
    match found {
        Some(found) => Ok(found),
        None => Err(missing(heap, name, reason)),
    }
}

impl<S: Copy, R: Copy> Holdings<S, R> {
    // No name stands.
    pub fn new(heap: Global) -> Holdings<S, R>
        ensures { result.named.entries ≡ [] }
    {
        Holdings {
            heap,
            named: BTreeMap::new(heap),
        }
    }

    // The name, unless it stands.
    pub(crate) fn free(&self, name: &str) -> Result<String, Fault>
        ensures { Finds (λ _. tt) (if_free (get_by_text self.now.named name.now)) result }
    {
        let stands = self.named.contains_key(name);
        let name = String::from_str(self.heap, name)?;
        if stands {
            return Err(Reason::Standing(name).into());
        }
        Ok(name)
    }

    // The job of this name.
    pub(crate) fn job(&self, name: &str) -> Result<&Station<S, R>, Fault>
        ensures { Finds (λ t. t.now) (job_named self.now name.now) result }
    {
        let found = self.named.get(name).and_then(|holding| holding.job());
        standing(self.heap, found, name, Reason::NoJob)
    }

    // The job of this name, for a call that goes on with it: `job` again, through a `&mut`.
    pub(crate) fn job_mut(&mut self, name: &str) -> Result<&mut Station<S, R>, Fault>
        ensures { Finds (λ t. t.now) (job_named self.old name.now) result }
    {
        let found = self
            .named
            .get_mut(name)
            .and_then(|holding| holding.job_mut());
        standing(self.heap, found, name, Reason::NoJob)
    }

    // Takes the job of this name, with the name, which is free then. A ticket stays.
    pub(crate) fn take_job(&mut self, name: &str) -> Result<(String, Station<S, R>), Fault>
        ensures free { OnOk result (get_by_text self.new.named name.now ≡ None) }
        ensures job { Finds (λ p. p.1) (job_named self.old name.now) result }
    {
        let found = self.named.remove_entry(name);
        let (taken, holding) = standing(self.heap, found, name, Reason::NoJob)?;
        match holding {
            Holding::AtWork(station) => Ok((taken, station)),
            Holding::Submitted(ticket) => {
                self.keep(taken, Holding::Submitted(ticket))?;
                Err(missing(self.heap, name, Reason::NoJob))
            }
        }
    }

    // Takes the ticket of this name, with the name, which is free then. A job at work stays. It is `take_job` with
    // the cases turned round: one function for both would have to be handed the cases and the reason.
    pub(crate) fn take_ticket(&mut self, name: &str) -> Result<(String, Ticket), Fault>
        ensures { Finds (λ p. p.1) (ticket_named self.old name.now) result }
    {
        let found = self.named.remove_entry(name);
        let (taken, holding) = standing(self.heap, found, name, Reason::NoTicket)?;
        match holding {
            Holding::Submitted(ticket) => Ok((taken, ticket)),
            Holding::AtWork(station) => {
                self.keep(taken, Holding::AtWork(station))?;
                Err(missing(self.heap, name, Reason::NoTicket))
            }
        }
    }

    // The name stands for this from here on. What finds no place is let go.
    pub(crate) fn keep(&mut self, name: String, holding: Holding<S, R>) -> Result<(), Fault>
        ensures { IfErr result (λ fault. fault ≡ Memory) }
    {
        match self.named.insert(name, holding) {
            Ok(None) => Ok(()),
            Ok(Some(earlier)) => {
                earlier.let_go();
                Ok(())
            }
            Err(
                AllocFailed {
                    value: (_, holding),
                },
            ) => {
                holding.let_go();
                Err(Fault::Memory)
            }
        }
    }

    // Lets all go that stands, one by one.
    pub fn close(self) {
        let Holdings { heap: _, mut named } = self;
        while let Some((_, holding)) = named.pop_first() {
            holding.let_go();
        }
        named.destroy_empty();
    }
}
