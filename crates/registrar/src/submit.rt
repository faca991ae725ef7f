// Submitting a job.
ghost use Rattle.std.specs.Prelude.{◌≡◌, ◌<◌, Ok, length};
ghost use Rattle.station.specs.Heard.{on_unless};
ghost use Rattle.registrar.specs.Registry.{submit_refused, submit as submitted_by};
ghost use Rattle.registrar.specs.Calls.{registry_left, registry_in, no_numbers, Lengths, station_of, handed_as, handed_in};

use crate::bundle::Tables;
use crate::places::lay;
use crate::queue::{Submission, next_place};
use crate::registrar::Registrar;
use crate::ticket::Ticket;
use kinds::stamp::Stamp;
use model::entry::{Entry, beyond};
use model::refusal::Refusal;
use model::tables::{front, store};
use station::job::Job;

impl Registrar {
    // Whether a job may go to the end of the queue; or why not.
    fn admit<S: Stamp, R: Copy>(
        &self,
        tables: &Tables<'_, S, R>,
        job: &Job<S>,
        sheet: &[Entry<S, R>],
    ) -> Result<(), Refusal>
        ensures told { result ≡ on_unless (submit_refused (registry_in self.now tables.now) (station_of job.now sheet.now)) }
        ensures lengths { result ≡ Ok tt → Lengths self.now.records (registry_in no_numbers tables.now) × (length sheet.now ≡ 16) }
        ensures counts { result ≡ Ok tt → (self.now.waiting < 16) × (self.now.tickets < 4294967295) }
    {
        if !tables.fit(self.records) {
            return Err(Refusal::WrongTables);
        }
        if sheet.len() != 16 {
            return Err(Refusal::WrongTables);
        }
        if job.is_shut() {
            return Err(Refusal::JobShut);
        }
        if beyond(front(sheet, job.count), self.records) {
            return Err(Refusal::NoSuchRecord);
        }
        if self.waiting >= 16 {
            return Err(Refusal::QueueFull);
        }
        if self.tickets == u32::MAX {
            return Err(Refusal::CountEnded);
        }
        Ok(())
    }

    // The live job goes to the end of the queue, for the next ticket; a refusal hands the job back.
    pub fn submit<S: Stamp, R: Copy>(
        &mut self,
        tables: Tables<'_, S, R>,
        job: Job<S>,
        sheet: &[Entry<S, R>],
    ) -> Result<Ticket, (Refusal, Job<S>)>
        ensures { handed_as result (registry_left self.new tables.exit) ≡ handed_in job (submitted_by (registry_in self.old tables.entry) (station_of job sheet.now)) }
    {
        if let Err(refusal) = self.admit(&tables, &job, sheet) {
            return Err((refusal, job));
        }
        let entries = front(sheet, job.count);
        let place = next_place(self.oldest, self.waiting);
        self.tickets += 1;
        self.waiting += 1;
        store(
            tables.queue,
            place,
            Submission {
                ticket: self.tickets,
                lower: job.lower,
                upper: job.upper,
                count: entries.len(),
            },
        );
        lay(tables.queued, 16 * place, entries);
        Ok(Ticket::new(self.tickets))
    }
}
