// A whole schedule, from its text to the printout.
ghost use Rattle.std.specs.Prelude.{◌≡◌, ◌≤◌, length, [], Ok, IfOk, IfErr};
ghost use Rattle.schedule_text.specs.Lines.{lines_of};
ghost use Rattle.schedule_text.specs.Runs.{told};
ghost use Rattle.schedule_session.specs.Runs.{help_text, ending_of};

use crate::session::Session;
use schedule_calls::reason::Fault;
use schedule_desk::log::Log;
use schedule_text::line::Lines;
use schedule_text::run::{Printout, Stopped};
use std::alloc::{AllocError, Global};

// What an empty input is answered with.
const HELP: &str = "A schedule: one command to a line. Lines that begin with # are passed over.

found STAMPKIND RECORDKIND PLACES VALUE ...
  the register of these opening values; STAMPKIND is whole or page, RECORDKIND card or item, PLACES 1 to 4096
publish
  the next image
open NAME IMAGE
  a job at an image
look NAME RECORD [at IMAGE]
  the job's value of a record
put NAME RECORD VALUE [at IMAGE]
  a new value for a record
tune NAME IMAGE
  the job goes on to the next image
submit NAME
  the job goes to the registrar, and NAME stands for its ticket
decide
  the verdict on the oldest submission
settle NAME IMAGE
  the verdict on a ticket, as the image has it
waive NAME
  the ticket is spent unread
drop NAME
  a job that was not submitted is let go

row RECORD, job NAME, journal, image IMAGE
  show a state
archive
  the archive of the journal, in hexadecimal digits
inspect
  whether that archive is sound, with its number of jobs
play M
  the values after the first M jobs of that archive

pick KIND LOWER UPPER
  a stamp after LOWER and before UPPER, which may be none; KIND is whole or page
form KIND VALUE
  the written form of a stamp or value; KIND is whole, page, card or item
read KIND DIGITS
  the stamp or value of a written form of 16 or 24 hexadecimal digits

values: whole 65536, page 3/17, card 4:mm:250, item withdrawn, solid:77 or sub:12:4
";

// The words of the longest call, a founding of 1,024 records.
const MOST_WORDS: usize = 1028;

// Where a run ends early, and why.
#[derive(Drop)]
struct Stop {
    line: usize,
    fault: Fault,
}

// Carries out the lines of an input, up to the first that is no call. Their words go to one list, which is let go
// behind a line that is longer than any call, so that it does not keep that room for the rest of the run.
fn run_lines(heap: Global, session: &mut Session, input: &[u8]) -> Result<(), Stop>
    ensures { IfErr result (λ s. (1 ≤ s.line) × (s.line ≤ length (lines_of input.now))) }
{
    let mut words = Vec::new(heap);
    for (i, line) in Lines(input).enumerate() {
        if let Err(fault) = session.carry_out(&mut words, line) {
            let line = i + 1;
            return Err(Stop { line, fault });
        }
        if words.len() > MOST_WORDS {
            words = Vec::new(heap);
        }
    }
    Ok(())
}

// The printout of a run, with the last line of one that came to its end, or of one that stopped.
fn finish(mut log: Log, ended: Result<(), Stop>, jobs: Option<usize>) -> Result<Printout, Fault>
    ensures { IfOk result (λ p. p.ending ≡ ending_of ended) }
{
    let ending = match ended {
        Ok(()) => {
            if let Some(jobs) = jobs {
                log.ended(jobs)?;
            }
            Ok(())
        }
        Err(
            Stop {
                line,
                fault: Fault::NoCall(reason),
            },
        ) => {
            log.no_call(line, &reason)?;
            Err(Stopped { line })
        }
        Err(Stop { line: _, fault }) => return Err(fault),
    };
    Ok(Printout {
        text: log.text,
        ending,
    })
}

// The printout of a schedule; of an empty one, the help. A run that stops names the line that is no call.
pub fn run(heap: Global, input: &[u8]) -> Result<Printout, AllocError>
    ensures help { length input.now ≡ 0 → IfOk result (λ p. told p ≡ record { text = help_text; ending = Ok tt }) }
    ensures line { IfOk result (λ p. IfErr p.ending (λ s. (1 ≤ s.line) × (s.line ≤ length (lines_of input.now)))) }
{
    if input.is_empty() {
        return Ok(Printout {
            text: String::from_str(heap, HELP)?,
            ending: Ok(()),
        });
    }
    let mut session = Session::new(heap);
    let ended = run_lines(heap, &mut session, input);
    let (log, jobs) = session.close();
    finish(log, ended, jobs).map_err(|_| AllocError)
}
