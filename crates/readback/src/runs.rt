// Reading back and playing back what is laid down of runs.
ghost use Rattle.registrar.specs.Registry.{Registry};
ghost use Rattle.readback.specs.ReadsBack.{RunReadsBack};
ghost use Rattle.readback.specs.PlaysBack.{RunPlaysBack};

use kinds::stamp::Stamp;
use kinds::value::Record;

// For every stamp kind and every record kind, and whichever run of calls led from a founding to a registry:
// the archive of its opening values and its journal is accepted, with the number of the jobs as the answer,
// and states these values and jobs, stamps and values up to counting alike.
pub fn run_reads_back<S: Stamp, R: Record>()
    ensures { (g : Registry S R) → RunReadsBack S.Stamp.kind R.Record.kind g }
{}

// And played whole it gives the values in the registry's rows, up to counting alike.
pub fn run_plays_back<S: Stamp, R: Record>()
    ensures { (g : Registry S R) → RunPlaysBack S.Stamp.kind R.Record.kind g }
{}
