// What is laid down reads back, and nothing else is accepted.
ghost use Rattle.readback.specs.ReadsBack.{SoundReadsBack};
ghost use Rattle.readback.specs.Accepted.{AcceptedExactly, AcceptedIsSound};

use kinds::stamp::Stamp;
use kinds::value::Record;

// For every stamp kind and every record kind: whatever opening values and jobs are laid down, if they are sound, the
// bytes are accepted by the whole rule of reading, with the number of the jobs as the answer, and what the bytes
// state counts alike with what was laid down.
pub fn sound_reads_back<S: Stamp, R: Record>()
    ensures { SoundReadsBack S.Stamp.kind.order R.Record.kind }
{}

// For every stamp kind and every record kind, and whatever the bytes: the whole rule of reading accepts them, with so
// many jobs as the answer, exactly when they are what is laid down of sound opening values and so many sound jobs. The
// values and jobs that accepted bytes state are such.
pub fn accepted_exactly<S: Stamp, R: Record>()
    ensures exactly { AcceptedExactly S.Stamp.kind.order R.Record.kind }
    ensures stated { AcceptedIsSound S.Stamp.kind.order R.Record.kind }
{}
