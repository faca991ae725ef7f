// Playing an archive back.
ghost use Rattle.readback.specs.PlaysBack.{PlaysWhatIsStated};

use kinds::stamp::Stamp;
use kinds::value::Record;

// The values that play leaves after the first jobs of an archive, however many, are those of the play of
// these jobs, as the archive states them, from the opening values that it states. So it is for every archive
// that is accepted but for its looks, whoever made it.
pub fn plays_what_is_stated<S: Stamp, R: Record>()
    ensures { PlaysWhatIsStated S.Stamp.kind.order R.Record.kind }
{}
