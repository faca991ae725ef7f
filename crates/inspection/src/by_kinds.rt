// Inspects an archive by the kinds that its heading names.
ghost use Rattle.std.specs.Prelude.{◌≡◌, IfErr};
ghost use Rattle.inspection.specs.Kinds.{HasPlace, inspected_under, inspected_by_kinds};

use archive::fault::Fault;
use archive::inspect::inspect;
use kinds::card::Card;
use kinds::item::Item;
use kinds::stamp::Stamp;
use kinds::value::Record;
use kinds::volume::VolumePage;
use kinds::whole::Whole;

// Inspects by the number of a record kind, the stamp kind being known.
fn inspect_under<S: Stamp>(bytes: &[u8], records: u8) -> Result<usize, Fault>
    ensures { result ≡ inspected_under S.Stamp.kind.order records bytes.now }
{
    if records == Card::number() {
        inspect::<S, Card>(bytes)
    } else if records == Item::number() {
        inspect::<S, Item>(bytes)
    } else {
        Err(Fault::HeadingWrong)
    }
}

// The number of jobs of an archive, or its first fault, by the kinds that its heading names. A kind that is not
// supplied is a fault of the heading, and so is a heading too short to name its kinds. Each fault stands at a place.
pub fn inspect_by_kinds(bytes: &[u8]) -> Result<usize, Fault>
    ensures answer { result ≡ inspected_by_kinds bytes.now }
    ensures placed { IfErr result HasPlace }
{
    let [_, _, _, _, stamps, records, ..] = bytes else {
        return Err(Fault::HeadingWrong);
    };
    if *stamps == Whole::number() {
        inspect_under::<Whole>(bytes, *records)
    } else if *stamps == VolumePage::number() {
        inspect_under::<VolumePage>(bytes, *records)
    } else {
        Err(Fault::HeadingWrong)
    }
}
