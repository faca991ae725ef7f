// The kinds that the heading of an archive names.
ghost use Rattle.std.specs.Prelude.{◌≡◌};
ghost use Rattle.archive_view.specs.Named.{records_named, kinds_named};

use kinds::card::Card;
use kinds::item::Item;
use kinds::stamp::Stamp;
use kinds::value::Record;
use kinds::volume::VolumePage;
use kinds::whole::Whole;

// The supplied kinds, one of stamps and one of records. Who adds a kind to the library adds it here too.
#[derive(Clone, Copy)]
pub enum Kinds {
    WholeCards,
    WholeItems,
    PageCards,
    PageItems,
}

// The one for cards or the one for items, by the number of a record kind.
fn records_named(number: u8, cards: Kinds, items: Kinds) -> Option<Kinds>
    ensures { result ≡ records_named number cards items }
{
    if number == Card::number() {
        Some(cards)
    } else if number == Item::number() {
        Some(items)
    } else {
        None
    }
}

// The kinds whose numbers stand in bytes 4 and 5, if both are supplied.
pub fn kinds_named(bytes: &[u8]) -> Option<Kinds>
    ensures { result ≡ kinds_named bytes.now }
{
    let [_, _, _, _, stamps, records, ..] = bytes else {
        return None;
    };
    if *stamps == Whole::number() {
        records_named(*records, Kinds::WholeCards, Kinds::WholeItems)
    } else if *stamps == VolumePage::number() {
        records_named(*records, Kinds::PageCards, Kinds::PageItems)
    } else {
        None
    }
}
