// What the heading of an archive states.
ghost use Rattle.std.specs.Prelude.{◌≡◌};
ghost use Rattle.archive_view.specs.Told.{sizes_told, sizes_named};

use crate::named::{Kinds, kinds_named};
use archive::fault::Fault;
use kinds::card::Card;
use kinds::item::Item;
use kinds::stamp::Stamp;
use kinds::value::Record;
use kinds::volume::VolumePage;
use kinds::whole::Whole;
use reader::reader::Reader;

// The numbers of both kinds, that of records and that of jobs.
#[derive(Clone, Copy)]
pub struct Sizes {
    pub stamp_kind: u8,
    pub record_kind: u8,
    pub records: usize,
    pub jobs: usize,
}

// The sizes of an archive of given kinds.
fn sizes_told<S: Stamp, R: Record>(bytes: &[u8]) -> Result<Sizes, Fault>
    ensures { result ≡ sizes_told S.Stamp.kind.order R.Record.kind bytes.now }
{
    let reader = Reader::<S, R>::open(bytes)?;
    Ok(Sizes {
        stamp_kind: S::number(),
        record_kind: R::number(),
        records: reader.records(),
        jobs: reader.jobs(),
    })
}

// The sizes of an archive that is right but for its play, or its first fault.
pub fn read_sizes(bytes: &[u8]) -> Result<Sizes, Fault>
    ensures { result ≡ sizes_named bytes.now }
{
    match kinds_named(bytes) {
        Some(Kinds::WholeCards) => sizes_told::<Whole, Card>(bytes),
        Some(Kinds::WholeItems) => sizes_told::<Whole, Item>(bytes),
        Some(Kinds::PageCards) => sizes_told::<VolumePage, Card>(bytes),
        Some(Kinds::PageItems) => sizes_told::<VolumePage, Item>(bytes),
        None => Err(Fault::HeadingWrong),
    }
}
