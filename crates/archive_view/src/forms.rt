// Plays an archive into a space of written forms.
ghost use Rattle.std.specs.Prelude.{◌≡◌, ◌+◌, ◌*◌, ◌/◌, ◌≤◌, min, length};
ghost use Rattle.kinds.specs.Card.{card_kind};
ghost use Rattle.kinds.specs.Item.{item_kind};
ghost use Rattle.archive.specs.Laying.{laid_over};
ghost use Rattle.archive.specs.Values.{values_bytes};
ghost use Rattle.archive_view.specs.Played.{forms_told, forms_named, answered, left_behind};

use crate::named::{Kinds, kinds_named};
use archive::fault::Fault;
use archive::play::play;
use kinds::card::{Card, Unit};
use kinds::item::Item;
use kinds::stamp::Stamp;
use kinds::value::Record;
use kinds::volume::VolumePage;
use kinds::whole::Whole;

// Lays bytes over those of a space, from a place on.
fn lay(space: &mut [u8], at: usize, bytes: &[u8])
    requires { at + length bytes.now ≤ length space.old }
    ensures { space.new ≡ laid_over at bytes.now space.old }
{
    space[at..at + bytes.len()].copy_from_slice(bytes);
}

// Writes the forms of values, one behind the other.
fn write<R: Record>(values: &[R], space: &mut [u8])
    requires { length space.old ≡ 12 * length values.now }
    ensures { space.new ≡ values_bytes R.Record.kind.form values.now }
{
    for (i, value) in values.iter().enumerate() {
        lay(space, 12 * i, &value.to_bytes());
    }
}

// For how many values the forms in a space have room; no archive has more than 1,024.
fn room_for(space: &[u8]) -> usize
    ensures value { result ≡ min (length space.now / 12) 1024 }
    ensures bound { result ≤ 1024 }
{
    (space.len() / 12).min(1024)
}

// The forms after so many jobs of an archive of given kinds. The values are played first, in a memory for as many.
fn forms_told<S: Stamp, R: Record>(
    bytes: &[u8],
    jobs: usize,
    values: &mut [R],
    space: &mut [u8],
) -> Result<(), Fault>
    requires { length values.old ≡ min (length space.old / 12) 1024 }
    ensures answer { result ≡ answered (forms_told S.Stamp.kind.order R.Record.kind bytes.now (length space.old) jobs) }
    ensures leaves { space.new ≡ left_behind (forms_told S.Stamp.kind.order R.Record.kind bytes.now (length space.old) jobs) space.old }
{
    let room = values.len();
    play::<S, R>(bytes, jobs, values)?;
    if space.len() != 12 * room {
        return Err(Fault::SpaceWrong);
    }
    write(values, space);
    Ok(())
}

// The same of an archive of cards.
fn cards<S: Stamp>(bytes: &[u8], jobs: usize, space: &mut [u8]) -> Result<(), Fault>
    ensures answer { result ≡ answered (forms_told S.Stamp.kind.order card_kind bytes.now (length space.old) jobs) }
    ensures leaves { space.new ≡ left_behind (forms_told S.Stamp.kind.order card_kind bytes.now (length space.old) jobs) space.old }
{
    let blank = Card {
        revision: 0,
        unit: Unit::Millimetre,
        mass: 0,
    };
    let mut memory = [blank; 1024];
    let room = room_for(space);
    forms_told::<S, Card>(bytes, jobs, &mut memory[..room], space)
}

// The same of an archive of items.
fn items<S: Stamp>(bytes: &[u8], jobs: usize, space: &mut [u8]) -> Result<(), Fault>
    ensures answer { result ≡ answered (forms_told S.Stamp.kind.order item_kind bytes.now (length space.old) jobs) }
    ensures leaves { space.new ≡ left_behind (forms_told S.Stamp.kind.order item_kind bytes.now (length space.old) jobs) space.old }
{
    let mut memory = [Item::Withdrawn; 1024];
    let room = room_for(space);
    forms_told::<S, Item>(bytes, jobs, &mut memory[..room], space)
}

// Leaves in a space the written forms of the values that stand after the first jobs of an archive, so many of them,
// 12 bytes for each record. The archive is right but for its play. At a fault the space stays as it was.
pub fn play_forms(bytes: &[u8], jobs: usize, space: &mut [u8]) -> Result<(), Fault>
    ensures answer { result ≡ answered (forms_named bytes.now (length space.old) jobs) }
    ensures leaves { space.new ≡ left_behind (forms_named bytes.now (length space.old) jobs) space.old }
{
    match kinds_named(bytes) {
        Some(Kinds::WholeCards) => cards::<Whole>(bytes, jobs, space),
        Some(Kinds::WholeItems) => items::<Whole>(bytes, jobs, space),
        Some(Kinds::PageCards) => cards::<VolumePage>(bytes, jobs, space),
        Some(Kinds::PageItems) => items::<VolumePage>(bytes, jobs, space),
        None => Err(Fault::HeadingWrong),
    }
}
