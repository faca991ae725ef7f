// The play: the values after each number of jobs, and what is refused.
use crate::answers::numbered;
use crate::tables::{THREE_JOBS, with};
use archive::play::play;
use kinds::item::Item;
use kinds::value::Record;
use kinds::volume::VolumePage;
use std::test::Fail;

// What the space holds before each play.
const BEFORE: Item = Item::Solid { shape: 999 };

// The space holds these values.
fn holds(space: &[Item], values: &[Item]) -> Result<(), Fail> {
    if space.len() != values.len() {
        return Err(Fail::new("there are more or fewer values"));
    }
    for (value, other) in space.iter().zip(values) {
        if value.to_bytes() != other.to_bytes() {
            return Err(Fail::new("another value"));
        }
    }
    Ok(())
}

// A play of so many jobs leaves these values.
fn leaves(bytes: &[u8], jobs: usize, values: &[Item; 3]) -> Result<(), Fail> {
    let mut space = [BEFORE; 3];
    play::<VolumePage, Item>(bytes, jobs, &mut space)?;
    holds(&space, values)
}

// A play of so many jobs into a space of this size has this fault, by its number and its place, and the space
// stays.
fn stays(bytes: &[u8], jobs: usize, size: usize, fault: (u8, Option<usize>)) -> Result<(), Fail> {
    let mut space = [BEFORE; 5];
    let answer = match space.get_mut(..size) {
        Some(space) => numbered(play::<VolumePage, Item>(bytes, jobs, space)),
        None => Ok(()),
    };
    if answer != Err(fault) {
        return Err(Fail::new(format_args!(
            "{size} places and {jobs} jobs give {answer:?}, and not {fault:?}"
        )));
    }
    holds(&space, &[BEFORE; 5])
}

// After no job the opening values, and after each job its puts too.
#[test]
fn plays() -> Result<(), Fail> {
    let opening = [
        Item::Withdrawn,
        Item::Solid { shape: 77 },
        Item::SubAssembly { part: 12, count: 4 },
    ];
    let once = [opening[0], opening[1], Item::Solid { shape: 5 }];
    let twice = [
        Item::SubAssembly { part: 1, count: 2 },
        Item::Withdrawn,
        Item::Solid { shape: 5 },
    ];
    for (jobs, values) in [(0, opening), (1, once), (2, twice), (3, twice)] {
        leaves(&THREE_JOBS, jobs, &values)?;
    }
    Ok(())
}

// A space that is too short or too long, and more jobs than there are: 18, and the space stays.
#[test]
fn refused() -> Result<(), Fail> {
    for size in 0..5 {
        for jobs in 0..6 {
            if size == 3 && jobs <= 3 {
                continue;
            }
            stays(&THREE_JOBS, jobs, size, (18, None))?;
        }
    }
    Ok(())
}

// The archive's faults come before 18, and the space stays.
#[test]
fn faults() -> Result<(), Fail> {
    for (at, byte, number, place) in [
        (0, 0, 14, 0),
        (43, 0, 15, 36),
        (68, 3, 17, 68),
        (213, 1, 16, 198),
        (224, 3, 17, 224),
    ] {
        let bytes = with(THREE_JOBS, &[(at, byte)]);
        for size in 0..5 {
            stays(&bytes, 3, size, (number, Some(place)))?;
        }
    }
    Ok(())
}

// A look that is not borne out stops no play.
#[test]
fn looks_are_not_played() -> Result<(), Fail> {
    let bytes = with(THREE_JOBS, &[(106, 1), (231, 6)]);
    leaves(
        &bytes,
        0,
        &[
            Item::Withdrawn,
            Item::Solid { shape: 77 },
            Item::SubAssembly { part: 12, count: 4 },
        ],
    )
}
