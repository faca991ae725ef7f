// One byte of an archive changed: every place, and every other byte there.
use crate::answers::one_job;
use crate::tables::ONE_JOB;
use std::test::Fail;

// From a place up to another, and from a byte to another, and what is answered where such a byte stands in place of
// another.
type Change = (usize, usize, u8, u8, Result<usize, (u8, usize)>);

// How many changes there are, each of which is answered so.
fn answered(changes: &[Change]) -> Result<u32, Fail> {
    let mut tried = 0u32;
    for (from, to, low, high, expected) in changes {
        for at in *from..*to {
            for byte in *low..=*high {
                if ONE_JOB.get(at) != Some(&byte) {
                    tried = tried.wrapping_add(1);
                    let expected = expected.map_err(|(number, place)| (number, Some(place)));
                    one_job(&[(at, byte)], expected)?;
                }
            }
        }
    }
    Ok(tried)
}

// Mark, kinds, number of records and number of jobs.
fn heading() -> Result<u32, Fail> {
    answered(&[
        (0, 6, 0, 255, Err((14, 0))),
        (6, 7, 1, 3, Err((15, 12))),
        (6, 7, 4, 255, Err((14, 0))),
        (7, 8, 0, 0, Err((14, 0))),
        (7, 8, 1, 255, Err((15, 12))),
        (8, 10, 1, 255, Err((14, 0))),
        (10, 11, 1, 15, Err((15, 12))),
        (10, 11, 16, 255, Err((14, 0))),
        (11, 12, 0, 255, Err((15, 12))),
    ])
}

// The pairs.
fn pairs() -> Result<u32, Fail> {
    answered(&[
        (12, 20, 0, 255, Err((15, 12))),
        (20, 28, 0, 255, Err((15, 20))),
    ])
}

// The value of record 0, which the look shows, and that of record 1: revision, unit, zeros and mass.
fn opening_values() -> Result<u32, Fail> {
    answered(&[
        (28, 32, 0, 255, Err((19, 68))),
        (32, 33, 1, 3, Err((19, 68))),
        (32, 33, 4, 255, Err((17, 28))),
        (33, 36, 1, 255, Err((17, 28))),
        (36, 40, 0, 255, Err((19, 68))),
        (40, 44, 0, 255, Ok(1)),
        (44, 45, 0, 3, Ok(1)),
        (44, 45, 4, 255, Err((17, 40))),
        (45, 48, 1, 255, Err((17, 40))),
        (48, 52, 0, 255, Ok(1)),
    ])
}

// The stamp, the ticket, the numbers of looks and puts, and two zeros.
fn front() -> Result<u32, Fail> {
    answered(&[
        (52, 53, 1, 63, Ok(1)),
        (52, 53, 64, 255, Err((16, 52))),
        (53, 57, 1, 255, Ok(1)),
        (57, 58, 0, 0, Err((16, 52))),
        (57, 58, 2, 255, Ok(1)),
        (58, 63, 1, 255, Ok(1)),
        (63, 64, 0, 0, Err((16, 52))),
        (63, 64, 2, 255, Ok(1)),
        (64, 68, 0, 255, Err((16, 52))),
    ])
}

// The look: record, noted stamp and value.
fn look() -> Result<u32, Fail> {
    answered(&[
        (68, 69, 1, 255, Err((16, 52))),
        (69, 70, 1, 1, Err((19, 68))),
        (69, 70, 2, 255, Err((16, 52))),
        (70, 71, 1, 63, Err((19, 68))),
        (70, 71, 64, 255, Err((16, 52))),
        (71, 78, 1, 255, Err((19, 68))),
        (78, 82, 0, 255, Err((19, 68))),
        (82, 83, 1, 3, Err((19, 68))),
        (82, 83, 4, 255, Err((17, 78))),
        (83, 86, 1, 255, Err((17, 78))),
        (86, 90, 0, 255, Err((19, 68))),
    ])
}

// The put: record and value.
fn put() -> Result<u32, Fail> {
    answered(&[
        (90, 91, 1, 255, Err((16, 52))),
        (91, 92, 1, 1, Ok(1)),
        (91, 92, 2, 255, Err((16, 52))),
        (92, 96, 0, 255, Ok(1)),
        (96, 97, 1, 3, Ok(1)),
        (96, 97, 4, 255, Err((17, 92))),
        (97, 100, 1, 255, Err((17, 92))),
        (100, 104, 0, 255, Ok(1)),
    ])
}

// Each place has its 255 other bytes.
#[test]
fn one_byte(rt: HostRuntime) -> Result<(), Fail> {
    let mut tried = 0u32;
    for part in [
        heading()?,
        pairs()?,
        opening_values()?,
        front()?,
        look()?,
        put()?,
    ] {
        tried = tried.wrapping_add(part);
    }
    assert_eq!(rt; tried, 104 * 255);
    Ok(())
}
