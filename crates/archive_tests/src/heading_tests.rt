// Faults of the heading, the directory and the opening values, each at its first and its last place.
use crate::answers::{is, no_job, numbered, one_job, three_jobs, whole_cards, widest_job};
use crate::tables::{NO_JOB, with};
use archive::inspect::inspect;
use kinds::card::Card;
use kinds::item::Item;
use kinds::volume::VolumePage;
use kinds::whole::Whole;
use std::test::Fail;

#[test]
fn sound() -> Result<(), Fail> {
    no_job(&[], Ok(0))?;
    one_job(&[], Ok(1))?;
    three_jobs(&[], Ok(3))?;
    widest_job(&[], Ok(1))
}

// The mark, the kinds, no record, 1,025 records and 4,097 jobs; with 4,096 jobs the first pair is wrong.
#[test]
fn headings() -> Result<(), Fail> {
    for (at, byte, number, place) in [
        (0, 0x40, 14, 0),
        (3, 0x32, 14, 0),
        (4, 2, 14, 0),
        (5, 0, 14, 0),
        (7, 0, 14, 0),
        (6, 4, 14, 0),
        (6, 3, 15, 12),
        (8, 1, 14, 0),
        (10, 16, 15, 12),
        (10, 17, 14, 0),
    ] {
        no_job(&[(at, byte)], Err((number, Some(place))))?;
    }
    one_job(&[(10, 16)], Err((14, Some(0))))
}

// An archive that each kind reads, and no other kind than its own.
#[test]
fn kinds() -> Result<(), Fail> {
    for (stamps, values) in [(1, 1), (1, 2), (2, 1), (2, 2)] {
        let bytes = with(NO_JOB, &[(4, stamps), (5, values)]);
        for (answer, own) in [
            (inspect::<Whole, Card>(&bytes), (1, 1)),
            (inspect::<Whole, Item>(&bytes), (1, 2)),
            (inspect::<VolumePage, Card>(&bytes), (2, 1)),
            (inspect::<VolumePage, Item>(&bytes), (2, 2)),
        ] {
            let expected = if own == (stamps, values) {
                Ok(0)
            } else {
                Err((14, Some(0)))
            };
            is(numbered(answer), expected, &[(4, stamps), (5, values)])?;
        }
    }
    Ok(())
}

// A pair that starts elsewhere, a first pair that is not as long as the opening values, a pair that runs past the
// last byte, one that leaves a gap, and a last one that leaves bytes over.
#[test]
fn pairs() -> Result<(), Fail> {
    for (at, byte, place) in [
        (15, 43, 12),
        (15, 45, 12),
        (12, 255, 12),
        (19, 35, 12),
        (19, 37, 12),
        (16, 255, 12),
        (23, 81, 20),
        (24, 1, 20),
        (27, 157, 20),
        (27, 156, 28),
        (27, 0, 28),
        (35, 45, 36),
        (39, 197, 36),
        (39, 199, 36),
        (43, 37, 36),
        (43, 39, 36),
        (40, 255, 36),
    ] {
        three_jobs(&[(at, byte)], Err((15, Some(place))))?;
    }
    Ok(())
}

// The first and the last of the opening values: a tag of none, and a zero byte that is not zero.
#[test]
fn opening_values() -> Result<(), Fail> {
    for (at, byte, place) in [
        (44, 3, 44),
        (55, 1, 44),
        (56, 255, 56),
        (68, 3, 68),
        (75, 0, 68),
        (79, 1, 68),
    ] {
        three_jobs(&[(at, byte)], Err((17, Some(place))))?;
    }
    Ok(())
}

// 1,024 records, and one more.
#[test]
fn most_records(rt: HostRuntime) -> Result<(), Fail> {
    for (low, last, length, expected) in [
        (0, 0, 12_308, Ok(0)),
        (1, 12, 12_320, Err((14, Some(0)))),
    ] {
        let head = with(NO_JOB, &[(6, 4), (7, low), (18, 48), (19, last)]);
        let mut bytes = head.to_vec(rt.alloc())?;
        bytes.resize(length, 0)?;
        whole_cards(&bytes, expected)?;
    }
    Ok(())
}

// 4,096 jobs, all under one stamp and with one ticket, with no look and no put.
#[test]
fn most_jobs(rt: HostRuntime) -> Result<(), Fail> {
    let heap = rt.alloc();
    let mut bytes = with(NO_JOB, &[(10, 16), (14, 128)]).to_vec(heap)?;
    bytes.truncate(20);
    for job in 0..4096u32 {
        bytes.extend_from_slice(&(32_800 + 16 * job).to_be_bytes())?;
        bytes.extend_from_slice(&[0, 0, 0, 16])?;
    }
    bytes.extend_from_slice(&[0; 12])?;
    for _ in 0..4096 {
        bytes.extend_from_slice(&[0, 0, 0, 0, 0, 0, 0, 1, 0, 0, 0, 1, 0, 0, 0, 0])?;
    }
    whole_cards(&bytes, Ok(4096))
}
