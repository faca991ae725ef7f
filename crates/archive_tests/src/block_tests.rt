// Faults of blocks and of values in them, each at its first and its last place.
use crate::answers::{one_job, paged_items, three_jobs, widest_job};
use crate::tables::{THREE_JOBS, with};
use std::test::Fail;

// A stamp that is no form, the least stamp, a stamp that falls, ticket 0, numbers of looks and of puts that are not
// those of the length, and a zero byte that is not zero.
#[test]
fn fronts() -> Result<(), Fail> {
    for (at, byte, place) in [
        (82, 40, 80),
        (205, 16, 198),
        (83, 0, 80),
        (157, 0, 154),
        (83, 2, 154),
        (91, 0, 80),
        (209, 0, 198),
        (92, 1, 80),
        (93, 2, 80),
        (92, 17, 80),
        (93, 255, 80),
        (210, 0, 198),
        (211, 1, 198),
        (94, 1, 80),
        (95, 1, 80),
        (213, 255, 198),
    ] {
        three_jobs(&[(at, byte)], Err((16, Some(place))))?;
    }
    Ok(())
}

// A whole stamp above 2^62 - 1, and the last one.
#[test]
fn whole_stamps() -> Result<(), Fail> {
    one_job(&[(52, 0x40)], Err((16, Some(52))))?;
    one_job(
        &[
            (52, 0x3f),
            (53, 255),
            (54, 255),
            (55, 255),
            (56, 255),
            (57, 255),
            (58, 255),
            (59, 255),
        ],
        Ok(1),
    )?;
    Ok(())
}

// A stamp of the last block that is before the one before it, though it is after the least.
#[test]
fn last_stamp_falls() -> Result<(), Fail> {
    three_jobs(&[(200, 0), (201, 0)], Err((16, Some(198))))
}

// Lengths that the table lacks, one more and one less than a length of it; and too few bytes for the front.
#[test]
fn lengths(rt: HostRuntime) -> Result<(), Fail> {
    three_jobs(&[(27, 75), (31, 155), (35, 43)], Err((16, Some(80))))?;
    let mut last = with(THREE_JOBS, &[(43, 39)]).to_vec(rt.alloc())?;
    last.push(0)?;
    paged_items(&last, Err((16, Some(198))))?;
    for short in 0..16u8 {
        let bytes = with(THREE_JOBS, &[(43, short)]);
        let bytes = &bytes[..198 + usize::from(short)];
        paged_items(bytes, Err((16, Some(198))))?;
    }
    Ok(())
}

// A noted stamp that is no form, a record number that is not below N, and a record twice among looks or puts.
#[test]
fn names() -> Result<(), Fail> {
    for (at, byte, place) in [
        (100, 40, 80),
        (222, 40, 198),
        (97, 3, 80),
        (96, 1, 80),
        (141, 3, 80),
        (185, 3, 154),
        (215, 3, 198),
        (119, 0, 80),
        (185, 0, 154),
    ] {
        three_jobs(&[(at, byte)], Err((16, Some(place))))?;
    }
    Ok(())
}

// Of 16 looks and 16 puts: a record twice among the first two or the last two, a number that is not below N, and 17
// records in all.
#[test]
fn most_names() -> Result<(), Fail> {
    for (at, byte) in [
        (271, 0),
        (579, 14),
        (615, 0),
        (811, 14),
        (249, 17),
        (811, 17),
        (249, 16),
        (579, 16),
        (601, 16),
        (811, 16),
    ] {
        widest_job(&[(at, byte)], Err((16, Some(232))))?;
    }
    widest_job(&[(579, 16), (811, 16)], Ok(1))
}

// Values that are no form: the first look's and the last, the first put's and the last.
#[test]
fn values() -> Result<(), Fail> {
    for (at, byte, place) in [
        (106, 3, 106),
        (117, 1, 106),
        (128, 3, 128),
        (142, 3, 142),
        (179, 0, 172),
        (186, 3, 186),
        (224, 3, 224),
        (235, 1, 224),
    ] {
        three_jobs(&[(at, byte)], Err((17, Some(place))))?;
    }
    for (at, byte, place) in [(262, 4, 258), (592, 4, 588), (606, 4, 602), (819, 1, 812)] {
        widest_job(&[(at, byte)], Err((17, Some(place))))?;
    }
    Ok(())
}

// A look that shows another value or another stamp than stands at its record: the first and the last.
#[test]
fn looks() -> Result<(), Fail> {
    for (at, byte, place) in [
        (106, 1, 96),
        (105, 1, 96),
        (135, 78, 118),
        (231, 6, 214),
        (223, 1, 214),
        (149, 6, 214),
    ] {
        three_jobs(&[(at, byte)], Err((19, Some(place))))?;
    }
    widest_job(&[(591, 1)], Err((19, Some(578))))?;
    three_jobs(&[(83, 0), (87, 1)], Err((19, Some(214))))
}
