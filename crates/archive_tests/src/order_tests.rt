// Two faults in one archive: the one that is read first is answered.
use crate::answers::three_jobs;
use std::test::Fail;

// Heading, pairs, opening values, the blocks in turn with all of a block's 16 before its first 17, looks before
// puts, and then the play.
#[test]
fn first_fault() -> Result<(), Fail> {
    for (one, other, number, place) in [
        ((3, 0), (15, 0), 14, 0),
        ((15, 0), (43, 0), 15, 12),
        ((43, 0), (44, 3), 15, 36),
        ((44, 3), (68, 3), 17, 44),
        ((68, 3), (94, 1), 17, 68),
        ((94, 1), (168, 1), 16, 80),
        ((106, 3), (141, 3), 16, 80),
        ((106, 3), (168, 1), 17, 106),
        ((128, 3), (142, 3), 17, 128),
        ((142, 3), (213, 1), 17, 142),
        ((106, 1), (213, 1), 16, 198),
        ((106, 1), (224, 3), 17, 224),
        ((106, 1), (231, 6), 19, 96),
        ((135, 78), (223, 1), 19, 118),
    ] {
        three_jobs(&[one, other], Err((number, Some(place))))?;
    }
    Ok(())
}
