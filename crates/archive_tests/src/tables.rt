// The archives that are damaged.

// No job. Each kind has its value.
pub const NO_JOB: [u8; 32] = [
    // The heading: mark, kinds 1 and 1, 1 record, no job.
    b'A', b'S', b'J', b'1', 1, 1, 0, 1, 0, 0, 0, 0,
    // 12: the pair of the opening values.
    0, 0, 0, 20, 0, 0, 0, 12,
    // 20: a value of zeros, which is a card and an item.
    0, 0, 0, 0, 0, 0, 0, 0, 0, 0, 0, 0,
];

// One job, which looks at record 0 and puts it: whole stamps and cards.
pub const ONE_JOB: [u8; 104] = [
    // The heading: mark, kinds 1 and 1, 2 records, 1 job.
    b'A', b'S', b'J', b'1', 1, 1, 0, 2, 0, 0, 0, 1,
    // 12: the pairs of the opening values and of the block.
    0, 0, 0, 28, 0, 0, 0, 24, 0, 0, 0, 52, 0, 0, 0, 52,
    // 28: revision 1, mm, 10 g; revision 2, cm, 20 g.
    0, 0, 0, 1, 0, 0, 0, 0, 0, 0, 0, 10, 0, 0, 0, 2, 1, 0, 0, 0, 0, 0, 0, 20,
    // 52: the block, under 65,536, ticket 1, with one look and one put.
    0, 0, 0, 0, 0, 1, 0, 0, 0, 0, 0, 1, 1, 1, 0, 0,
    // 68: a look at record 0.
    0, 0, 0, 0, 0, 0, 0, 0, 0, 0, 0, 0, 0, 1, 0, 0, 0, 0, 0, 0, 0, 10,
    // 90: a put of record 0.
    0, 0, 0, 0, 0, 7, 0, 0, 0, 0, 0, 0, 0, 11,
];

// Three jobs: stamps of volume and page, and items.
pub const THREE_JOBS: [u8; 236] = [
    // The heading: mark, kinds 2 and 2, 3 records, 3 jobs.
    b'A', b'S', b'J', b'1', 2, 2, 0, 3, 0, 0, 0, 3,
    // 12: the pairs of the opening values and of three blocks.
    0, 0, 0, 44, 0, 0, 0, 36, 0, 0, 0, 80, 0, 0, 0, 74, 0, 0, 0, 154, 0, 0, 0, 44, 0, 0, 0, 198, 0,
    0, 0, 38,
    // 44: withdrawn, solid 77, and record 12 four times.
    0, 0, 0, 0, 0, 0, 0, 0, 0, 0, 0, 0, 1, 0, 0, 0, 0, 0, 0, 77, 0, 0, 0, 0, 2, 0, 0, 0, 0, 12, 0,
    4, 0, 0, 0, 0,
    // 80: a block under 1/0, ticket 1, with two looks and one put.
    0, 0, 0, 1, 0, 0, 0, 0, 0, 0, 0, 1, 2, 1, 0, 0,
    // 96: looks at records 0 and 1.
    0, 0, 0, 0, 0, 0, 0, 0, 0, 0, 0, 0, 0, 0, 0, 0, 0, 0, 0, 0, 0, 0, 0, 1, 0, 0, 0, 0, 0, 0, 0, 0,
    1, 0, 0, 0, 0, 0, 0, 77, 0, 0, 0, 0,
    // 140: a put of record 2.
    0, 2, 1, 0, 0, 0, 0, 0, 0, 5, 0, 0, 0, 0,
    // 154: a block under the same stamp, with the last ticket and two puts.
    0, 0, 0, 1, 0, 0, 0, 0, 255, 255, 255, 255, 0, 2, 0, 0,
    // 170: puts of records 0 and 1.
    0, 0, 2, 0, 0, 0, 0, 1, 0, 2, 0, 0, 0, 0, 0, 1, 0, 0, 0, 0, 0, 0, 0, 0, 0, 0, 0, 0,
    // 198: a block under 9,999/9,999, ticket 3, with one look, at record 2.
    0, 0, 39, 15, 0, 0, 39, 15, 0, 0, 0, 3, 1, 0, 0, 0, 0, 2, 0, 0, 0, 1, 0, 0, 0, 0, 1, 0, 0, 0,
    0, 0, 0, 5, 0, 0, 0, 0,
];

// One job with 16 looks and 16 puts of the same records, of 17: whole stamps and cards of zeros. Its block starts
// at 232, its looks at 248, and its puts at 600.
pub fn widest() -> [u8; 824] {
    let mut bytes = with(
        [0; 824],
        &[
            (0, b'A'),
            (1, b'S'),
            (2, b'J'),
            (3, b'1'),
            (4, 1),
            (5, 1),
            (7, 17),
            (11, 1),
            (15, 28),
            (19, 204),
            (23, 232),
            (26, 2),
            (27, 80),
            (239, 1),
            (243, 1),
            (244, 16),
            (245, 16),
        ],
    );
    for i in 0..16u8 {
        bytes[249 + 22 * usize::from(i)] = i;
        bytes[601 + 14 * usize::from(i)] = i;
    }
    bytes
}

// An archive with other bytes at some places.
pub fn with<const N: usize>(archive: [u8; N], changes: &[(usize, u8)]) -> [u8; N] {
    let mut bytes = archive;
    for (at, byte) in changes {
        if *at < N {
            bytes[*at] = *byte;
        }
    }
    bytes
}
