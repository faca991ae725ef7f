// What is told of the example archive: two cards, and one job that saw record 0 and put a card there.
use archive::fault::Fault;
use archive_view::forms::play_forms;
use archive_view::jobs::{read_job, read_look, read_put};
use archive_view::sizes::{Sizes, read_sizes};

const EXAMPLE: [u8; 104] = [
    0x41, 0x53, 0x4a, 0x31, 0x01, 0x01, 0x00, 0x02, 0x00, 0x00, 0x00, 0x01, 0x00, 0x00, 0x00, 0x1c,
    0x00, 0x00, 0x00, 0x18, 0x00, 0x00, 0x00, 0x34, 0x00, 0x00, 0x00, 0x34, 0x00, 0x00, 0x00, 0x01,
    0x00, 0x00, 0x00, 0x00, 0x00, 0x00, 0x00, 0x0a, 0x00, 0x00, 0x00, 0x02, 0x01, 0x00, 0x00, 0x00,
    0x00, 0x00, 0x00, 0x14, 0x00, 0x00, 0x00, 0x00, 0x00, 0x01, 0x00, 0x00, 0x00, 0x00, 0x00, 0x01,
    0x01, 0x01, 0x00, 0x00, 0x00, 0x00, 0x00, 0x00, 0x00, 0x00, 0x00, 0x00, 0x00, 0x00, 0x00, 0x00,
    0x00, 0x01, 0x00, 0x00, 0x00, 0x00, 0x00, 0x00, 0x00, 0x0a, 0x00, 0x00, 0x00, 0x00, 0x00, 0x07,
    0x00, 0x00, 0x00, 0x00, 0x00, 0x00, 0x00, 0x0b,
];

#[test]
fn sizes_of_the_example(rt: HostRuntime) {
    assert!(rt;
        matches!(
            read_sizes(&EXAMPLE),
            Ok(Sizes {
                stamp_kind: 1,
                record_kind: 1,
                records: 2,
                jobs: 1
            })
        )
    );
    assert!(rt;
        matches!(
            read_sizes(&EXAMPLE[..103]),
            Err(Fault::PairWrong { place: 20 })
        )
    );
}

#[test]
fn job_of_the_example(rt: HostRuntime) {
    let told = read_job(&EXAMPLE, 0);
    assert!(rt; told.is_ok());
    if let Ok(job) = told {
        let stamp = job.stamp;
        assert!(rt; stamp == [0, 0, 0, 0, 0, 1, 0, 0]);
        assert_eq!(rt; job.ticket, 1);
        assert_eq!(rt; job.looks, 1);
        assert_eq!(rt; job.puts, 1);
    }
    assert!(rt; matches!(read_job(&EXAMPLE, 1), Err(Fault::SpaceWrong)));
}

#[test]
fn look_of_the_example(rt: HostRuntime) {
    let told = read_look(&EXAMPLE, 0, 0);
    assert!(rt; told.is_ok());
    if let Ok(look) = told {
        let stamp = look.stamp;
        let value = look.value;
        assert_eq!(rt; look.number, 0);
        assert!(rt; stamp == [0; 8]);
        assert!(rt; value == [0, 0, 0, 1, 0, 0, 0, 0, 0, 0, 0, 10]);
    }
    assert!(rt; matches!(read_look(&EXAMPLE, 0, 1), Err(Fault::SpaceWrong)));
}

#[test]
fn put_of_the_example(rt: HostRuntime) {
    let told = read_put(&EXAMPLE, 0, 0);
    assert!(rt; told.is_ok());
    if let Ok(put) = told {
        let value = put.value;
        assert_eq!(rt; put.number, 0);
        assert!(rt; value == [0, 0, 0, 7, 0, 0, 0, 0, 0, 0, 0, 11]);
    }
    assert!(rt; matches!(read_put(&EXAMPLE, 1, 0), Err(Fault::SpaceWrong)));
}

// A refused call leaves the space as it was.
#[test]
fn play_of_the_example(rt: HostRuntime) {
    let mut space = [9; 24];
    assert!(rt; matches!(play_forms(&EXAMPLE, 2, &mut space), Err(Fault::SpaceWrong)));
    assert!(rt;
        matches!(
            play_forms(&EXAMPLE, 1, &mut space[..23]),
            Err(Fault::SpaceWrong)
        )
    );
    assert!(rt; space == [9; 24]);
    assert!(rt; play_forms(&EXAMPLE, 0, &mut space).is_ok());
    assert!(rt; space.as_slice() == &EXAMPLE[28..52]);
    assert!(rt; play_forms(&EXAMPLE, 1, &mut space).is_ok());
    assert!(rt; &space[..12] == &EXAMPLE[92..]);
    assert!(rt; &space[12..] == &EXAMPLE[40..52]);
}
