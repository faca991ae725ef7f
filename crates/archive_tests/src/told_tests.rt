// The inspection by the kinds in the heading, its limit, and its lines.
use crate::answers::{Answer, is, numbered};
use crate::tables::{NO_JOB, ONE_JOB, THREE_JOBS, with};
use archive::fault::Fault;
use inspection::by_kinds::inspect_by_kinds;
use inspection::finding::{Finding, find};
use inspection::input::{inspect_input, line};
use std::alloc::Global;
use std::test::Fail;

// The answer to bytes is this one, where they are read by the kinds in their heading.
fn by_its_kinds(bytes: &[u8], expected: Answer) -> Result<(), Fail> {
    is(numbered(inspect_by_kinds(bytes)), expected, &[])
}

// Each kind that is supplied, and the numbers around them.
#[test]
fn by_kinds() -> Result<(), Fail> {
    for stamps in 0..4 {
        for values in 0..4 {
            let bytes = with(NO_JOB, &[(4, stamps), (5, values)]);
            let expected = if (1..=2).contains(&stamps) && (1..=2).contains(&values) {
                Ok(0)
            } else {
                Err((14, Some(0)))
            };
            by_its_kinds(&bytes, expected)?;
        }
    }
    by_its_kinds(&ONE_JOB, Ok(1))?;
    by_its_kinds(&THREE_JOBS, Ok(3))?;
    for length in 0..12 {
        by_its_kinds(&ONE_JOB[..length], Err((14, Some(0))))?;
    }
    Ok(())
}

// A text is this one.
fn reads(text: &str, expected: &str) -> Result<(), Fail> {
    if text == expected {
        Ok(())
    } else {
        Err(Fail::new(format_args!("{text:?}, and not {expected:?}")))
    }
}

// The line of a finding is this one.
fn has_line(heap: Global, finding: Finding, expected: &str) -> Result<(), Fail> {
    reads(line(heap, finding)?.as_str(), expected)
}

// The line of an input of these bytes is this one.
fn is_told(heap: Global, bytes: &[u8], expected: &str) -> Result<(), Fail> {
    reads(inspect_input(heap, bytes)?.as_str(), expected)
}

#[test]
fn limit(rt: HostRuntime) -> Result<(), Fail> {
    let mut bytes = ONE_JOB.to_vec(rt.alloc())?;
    bytes.resize(65_536, 0)?;
    let fault = Fault::PairWrong { place: 20 };
    assert_eq!(rt; find(&bytes), Finding::Faulty { fault });
    is_told(rt.alloc(), &bytes, "fault 15 20\n")?;
    bytes.push(0)?;
    assert_eq!(rt; find(&bytes), Finding::TooLong);
    is_told(rt.alloc(), &bytes, "too long\n")
}

#[test]
fn lines(rt: HostRuntime) -> Result<(), Fail> {
    let heap = rt.alloc();
    for (finding, expected) in [
        (Finding::Sound { jobs: 0 }, "sound 0\n"),
        (Finding::Sound { jobs: 4096 }, "sound 4096\n"),
        (
            Finding::Faulty {
                fault: Fault::HeadingWrong,
            },
            "fault 14 0\n",
        ),
        (
            Finding::Faulty {
                fault: Fault::NotBorneOut { place: 65_514 },
            },
            "fault 19 65514\n",
        ),
        (Finding::TooLong, "too long\n"),
    ] {
        has_line(heap, finding, expected)?;
    }
    is_told(heap, &ONE_JOB, "sound 1\n")?;
    is_told(heap, &NO_JOB[..11], "fault 14 0\n")
}
