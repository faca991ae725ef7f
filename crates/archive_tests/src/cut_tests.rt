// Archives that are cut off, and archives with bytes left over.
use crate::answers::{paged_items, whole_cards};
use crate::tables::{NO_JOB, ONE_JOB, THREE_JOBS};
use std::test::Fail;

// The fault of each cut. A cut heading is 14. Behind it the first pair whose part is cut is 15: that of the opening
// values for each cut before their end, the directory's too.
fn cut(length: usize, ends: &[usize]) -> (u8, Option<usize>) {
    if length < 12 {
        return (14, Some(0));
    }
    let whole = ends.iter().filter(|end| **end <= length).count();
    (15, Some(whole.saturating_mul(8).saturating_add(12)))
}

#[test]
fn cuts() -> Result<(), Fail> {
    for length in 0..32 {
        whole_cards(&NO_JOB[..length], Err(cut(length, &[32])))?;
    }
    for length in 0..104 {
        whole_cards(&ONE_JOB[..length], Err(cut(length, &[52, 104])))?;
    }
    for length in 0..236 {
        let ends = [80, 154, 198, 236];
        paged_items(&THREE_JOBS[..length], Err(cut(length, &ends)))?;
    }
    Ok(())
}

// Bytes left over count against the last pair.
#[test]
fn left_over(rt: HostRuntime) -> Result<(), Fail> {
    for more in [1, 12, 100] {
        let mut bytes = NO_JOB.to_vec(rt.alloc())?;
        bytes.resize(32 + more, 0)?;
        whole_cards(&bytes, Err((15, Some(12))))?;
        let mut bytes = THREE_JOBS.to_vec(rt.alloc())?;
        bytes.resize(236 + more, 0)?;
        paged_items(&bytes, Err((15, Some(36))))?;
    }
    Ok(())
}
