// A schedule's printout against what it should be.
use schedule_text::run::{Stopped, run};
use std::alloc::Global;
use std::test::Fail;

// A schedule that runs to its end.
pub fn prints(heap: Global, input: &str, text: &str) -> Result<(), Fail> {
    Ok(run(heap, input.as_bytes())?.is(text, Ok(()))?)
}

// A schedule that ends at a line that is no call.
pub fn stops(heap: Global, input: &str, at: usize, text: &str) -> Result<(), Fail> {
    Ok(run(heap, input.as_bytes())?.is(text, Err(Stopped { line: at }))?)
}
