// A schedule's printout against what it should be. Another crate of tests says so of the run on kinds alone.
use schedule_session::run::run;
use schedule_text::run::Stopped;
use std::alloc::Global;
use std::test::Fail;

// A schedule that runs to its end prints this.
pub fn prints(heap: Global, input: &str, text: &str) -> Result<(), Fail> {
    Ok(run(heap, input.as_bytes())?.is(text, Ok(()))?)
}

// A schedule that runs to its end prints this last.
pub fn ends(heap: Global, input: &str, text: &str) -> Result<(), Fail> {
    Ok(run(heap, input.as_bytes())?.ends(text, Ok(()))?)
}

// A schedule that ends at a line that is no call prints this last.
pub fn stops(heap: Global, input: &str, at: usize, text: &str) -> Result<(), Fail> {
    Ok(run(heap, input.as_bytes())?.ends(text, Err(Stopped { line: at }))?)
}
