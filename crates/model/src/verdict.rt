// Verdicts and outcomes.

// What the registrar decides on a submission. An accepted job has its stamp. The three others are verdicts
// and no errors, so this is no `Result`.
#[derive(Clone, Copy)]
pub enum Verdict<S> {
    Accepted { stamp: S },
    Overtaken,
    Gone,
    NoPlace,
}

// The verdict on a ticket, as the next image carries it.
#[derive(Clone, Copy)]
pub struct Outcome<S> {
    pub ticket: u32,
    pub verdict: Verdict<S>,
}
