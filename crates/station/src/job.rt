// Jobs.

// Whether a job may go on.
#[derive(Clone, Copy, Debug, PartialEq, Eq)]
pub enum Standing {
    Live,
    Shut,
}

// A job at its station: the image it stands at, its bounds, and how many entries its sheet has. The
// sheet is a table of 16 entries that is handed in at each call, since no call allocates; a count above
// 16 counts as 16.
#[derive(Drop)]
pub struct Job<S> {
    pub image: u32,
    pub lower: S,
    pub upper: Option<S>,
    pub standing: Standing,
    pub count: usize,
}
