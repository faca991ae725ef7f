// The queue of submissions.
ghost use Rattle.std.specs.Prelude.{◌≡◌, ◌+◌, ◌%◌, ◌<◌, ◌≤◌};

// A submitted job as the queue keeps it; its entries, so many, lie in a table that the caller brings.
#[derive(Clone, Copy)]
pub struct Submission<S> {
    pub ticket: u32,
    pub lower: S,
    pub upper: Option<S>,
    pub count: usize,
}

// The place behind the submissions that wait, in a ring of 16.
pub(crate) fn next_place(oldest: usize, waiting: usize) -> usize
    requires { waiting ≤ 16 }
    ensures place { result ≡ (oldest + waiting) % 16 }
    ensures within { result < 16 }
{
    (oldest % 16 + waiting) % 16
}
