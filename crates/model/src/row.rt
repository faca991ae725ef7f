// Register rows.

// A record of the register: its value, its read stamp, and its latest write stamps, at most four, in
// rising order. The fields one to four hold the first `count` of them; the last of these is the write
// stamp. A count of 0 counts as 1, and one above 4 as 4. Four fields and a count stand here in place of a
// `Vec`, since rows lie in tables that callers bring, and no call allocates.
#[derive(Clone, Copy)]
pub struct Row<S, R> {
    pub value: R,
    pub read: S,
    pub count: usize,
    pub one: S,
    pub two: S,
    pub three: S,
    pub four: S,
}
