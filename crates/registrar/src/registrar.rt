// The registrar.

// The registrar's own numbers. Its tables are handed in at each call: rows, first writes and opening
// values, one for each record; 16 submissions with 16 entries each; 32 outcomes; and the journal's
// heads with 16 lines for each.
#[derive(Clone, Copy, Debug, PartialEq, Eq)]
pub struct Registrar {
    pub records: usize,
    pub cycle: u32,
    pub tickets: u32,
    pub oldest: usize,
    pub waiting: usize,
    pub outcomes: usize,
    pub jobs: usize,
}
