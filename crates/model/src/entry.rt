// Entries of a job's sheet, of the queue and of the journal's lines.
ghost use Rattle.std.specs.Prelude.{◌≡◌};
ghost use Rattle.model.specs.Sheets.{beyond as some_beyond};

// One record of a job: its number, the write stamp noted, the value seen, the value put (at first the
// same), and whether it is seen, put, and open to later writes. The flags stand beside the values, in place
// of an `Option` for each, since one struct serves sheet, queue and journal, and every content of it counts.
#[derive(Clone, Copy)]
pub struct Entry<S, R> {
    pub number: usize,
    pub noted: S,
    pub saw: R,
    pub wrote: R,
    pub seen: bool,
    pub put: bool,
    pub opened: bool,
}

// Whether some entry names a record that a register of this many has not.
pub fn beyond<S: Copy, R: Copy>(entries: &[Entry<S, R>], records: usize) -> bool
    ensures { result ≡ some_beyond records entries.now }
{
    entries.iter().any(|entry| entry.number >= records)
}
