// Faults of an archive.
ghost use Rattle.std.specs.Prelude.{◌≡◌};
ghost use Rattle.archive.specs.Faults.{fault_listed};

// What is wrong with an archive, or with the space that a call was given. A place is the first byte of
// the pair, the block, the value or the look that is named, counted from 0.
#[derive(Clone, Copy, Debug, PartialEq, Eq)]
pub enum Fault {
    HeadingWrong,
    PairWrong { place: usize },
    BlockWrong { place: usize },
    ValueWrong { place: usize },
    SpaceWrong,
    NotBorneOut { place: usize },
}

// The number of a fault. Most cases have a place, so that none has its number as its discriminant.
impl From<Fault> for u8 {
    ghost from_gives = { λ fault n. n ≡ (fault_listed fault).number };

    fn from(fault: Fault) -> u8 {
        match fault {
            Fault::HeadingWrong => 14,
            Fault::PairWrong { .. } => 15,
            Fault::BlockWrong { .. } => 16,
            Fault::ValueWrong { .. } => 17,
            Fault::SpaceWrong => 18,
            Fault::NotBorneOut { .. } => 19,
        }
    }
}

impl Fault {
    // The place of its first byte, if it stands at one.
    pub fn place(self) -> Option<usize>
        ensures { result ≡ (fault_listed self).place }
    {
        match self {
            Fault::HeadingWrong => Some(0),
            Fault::SpaceWrong => None,
            Fault::PairWrong { place }
            | Fault::BlockWrong { place }
            | Fault::ValueWrong { place }
            | Fault::NotBorneOut { place } => Some(place),
        }
    }
}
