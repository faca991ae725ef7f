// The worked cases, as one theorem about the definitions.
ghost use Rattle.cases.specs.Cases.{WorkedCases};

// Picks at and around the bounds for both stamp kinds, written forms, runs that show each verdict, lengths of
// blocks, and the archive of a small register, byte for byte.
pub fn worked_cases()
    ensures { WorkedCases }
{}
