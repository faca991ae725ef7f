// What the functions answer: plain structs, as a C compiler lays them out.
ghost use Rattle.std.specs.Prelude.{◌≡◌};
ghost use Rattle.archive_c.specs.Answers.{refused};

use archive::fault::Fault;

// Number 0 where a call is done, else the number of the refusal and its place, which is 0 where it has none.
#[repr(C)]
#[derive(Clone, Copy)]
pub struct Answer {
    pub number: u8,
    pub place: usize,
}

// The number of jobs of an archive that was inspected.
#[repr(C)]
#[derive(Clone, Copy)]
pub struct Inspected {
    pub answer: Answer,
    pub jobs: usize,
}

// The numbers of both kinds, that of records and that of jobs.
#[repr(C)]
#[derive(Clone, Copy)]
pub struct Sizes {
    pub answer: Answer,
    pub stamp_kind: u8,
    pub record_kind: u8,
    pub records: usize,
    pub jobs: usize,
}

// A job: the written form of its stamp, its ticket, and how many looks and puts it has.
#[repr(C)]
#[derive(Clone, Copy)]
pub struct Job {
    pub answer: Answer,
    pub stamp: [u8; 8],
    pub ticket: u32,
    pub looks: usize,
    pub puts: usize,
}

// A noted look: the record, and the written forms of the stamp and the value that it showed.
#[repr(C)]
#[derive(Clone, Copy)]
pub struct Look {
    pub answer: Answer,
    pub number: usize,
    pub stamp: [u8; 8],
    pub value: [u8; 12],
}

// A put: the record, and the written form of the value that it got.
#[repr(C)]
#[derive(Clone, Copy)]
pub struct Put {
    pub answer: Answer,
    pub number: usize,
    pub value: [u8; 12],
}

// The answer of a call that is done.
pub const DONE: Answer = Answer {
    number: 0,
    place: 0,
};

// The answer of a refused call.
pub(crate) fn refused(fault: Fault) -> Answer
    ensures { result ≡ refused fault }
{
    Answer {
        number: u8::from(fault),
        place: fault.place().unwrap_or(0),
    }
}
