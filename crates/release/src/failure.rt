// Why a release run ends early.
use archive::fault::Fault;
use model::refusal::Refusal;
use std::alloc::{AllocError, AllocFailed};
use thiserror::Error;
use writer::unwritten::Unwritten;

#[derive(Debug, Drop, Error)]
pub enum Failure {
    #[error("out of memory")]
    Memory,
    #[error("the founding is refused: {0}")]
    NotFounded(Refusal),
    #[error("the archive is not written: {0}")]
    NotWritten(Unwritten),
    #[error("the archive has a fault: {0:?}")]
    Faulty(Fault),
    #[error("the archive is sound with {sound} jobs, and the journal has {jobs}")]
    OtherCount { sound: usize, jobs: usize },
    #[error("the play does not end at the register")]
    NotAlike,
}

impl From<AllocError> for Failure {
    fn from(_: AllocError) -> Failure {
        Failure::Memory
    }
}

impl From<Unwritten> for Failure {
    fn from(why: Unwritten) -> Failure {
        Failure::NotWritten(why)
    }
}

impl From<Fault> for Failure {
    fn from(fault: Fault) -> Failure {
        Failure::Faulty(fault)
    }
}

impl<T: Drop> From<AllocFailed<T>> for Failure {
    fn from(_: AllocFailed<T>) -> Failure {
        Failure::Memory
    }
}

impl From<Refusal> for Failure {
    fn from(refusal: Refusal) -> Failure {
        Failure::NotFounded(refusal)
    }
}
