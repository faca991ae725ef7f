// Why a call is not made.
ghost use Rattle.std.specs.Prelude.{◌≡◌};
ghost use Rattle.schedule_calls.specs.declared.reason.Fault.TheVariants.{NoCall, Memory};
ghost use Rattle.schedule_desk.specs.declared.failure.Failure.TheVariants.{Refused, Ended};
ghost use Rattle.schedule_desk.specs.Failures.{refusal_of};

use model::refusal::Refusal;
use schedule_calls::reason::{Fault, Reason};
use std::alloc::{AllocError, AllocFailed};

// The library refused the call, or a fault ends the run.
#[derive(Drop)]
pub enum Failure {
    Refused(Refusal),
    Ended(Fault),
}

// A derived `From` has no contract, so these are written out.
impl From<Refusal> for Failure {
    ghost from_gives = { λ refusal failure. failure ≡ Refused refusal };

    fn from(refusal: Refusal) -> Failure {
        Failure::Refused(refusal)
    }
}

impl From<Fault> for Failure {
    ghost from_gives = { λ fault failure. failure ≡ Ended fault };

    fn from(fault: Fault) -> Failure {
        Failure::Ended(fault)
    }
}

impl From<Reason> for Failure {
    ghost from_gives = { λ reason failure. failure ≡ Ended (NoCall reason) };

    fn from(reason: Reason) -> Failure {
        Failure::Ended(reason.into())
    }
}

impl From<AllocError> for Failure {
    ghost from_gives = { λ _ failure. failure ≡ Ended Memory };

    fn from(e: AllocError) -> Failure {
        Failure::Ended(e.into())
    }
}

impl<T: Drop> From<AllocFailed<T>> for Failure {
    ghost from_gives = { λ _ failure. failure ≡ Ended Memory };

    fn from(e: AllocFailed<T>) -> Failure {
        Failure::Ended(e.into())
    }
}

impl Failure {
    // The refusal, which is an answer; a fault is none.
    pub fn refusal(self) -> Result<Refusal, Fault>
        ensures { result ≡ refusal_of self }
    {
        match self {
            Failure::Refused(refusal) => Ok(refusal),
            Failure::Ended(fault) => Err(fault),
        }
    }
}
