// The refusals at the registrar, each at its bound and one step inside.
use crate::bench::Call::{Decide, Open, Publish, Submit};
use crate::states::State;
use crate::steps::Start::Founded;
use crate::steps::Step::{Answered, Holds, Refused, Set, Tells, Times};
use crate::steps::{Told, play};
use model::refusal::Refusal;
use std::test::Fail;

// Sixteen submissions wait at most; once one is decided, one more may wait. When all are decided, none waits.
#[test]
fn queues(rt: HostRuntime) -> Result<(), Fail> {
    play(
        rt.alloc(),
        Founded(32),
        &[
            Refused(Decide, Refusal::NoneWaiting),
            Times(16, Submit),
            Refused(Submit, Refusal::QueueFull),
            Answered(Decide),
            Answered(Submit),
            Refused(Submit, Refusal::QueueFull),
            Times(16, Decide),
            Refused(Decide, Refusal::NoneWaiting),
        ],
    )
}

// A journal of two places takes two accepted jobs; of a job without room between its bounds no place is the
// verdict, and no entry in the journal. Then no verdict is given, whatever it would be.
#[test]
fn journals(rt: HostRuntime) -> Result<(), Fail> {
    play(
        rt.alloc(),
        Founded(2),
        &[
            Answered(Submit),
            Set(State::NoRoom),
            Answered(Submit),
            Set(State::Room),
            Answered(Submit),
            Set(State::NoRoom),
            Answered(Submit),
            Answered(Decide),
            Holds(State::Jobs(1)),
            Answered(Decide),
            Holds(State::Jobs(1)),
            Answered(Decide),
            Holds(State::Jobs(2)),
            Refused(Decide, Refusal::JournalFull),
            Answered(Publish),
            Refused(Decide, Refusal::JournalFull),
        ],
    )
}

// There are 32 outcomes from one image to the next, here of jobs with room and without it in turn. Then no
// verdict is given, whatever it would be.
#[test]
fn outcomes(rt: HostRuntime) -> Result<(), Fail> {
    let mut steps = Vec::new(rt.alloc());
    for _ in 0..16 {
        steps.extend_from_slice(&[
            Set(State::Room),
            Answered(Submit),
            Answered(Decide),
            Set(State::NoRoom),
            Answered(Submit),
            Answered(Decide),
        ])?;
    }
    steps.extend_from_slice(&[
        Answered(Submit),
        Refused(Decide, Refusal::OutcomesFull),
        Answered(Publish),
        Holds(State::ImageOutcomes(32)),
        Answered(Decide),
    ])?;
    play(rt.alloc(), Founded(32), &steps)
}

const LAST_NUMBER: u32 = 4_294_967_295;

// The last ticket is given, and the last image is published; the next ones are refused.
#[test]
fn last_numbers(rt: HostRuntime) -> Result<(), Fail> {
    play(
        rt.alloc(),
        Founded(1),
        &[
            Set(State::Tickets(LAST_NUMBER - 2)),
            Set(State::Cycle(LAST_NUMBER - 2)),
            Tells(Told::Submits(LAST_NUMBER - 1)),
            Tells(Told::Publishes(LAST_NUMBER - 1)),
            Tells(Told::Submits(LAST_NUMBER)),
            Tells(Told::Publishes(LAST_NUMBER)),
            Refused(Submit, Refusal::CountEnded),
            Refused(Publish, Refusal::CountEnded),
            Answered(Decide),
            Answered(Open),
        ],
    )
}
