// The order of a call's checks: all its refusals apply at first, and are mended one by one.
use crate::bench::Call::{Decide, Look, Open, Publish, Put, Submit, Tune};
use crate::states::Listed::Untouched;
use crate::states::State;
use crate::steps::Start::Founded;
use crate::steps::Step::{Answered, BothRefused, Lengthen, Refused, Set, Shorten};
use crate::steps::{Table, play};
use model::refusal::Refusal;
use station::job::Standing;
use std::test::Fail;

// 1, 2, 3, 5, 6, 7. The 16 entries of the sheet are for record 0.
#[test]
fn looks_and_puts(rt: HostRuntime) -> Result<(), Fail> {
    play(
        rt.alloc(),
        Founded(2),
        &[
            Shorten(Table::Sheet),
            Set(State::Standing(Standing::Shut)),
            Set(State::Entries(16)),
            Set(State::NoRoom),
            Set(State::Image(2)),
            BothRefused(2, Refusal::WrongTables),
            Lengthen(Table::Sheet),
            BothRefused(2, Refusal::JobShut),
            Set(State::Standing(Standing::Live)),
            BothRefused(2, Refusal::OtherImage),
            Set(State::Image(1)),
            BothRefused(2, Refusal::NoSuchRecord),
            BothRefused(1, Refusal::SheetFull),
            Set(State::Entries(15)),
            BothRefused(1, Refusal::NoRoom),
            Set(State::Room),
            Answered(Look(1)),
            Answered(Put(1)),
        ],
    )
}

// On a full sheet without room: a put of a record that is seen has new bounds, but no new entry; what is
// repeated has neither.
#[test]
fn again(rt: HostRuntime) -> Result<(), Fail> {
    play(
        rt.alloc(),
        Founded(2),
        &[
            Answered(Look(1)),
            Set(State::Entries(16)),
            Set(State::NoRoom),
            Answered(Look(1)),
            Refused(Put(1), Refusal::NoRoom),
            Set(State::Room),
            Answered(Put(1)),
            Set(State::NoRoom),
            Answered(Put(1)),
            Answered(Look(1)),
        ],
    )
}

// 1, 2, 4, 5.
#[test]
fn tunes(rt: HostRuntime) -> Result<(), Fail> {
    play(
        rt.alloc(),
        Founded(2),
        &[
            Set(State::Sheet(0, Untouched(2))),
            Set(State::Entries(1)),
            Set(State::Standing(Standing::Shut)),
            Shorten(Table::Sheet),
            Refused(Tune, Refusal::WrongTables),
            Lengthen(Table::Sheet),
            Refused(Tune, Refusal::JobShut),
            Set(State::Standing(Standing::Live)),
            Refused(Tune, Refusal::NotNextImage),
            Set(State::Image(2)),
            Refused(Tune, Refusal::NoSuchRecord),
            Set(State::Sheet(0, Untouched(1))),
            Answered(Tune),
        ],
    )
}

// 1, 2, 5, 8, 13.
#[test]
fn submits(rt: HostRuntime) -> Result<(), Fail> {
    play(
        rt.alloc(),
        Founded(2),
        &[
            Set(State::Sheet(0, Untouched(2))),
            Set(State::Entries(1)),
            Set(State::Standing(Standing::Shut)),
            Set(State::Waiting(16)),
            Set(State::Tickets(4_294_967_295)),
            Shorten(Table::Sheet),
            Refused(Submit, Refusal::WrongTables),
            Lengthen(Table::Sheet),
            Refused(Submit, Refusal::JobShut),
            Set(State::Standing(Standing::Live)),
            Refused(Submit, Refusal::NoSuchRecord),
            Set(State::Sheet(0, Untouched(1))),
            Refused(Submit, Refusal::QueueFull),
            Set(State::Waiting(15)),
            Refused(Submit, Refusal::CountEnded),
            Set(State::Tickets(4_294_967_294)),
            Answered(Submit),
        ],
    )
}

// 1, 9, 5, 10, 11: where none waits, no record is asked for. Place 16 of the queue counts as place 0.
#[test]
fn decides(rt: HostRuntime) -> Result<(), Fail> {
    play(
        rt.alloc(),
        Founded(1),
        &[
            Set(State::Submission(0, 7, 1)),
            Set(State::Queued(0, Untouched(2))),
            Set(State::Oldest(16)),
            Set(State::Jobs(1)),
            Set(State::Outcomes(32)),
            Shorten(Table::Outcomes),
            Refused(Decide, Refusal::WrongTables),
            Set(State::Waiting(1)),
            Refused(Decide, Refusal::WrongTables),
            Lengthen(Table::Outcomes),
            Set(State::Waiting(0)),
            Refused(Decide, Refusal::NoneWaiting),
            Set(State::Waiting(1)),
            Refused(Decide, Refusal::NoSuchRecord),
            Set(State::Queued(0, Untouched(1))),
            Refused(Decide, Refusal::JournalFull),
            Set(State::Jobs(0)),
            Refused(Decide, Refusal::OutcomesFull),
            Set(State::Outcomes(31)),
            Answered(Decide),
        ],
    )
}

// Open: 1, 3. Publish: 1, 13, with a put value, its first write and an outcome to be shown.
#[test]
fn images(rt: HostRuntime) -> Result<(), Fail> {
    play(
        rt.alloc(),
        Founded(2),
        &[
            Answered(Put(1)),
            Answered(Submit),
            Answered(Decide),
            Shorten(Table::ImageOutcomes),
            Set(State::Image(0)),
            Set(State::Cycle(4_294_967_295)),
            Refused(Open, Refusal::WrongTables),
            Refused(Publish, Refusal::WrongTables),
            Lengthen(Table::ImageOutcomes),
            Refused(Open, Refusal::OtherImage),
            Refused(Publish, Refusal::CountEnded),
            Set(State::Cycle(4_294_967_294)),
            Answered(Publish),
            Answered(Open),
        ],
    )
}
