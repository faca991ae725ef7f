// Counts above a table's length, and places above 15: contents that no run makes.
use crate::bench::Call::{Decide, Look, Publish, Put, Submit, Tune};
use crate::states::Listed::{Put as PutEntry, Untouched, Written};
use crate::states::State;
use crate::steps::Start::Founded;
use crate::steps::Step::{Answered, BothRefused, Entered, Holds, KeepsRows, Refused, Set, Tells};
use crate::steps::{Told, play};
use model::refusal::Refusal;
use std::alloc::Global;
use std::test::Fail;

// So many submissions wait.
fn waiting_above(heap: Global, count: usize) -> Result<(), Fail> {
    play(
        heap,
        Founded(2),
        &[
            Set(State::Waiting(count)),
            Refused(Submit, Refusal::QueueFull),
            Answered(Decide),
            Holds(State::Waiting(15)),
            Answered(Submit),
        ],
    )
}

// So many outcomes wait for the next image.
fn outcomes_above(heap: Global, count: usize) -> Result<(), Fail> {
    play(
        heap,
        Founded(2),
        &[
            Set(State::Outcomes(count)),
            Answered(Submit),
            Refused(Decide, Refusal::OutcomesFull),
            Answered(Publish),
            Holds(State::ImageOutcomes(32)),
            Holds(State::Outcomes(0)),
            Answered(Decide),
        ],
    )
}

// A journal of a single place has so many jobs.
fn jobs_above(heap: Global, count: usize) -> Result<(), Fail> {
    play(
        heap,
        Founded(1),
        &[
            Set(State::Jobs(count)),
            Answered(Submit),
            Refused(Decide, Refusal::JournalFull),
        ],
    )
}

// A job has so many entries on its sheet, each for record 0, and neither seen nor put.
fn entries_above(heap: Global, count: usize) -> Result<(), Fail> {
    play(
        heap,
        Founded(2),
        &[
            Set(State::Entries(count)),
            BothRefused(1, Refusal::SheetFull),
            Set(State::Sheet(15, Untouched(1))),
            Answered(Look(1)),
            Answered(Put(1)),
            Answered(Submit),
            Holds(State::Submission(0, 1, 16)),
            Holds(State::Queued(15, PutEntry(1))),
            Answered(Publish),
            Answered(Tune),
        ],
    )
}

// The oldest submission has so many entries, each neither seen nor put: it is accepted and alters no row.
fn queued_above(heap: Global, count: usize) -> Result<(), Fail> {
    play(
        heap,
        Founded(2),
        &[
            Set(State::Submission(0, 9, count)),
            Set(State::Waiting(1)),
            KeepsRows(Decide),
            Entered(9, 16),
        ],
    )
}

// Each of them counts as the length of its table.
#[test]
fn counts(rt: HostRuntime) -> Result<(), Fail> {
    let heap = rt.alloc();
    for count in [16, 17, usize::MAX] {
        waiting_above(heap, count)?;
        entries_above(heap, count)?;
        queued_above(heap, count)?;
    }
    for count in [32, 33, usize::MAX] {
        outcomes_above(heap, count)?;
    }
    for count in [1, 2, usize::MAX] {
        jobs_above(heap, count)?;
    }
    Ok(())
}

// Submissions wait from a place on, so many; where the next one goes, and which one is decided, and what the
// oldest place is then. A place above 15 counts modulo 16: 2^64 - 1 as 15.
#[test]
fn places_of_the_queue(rt: HostRuntime) -> Result<(), Fail> {
    for (oldest, waiting, [next, decided, then]) in [
        (0, 0, [0, 0, 1]),
        (0, 15, [15, 0, 1]),
        (15, 1, [0, 15, 0]),
        (16, 0, [0, 0, 1]),
        (31, 1, [0, 15, 0]),
        (31, 15, [14, 15, 0]),
        (usize::MAX, 0, [15, 15, 0]),
        (usize::MAX, 1, [0, 15, 0]),
    ] {
        play(
            rt.alloc(),
            Founded(2),
            &[
                Set(State::Oldest(oldest)),
                Set(State::Waiting(waiting)),
                Set(State::Tickets(6)),
                Answered(Submit),
                Holds(State::Oldest(oldest)),
                Holds(State::Submission(next, 7, 0)),
                Set(State::Submission(decided, 5, 0)),
                Tells(Told::Decides(5)),
                Holds(State::Oldest(then)),
                Holds(State::Waiting(waiting)),
            ],
        )?;
    }
    Ok(())
}

// A record that stands twice on a sheet is found at its first entry; one that is neither seen nor put is
// answered by its value seen.
#[test]
fn twice_on_a_sheet(rt: HostRuntime) -> Result<(), Fail> {
    play(
        rt.alloc(),
        Founded(2),
        &[
            Set(State::Sheet(0, Written(1))),
            Set(State::Sheet(1, PutEntry(1))),
            Set(State::Entries(2)),
            Tells(Told::LooksOld(1)),
            Answered(Put(1)),
            Tells(Told::LooksNew(1)),
            Holds(State::Sheet(1, PutEntry(1))),
        ],
    )
}
