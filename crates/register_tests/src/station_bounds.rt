// The refusals at a station, each at its bound and one step inside.
use crate::bench::Call::{Decide, Found, Look, Open, Publish, Put, Submit, Tune};
use crate::bench::{Bench, Call, holds};
use crate::content::Content;
use crate::kinds_used::{CARDS, ITEMS, Values};
use crate::states::Listed::Untouched;
use crate::states::State;
use crate::steps::Start::{Founded, Tables};
use crate::steps::Step::{Answered, BothRefused, Gives, Set};
use crate::steps::play;
use kinds::stamp::Stamp;
use kinds::volume::VolumePage;
use kinds::whole::{LAST, Whole};
use model::image::ImageRow;
use model::refusal::Refusal;
use model::tables::store;
use std::alloc::Global;
use std::test::Fail;

const LAST_IMAGE: u32 = 4_294_967_295;

// A job at an image, an image of another number, and what open, look and put, and tune answer: open asks for an
// image after number 0, look and put for the job's, tune for the next one.
#[test]
fn image_numbers(rt: HostRuntime) -> Result<(), Fail> {
    let other = Err(Refusal::OtherImage);
    let not_next = Err(Refusal::NotNextImage);
    for (job, image, open, look, tune) in [
        (5, 0, other, other, not_next),
        (5, 1, Ok(()), other, not_next),
        (5, 4, Ok(()), other, not_next),
        (5, 5, Ok(()), Ok(()), not_next),
        (5, 6, Ok(()), other, Ok(())),
        (5, 7, Ok(()), other, not_next),
        (LAST_IMAGE - 1, LAST_IMAGE, Ok(()), other, Ok(())),
        (LAST_IMAGE, LAST_IMAGE, Ok(()), Ok(()), not_next),
        (LAST_IMAGE, 0, other, other, not_next),
        (LAST_IMAGE, 1, Ok(()), other, not_next),
    ] {
        for answer in [
            Gives(Open, open),
            Gives(Look(0), look),
            Gives(Put(0), look),
            Gives(Tune, tune),
        ] {
            let numbers = [Set(State::JobImage(job)), Set(State::Image(image)), answer];
            play(rt.alloc(), Founded(2), &numbers)?;
        }
    }
    Ok(())
}

// A look and a put of a record, each by a new job at a register of two.
#[test]
fn record_numbers(rt: HostRuntime) -> Result<(), Fail> {
    let no_record = Err(Refusal::NoSuchRecord);
    for (number, wanted) in [
        (0, Ok(())),
        (1, Ok(())),
        (2, no_record),
        (3, no_record),
        (usize::MAX, no_record),
    ] {
        play(rt.alloc(), Founded(2), &[Gives(Look(number), wanted)])?;
        play(rt.alloc(), Founded(2), &[Gives(Put(number), wanted)])?;
    }
    Ok(())
}

// A sheet, and the oldest submission, of so many entries, one of which, at a place, is for a record of a
// register of two. Only the entries that count are asked for their records; a count above 16 counts as 16.
#[test]
fn listed_numbers(rt: HostRuntime) -> Result<(), Fail> {
    let no_record = Err(Refusal::NoSuchRecord);
    for (count, place, number, wanted) in [
        (1, 0, 1, Ok(())),
        (1, 0, 2, no_record),
        (0, 0, 2, Ok(())),
        (16, 15, 1, Ok(())),
        (16, 15, 2, no_record),
        (15, 15, 2, Ok(())),
        (17, 15, 2, no_record),
        (usize::MAX, 15, usize::MAX, no_record),
    ] {
        play(
            rt.alloc(),
            Founded(2),
            &[
                Set(State::Sheet(place, Untouched(number))),
                Set(State::Entries(count)),
                Gives(Submit, wanted),
                Answered(Publish),
                Gives(Tune, wanted),
                Set(State::Submission(0, 1, count)),
                Set(State::Queued(place, Untouched(number))),
                Set(State::Waiting(1)),
                Gives(Decide, wanted),
            ],
        )?;
    }
    Ok(())
}

// Sixteen records of seventeen are looked at or put; the last one has no place, while the sixteenth may be
// looked at and put again.
#[test]
fn full_sheets(rt: HostRuntime) -> Result<(), Fail> {
    play(
        rt.alloc(),
        Tables(17, 1),
        &[
            Answered(Found),
            Answered(Publish),
            Answered(Open),
            Answered(Look(0)),
            Answered(Put(8)),
            Answered(Look(1)),
            Answered(Put(9)),
            Answered(Look(2)),
            Answered(Put(10)),
            Answered(Look(3)),
            Answered(Put(11)),
            Answered(Look(4)),
            Answered(Put(12)),
            Answered(Look(5)),
            Answered(Put(13)),
            Answered(Look(6)),
            Answered(Put(14)),
            Answered(Look(7)),
            Answered(Put(15)),
            BothRefused(16, Refusal::SheetFull),
            Answered(Look(15)),
            Answered(Put(15)),
            Answered(Put(7)),
        ],
    )
}

// Between which bounds a job stands, and the write and read stamps of the record that it looks at or puts.
#[derive(Clone, Copy)]
struct Bounds<S> {
    lower: S,
    upper: Option<S>,
    write: S,
    read: S,
}

// The job between its bounds, and the record with its stamps in the image.
fn set_bounds<S: Stamp, R: Copy>(bench: &mut Bench<S, R>, bounds: Bounds<S>) {
    bench.job.lower = bounds.lower;
    bench.job.upper = bounds.upper;
    let row = ImageRow {
        value: bench.values.old,
        write: bounds.write,
        read: bounds.read,
        first: None,
    };
    store(&mut bench.published.rows, 0, row);
}

// A call makes this the lower bound, or is refused where there is no room.
fn moves<S: Stamp + Content, R: Content>(
    bench: &mut Bench<S, R>,
    call: Call,
    lower: Option<S>,
) -> Result<(), Fail> {
    let Some(lower) = lower else {
        return bench.gives(call, Err(Refusal::NoRoom));
    };
    bench.gives(call, Ok(()))?;
    holds(bench.job.lower.is(lower), "the lower bound is another")
}

// What a look or a put makes the lower bound, or none where there is no room.
fn makes<S: Stamp + Content, R: Content>(
    heap: Global,
    values: Values<R>,
    bounds: Bounds<S>,
    call: Call,
    lower: Option<S>,
) -> Result<(), Fail> {
    let mut bench: Bench<S, R> = Bench::founded(heap, values, 1)?;
    set_bounds(&mut bench, bounds);
    moves(&mut bench, call, lower)
}

// Lower and upper bound of the job, write and read stamp of the row; then the lower bound after a look, and
// after a put.
#[test]
fn room_of_whole_stamps(rt: HostRuntime) -> Result<(), Fail> {
    let at = |place| Whole { place };
    for (lower, upper, write, read, look, put) in [
        (5, Some(7), 0, 0, Some(5), Some(5)),
        (5, Some(6), 0, 0, None, None),
        (5, Some(5), 0, 0, None, None),
        (7, Some(5), 0, 0, None, None),
        (0, Some(2), 1, 0, None, None),
        (0, Some(3), 1, 2, Some(1), None),
        (0, Some(4), 1, 2, Some(1), Some(2)),
        (0, Some(4), 2, 1, Some(2), Some(2)),
        (LAST - 1, None, 0, 0, Some(LAST - 1), Some(LAST - 1)),
        (LAST, None, 0, 0, None, None),
        (0, None, LAST, 0, None, None),
        (0, None, LAST - 1, LAST, Some(LAST - 1), None),
        (0, None, 0, u64::MAX, Some(0), None),
        (
            LAST - 2,
            Some(u64::MAX),
            0,
            0,
            Some(LAST - 2),
            Some(LAST - 2),
        ),
        (LAST - 1, Some(u64::MAX), 0, 0, None, None),
    ] {
        let bounds = Bounds {
            lower: at(lower),
            upper: upper.map(at),
            write: at(write),
            read: at(read),
        };
        makes(rt.alloc(), CARDS, bounds, Call::Look(0), look.map(at))?;
        makes(rt.alloc(), CARDS, bounds, Call::Put(0), put.map(at))?;
    }
    Ok(())
}

#[test]
fn room_of_volumes_and_pages(rt: HostRuntime) -> Result<(), Fail> {
    let at = |(volume, page)| VolumePage { volume, page };
    let least = (0, 0);
    let last = (9_999, 9_999);
    for (lower, upper, write, read, look, put) in [
        (
            (3, 17),
            Some((3, 19)),
            least,
            least,
            Some((3, 17)),
            Some((3, 17)),
        ),
        ((3, 17), Some((3, 18)), least, least, None, None),
        (
            (3, 9_999),
            Some((4, 1)),
            least,
            least,
            Some((3, 9_999)),
            Some((3, 9_999)),
        ),
        ((3, 9_999), Some((4, 0)), least, least, None, None),
        (least, Some((3, 19)), (3, 17), (3, 18), Some((3, 17)), None),
        (
            (9_998, 9_999),
            None,
            least,
            least,
            Some((9_998, 9_999)),
            Some((9_998, 9_999)),
        ),
        (
            least,
            None,
            (9_999, 9_998),
            last,
            Some((9_999, 9_998)),
            None,
        ),
        (last, None, least, least, None, None),
        ((9_999, 10_000), None, least, least, None, None),
    ] {
        let bounds = Bounds {
            lower: at(lower),
            upper: upper.map(at),
            write: at(write),
            read: at(read),
        };
        makes(rt.alloc(), ITEMS, bounds, Call::Look(0), look.map(at))?;
        makes(rt.alloc(), ITEMS, bounds, Call::Put(0), put.map(at))?;
    }
    Ok(())
}
