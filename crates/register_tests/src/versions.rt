// Version lists with counts that no run makes, and stamps that count alike.
use crate::bench::Call::{Decide, Open, Publish, Put, Submit};
use crate::bench::{Bench, entry_for, holds};
use crate::content::Content;
use crate::kinds_used::{CARDS, ITEMS};
use crate::states::State;
use crate::steps::Step;
use crate::steps::Step::Answered;
use kinds::card::Card;
use kinds::stamp::Stamp;
use kinds::volume::VolumePage;
use kinds::whole::{LAST, Whole};
use model::entry::Entry;
use model::image::ImageRow;
use model::row::Row;
use model::tables::{at, store};
use model::verdict::Verdict;
use std::alloc::Global;
use std::test::Fail;

fn at_place(place: u64) -> Whole {
    Whole { place }
}

// A row that no job has read, with these four places for its versions.
fn row_of(value: Card, count: usize, [one, two, three, four]: [u64; 4]) -> Row<Whole, Card> {
    Row {
        value,
        read: at_place(0),
        count,
        one: at_place(one),
        two: at_place(two),
        three: at_place(three),
        four: at_place(four),
    }
}

// A put on the image that is published first.
const PUT: [Step; 5] = [
    Answered(Publish),
    Answered(Open),
    Answered(Put(0)),
    Answered(Submit),
    Answered(Decide),
];

// Whether the image shows the record with a write stamp.
fn shows(bench: &Bench<Whole, Card>, write: u64) -> bool {
    let shown = ImageRow {
        value: CARDS.old,
        write: at_place(write),
        read: at_place(0),
        first: Some(at_place(0)),
    };
    at(&bench.published.rows, 0).is(Some(shown))
}

// The image shows a record's write stamp, and a put of it on that image is accepted, at a stamp 65,536 further
// on, which joins the versions.
fn puts(
    bench: &mut Bench<Whole, Card>,
    write: u64,
    (then, versions): (usize, [u64; 4]),
) -> Result<(), Fail> {
    bench.play(&PUT)?;
    holds(shows(bench, write), "the write stamp is another")?;
    let row = row_of(CARDS.new, then, versions);
    holds(at(&bench.store.rows, 0).is(Some(row)), "the row is another")
}

// A put of a record with so many versions of four.
fn put_at(heap: Global, count: usize, write: u64, after: (usize, [u64; 4])) -> Result<(), Fail> {
    let mut bench: Bench<Whole, Card> = Bench::founded(heap, CARDS, 2)?;
    let row = row_of(CARDS.old, count, [10, 20, 30, 40]);
    store(&mut bench.store.rows, 0, row);
    puts(&mut bench, write, after)
}

// A count of 0 counts as 1, and one above 4 as 4.
#[test]
fn puts_by_version_count(rt: HostRuntime) -> Result<(), Fail> {
    for (count, write, after) in [
        (0, 10, (2, [10, 65_546, 30, 40])),
        (1, 10, (2, [10, 65_546, 30, 40])),
        (2, 20, (3, [10, 20, 65_556, 40])),
        (3, 30, (4, [10, 20, 30, 65_566])),
        (4, 40, (4, [20, 30, 40, 65_576])),
        (5, 40, (4, [20, 30, 40, 65_576])),
        (usize::MAX, 40, (4, [20, 30, 40, 65_576])),
    ] {
        put_at(rt.alloc(), count, write, after)?;
    }
    Ok(())
}

// The verdict on a job of a single entry for record 0, without bounds of its own, where the record has this row.
fn verdict<S: Stamp + Content, R: Content>(
    bench: &mut Bench<S, R>,
    row: Row<S, R>,
    entry: Entry<S, R>,
) -> Result<Verdict<S>, Fail> {
    store(&mut bench.store.rows, 0, row);
    store(&mut bench.store.queued, 0, entry);
    bench.set(State::Submission(0, 1, 1));
    bench.set(State::Waiting(1));
    Ok(bench.decide()?.verdict)
}

// Accepted at a place, or gone.
fn placed(place: Option<u64>) -> Verdict<Whole> {
    match place {
        Some(place) => Verdict::Accepted {
            stamp: at_place(place),
        },
        None => Verdict::Gone,
    }
}

// What a look is decided to be, whose noted stamp stands at a place of the list, or not.
fn look_at(
    heap: Global,
    count: usize,
    versions: [u64; 4],
    noted: u64,
    wanted: Option<u64>,
) -> Result<(), Fail> {
    let mut bench: Bench<Whole, Card> = Bench::founded(heap, CARDS, 2)?;
    let entry = Entry {
        noted: at_place(noted),
        seen: true,
        opened: true,
        ..entry_for(CARDS.old, 0)
    };
    let row = row_of(CARDS.old, count, versions);
    let decided = verdict(&mut bench, row, entry)?;
    holds(decided.is(placed(wanted)), "the verdict is another")
}

// Halfway from 0 to the version that follows the noted one, 65,536 where none follows, and gone where it is not
// in the list. Of two places in the list the last one counts.
#[test]
fn looks_by_version_count(rt: HostRuntime) -> Result<(), Fail> {
    let rising = [10, 20, 30, 40];
    for (count, versions, noted, wanted) in [
        (0, rising, 10, Some(65_536)),
        (0, rising, 20, None),
        (1, rising, 10, Some(65_536)),
        (1, rising, 20, None),
        (2, rising, 10, Some(10)),
        (2, rising, 20, Some(65_536)),
        (2, rising, 30, None),
        (3, rising, 20, Some(15)),
        (3, rising, 40, None),
        (4, rising, 25, None),
        (4, rising, 40, Some(65_536)),
        (5, rising, 10, Some(10)),
        (5, rising, 30, Some(20)),
        (usize::MAX, rising, 40, Some(65_536)),
        (usize::MAX, rising, 50, None),
        (4, [10, 20, 10, 40], 10, Some(20)),
        (3, [10, 10, 30, 40], 10, Some(15)),
        (3, [10, 20, 10, 40], 10, Some(65_536)),
    ] {
        look_at(rt.alloc(), count, versions, noted, wanted)?;
    }
    Ok(())
}

// The verdict on a put of a record that was last written on the last page of volume 3, and whose noted stamp
// has this page there.
fn put_noted(heap: Global, page: u32, wanted: Verdict<VolumePage>) -> Result<(), Fail> {
    let mut bench = Bench::founded(heap, ITEMS, 2)?;
    let least = VolumePage::least();
    let row = Row {
        value: ITEMS.old,
        read: least,
        count: 2,
        one: least,
        two: VolumePage {
            volume: 3,
            page: 9_999,
        },
        three: least,
        four: least,
    };
    let entry = Entry {
        noted: VolumePage { volume: 3, page },
        put: true,
        ..entry_for(ITEMS.new, 0)
    };
    holds(
        verdict(&mut bench, row, entry)?.is(wanted),
        "the verdict is another",
    )
}

// A noted stamp that counts as the write stamp is that write stamp.
#[test]
fn noted_stamps_that_count_alike(rt: HostRuntime) -> Result<(), Fail> {
    look_at(rt.alloc(), 1, [LAST, 0, 0, 0], u64::MAX, Some(65_536))?;
    look_at(rt.alloc(), 1, [u64::MAX, 0, 0, 0], LAST, Some(65_536))?;
    look_at(rt.alloc(), 1, [LAST, 0, 0, 0], LAST - 1, None)?;
    let next_volume = Verdict::Accepted {
        stamp: VolumePage { volume: 4, page: 0 },
    };
    put_noted(rt.alloc(), 10_000, next_volume)?;
    put_noted(rt.alloc(), 9_998, Verdict::Overtaken)
}
