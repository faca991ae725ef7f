// Settling: where an image has no outcome for a ticket, the ticket is handed back.
use crate::bench::{Bench, Call, holds};
use crate::content::Content;
use crate::kinds_used::{CARDS, ITEMS, Values};
use kinds::stamp::Stamp;
use kinds::volume::VolumePage;
use kinds::whole::Whole;
use model::image::{Image, ImageRow};
use model::refusal::Refusal;
use model::tables::{front, store};
use model::verdict::{Outcome, Verdict};
use office::store::{no_outcome, places};
use registrar::ticket::Ticket;
use std::alloc::{AllocError, Global};
use std::test::Fail;

// A ticket that an image is refused for, as it was.
fn refused<S: Stamp, R: Copy>(
    ticket: Ticket,
    image: Image<'_, S, R>,
    wanted: Refusal,
) -> Result<Ticket, Fail> {
    let number = ticket.number();
    match ticket.settle(image) {
        Ok(_) => Err(Fail::new("a ticket is settled that is not in the image")),
        Err((refusal, ticket)) => {
            if refusal == wanted && ticket.number() == number {
                Ok(ticket)
            } else {
                ticket.waive();
                Err(Fail::new(format_args!("settle gives {refusal:?}, and not {wanted:?}")))
            }
        }
    }
}

// An image of so many records, rows and outcomes, of which so many count, is of wrong tables.
fn wrong_tables<S: Stamp, R: Copy>(
    ticket: Ticket,
    rows: &[ImageRow<S, R>],
    outcomes: &[Outcome<S>],
    [records, rows_taken, outcomes_taken, count]: [usize; 4],
) -> Result<Ticket, Fail> {
    let wrong = Image {
        records,
        number: 2,
        rows: front(rows, rows_taken),
        outcomes: front(outcomes, outcomes_taken),
        count,
    };
    refused(ticket, wrong, Refusal::WrongTables)
}

// An image of wrong tables is refused by 1, with the ticket in it or without.
fn all_wrong_tables<S: Stamp, R: Copy>(
    mut ticket: Ticket,
    rows: &[ImageRow<S, R>],
    outcomes: &[Outcome<S>],
) -> Result<Ticket, Fail> {
    for numbers in [
        [0, 0, 32, 2],
        [1, 2, 32, 2],
        [2, 1, 32, 2],
        [3, 2, 32, 2],
        [2, 2, 31, 2],
        [2, 2, 33, 2],
        [2, 2, 33, 0],
    ] {
        ticket = wrong_tables(ticket, rows, outcomes, numbers)?;
    }
    Ok(ticket)
}

// An image of which fewer outcomes count than those up to the ticket's has it not.
fn fewer_outcomes<S: Stamp, R: Copy>(
    mut ticket: Ticket,
    image: Image<'_, S, R>,
) -> Result<Ticket, Fail> {
    for count in [0, 1] {
        let fewer = Image { count, ..image };
        ticket = refused(ticket, fewer, Refusal::NotInImage)?;
    }
    Ok(ticket)
}

// What a ticket is settled to be; one that is handed back is waived.
fn settled<S: Stamp, R: Copy>(
    ticket: Ticket,
    image: Image<'_, S, R>,
) -> Result<Verdict<S>, Refusal> {
    match ticket.settle(image) {
        Ok(verdict) => Ok(verdict),
        Err((refusal, ticket)) => {
            ticket.waive();
            Err(refusal)
        }
    }
}

fn is_wanted<S: Content>(
    answer: Result<Verdict<S>, Refusal>,
    wanted: Result<Verdict<S>, Refusal>,
) -> Result<(), Fail> {
    let same = match (answer, wanted) {
        (Ok(verdict), Ok(other)) => verdict.is(other),
        (Err(refusal), Err(other)) => refusal == other,
        _ => false,
    };
    holds(same, "the ticket is settled otherwise")
}

// The second ticket by the image in which both outcomes stand, and by others like it.
fn settles_by<S: Stamp + Content, R: Copy>(
    ticket: Ticket,
    image: Image<'_, S, R>,
    longer: &[Outcome<S>],
    first: S,
) -> Result<(), Fail> {
    let ticket = all_wrong_tables(ticket, image.rows, longer)?;
    let ticket = fewer_outcomes(ticket, image)?;
    let accepted = Verdict::Accepted { stamp: first };
    is_wanted(settled(ticket, image), Ok(accepted))
}

// The second ticket, before and after both jobs are decided and shown.
fn settles_second<S: Stamp + Content, R: Content>(
    bench: &mut Bench<S, R>,
    ticket: Ticket,
    longer: &[Outcome<S>],
    first: S,
) -> Result<(), Fail> {
    let ticket = refused(ticket, bench.published.image(), Refusal::NotInImage)?;
    for call in [Call::Decide, Call::Decide, Call::Publish] {
        let _ = bench.call(call);
    }
    settles_by(ticket, bench.published.image(), longer, first)
}

// Outcomes of a place more than a table has, with that of the second ticket.
fn longer_outcomes<S: Copy>(heap: Global) -> Result<Vec<Outcome<S>>, AllocError> {
    let mut longer = places(heap, no_outcome(), 33)?;
    store(
        &mut longer,
        1,
        Outcome {
            ticket: 2,
            verdict: Verdict::Gone,
        },
    );
    Ok(longer)
}

// Two jobs are submitted, and the second ticket is settled.
fn settles_two<S: Stamp + Content, R: Content>(
    bench: &mut Bench<S, R>,
    longer: &[Outcome<S>],
    first: S,
) -> Result<(), Fail> {
    bench.gives(Call::Submit, Ok(()))?;
    let ticket = bench.submit()?;
    settles_second(bench, ticket, longer, first)
}

// The second of two tickets is settled by the image in which both outcomes stand, at the first stamp of the
// kind.
fn settles_of<S: Stamp + Content, R: Content>(
    heap: Global,
    values: Values<R>,
    first: S,
) -> Result<(), Fail> {
    let longer = longer_outcomes(heap)?;
    let mut bench: Bench<S, R> = Bench::founded(heap, values, 2)?;
    settles_two(&mut bench, &longer, first)
}

#[test]
fn settles(rt: HostRuntime) -> Result<(), Fail> {
    settles_of(rt.alloc(), CARDS, Whole { place: 65_536 })?;
    settles_of(rt.alloc(), ITEMS, VolumePage { volume: 1, page: 0 })
}

// The first ticket stands as overtaken at a place of the image, and as gone at the last one, and of the outcomes
// so many count.
fn tell<S: Copy, R: Copy>(bench: &mut Bench<S, R>, place: usize, count: usize) {
    let overtaken = Outcome {
        ticket: 1,
        verdict: Verdict::Overtaken,
    };
    let gone = Outcome {
        ticket: 1,
        verdict: Verdict::Gone,
    };
    store(&mut bench.published.outcomes, place, overtaken);
    store(&mut bench.published.outcomes, 31, gone);
    bench.published.head.count = count;
}

// What the first ticket is settled to be by such an image.
fn settled_at<S: Stamp + Content, R: Content>(
    heap: Global,
    values: Values<R>,
    place: usize,
    count: usize,
    wanted: Result<Verdict<S>, Refusal>,
) -> Result<(), Fail> {
    let mut bench: Bench<S, R> = Bench::founded(heap, values, 2)?;
    tell(&mut bench, place, count);
    let ticket = bench.submit()?;
    is_wanted(settled(ticket, bench.published.image()), wanted)
}

// The outcomes that count are the first 32 at most, and of two for a ticket the first counts.
#[test]
fn places_of_outcomes(rt: HostRuntime) -> Result<(), Fail> {
    let heap = rt.alloc();
    for (place, count, wanted) in [
        (30, 30, Err(Refusal::NotInImage)),
        (30, 31, Ok(Verdict::Overtaken)),
        (30, 32, Ok(Verdict::Overtaken)),
        (31, 31, Err(Refusal::NotInImage)),
        (31, 32, Ok(Verdict::Gone)),
        (31, 33, Ok(Verdict::Gone)),
        (0, usize::MAX, Ok(Verdict::Overtaken)),
    ] {
        settled_at::<Whole, _>(heap, CARDS, place, count, wanted)?;
    }
    settled_at::<VolumePage, _>(heap, ITEMS, 31, usize::MAX, Ok(Verdict::Gone))?;
    settled_at::<VolumePage, _>(heap, ITEMS, 31, 31, Err(Refusal::NotInImage))
}
