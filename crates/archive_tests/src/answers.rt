// What is answered of an archive: each helper is proved once, so a test is a table of damages and answers.
use crate::tables::{NO_JOB, ONE_JOB, THREE_JOBS, widest, with};
use archive::fault::Fault;
use archive::inspect::inspect;
use kinds::card::Card;
use kinds::item::Item;
use kinds::volume::VolumePage;
use kinds::whole::Whole;
use std::test::Fail;

// The number of jobs of a sound archive, or a fault by its number and its place.
pub type Answer = Result<usize, (u8, Option<usize>)>;

// A fault by its number and its place.
pub fn numbered<T>(answer: Result<T, Fault>) -> Result<T, (u8, Option<usize>)> {
    answer.map_err(|fault| (u8::from(fault), fault.place()))
}

// The answer to an archive with other bytes at these places is this one.
pub fn is(answer: Answer, expected: Answer, changes: &[(usize, u8)]) -> Result<(), Fail> {
    if answer == expected {
        Ok(())
    } else {
        Err(Fail::new(format_args!("{changes:?} gives {answer:?}, and not {expected:?}")))
    }
}

// The answer to bytes is this one, where they are read as whole stamps and cards.
pub fn whole_cards(bytes: &[u8], expected: Answer) -> Result<(), Fail> {
    changed_cards(bytes, expected, &[])
}

// The answer to bytes is this one, where they are read as stamps of volume and page and as items.
pub fn paged_items(bytes: &[u8], expected: Answer) -> Result<(), Fail> {
    changed_items(bytes, expected, &[])
}

// The same of an archive that has other bytes at these places.
fn changed_cards(bytes: &[u8], expected: Answer, changes: &[(usize, u8)]) -> Result<(), Fail> {
    is(numbered(inspect::<Whole, Card>(bytes)), expected, changes)
}

fn changed_items(bytes: &[u8], expected: Answer, changes: &[(usize, u8)]) -> Result<(), Fail> {
    is(
        numbered(inspect::<VolumePage, Item>(bytes)),
        expected,
        changes,
    )
}

// The answers to the archives with other bytes at some places.
pub fn no_job(changes: &[(usize, u8)], expected: Answer) -> Result<(), Fail> {
    changed_cards(&with(NO_JOB, changes), expected, changes)
}

pub fn one_job(changes: &[(usize, u8)], expected: Answer) -> Result<(), Fail> {
    changed_cards(&with(ONE_JOB, changes), expected, changes)
}

pub fn three_jobs(changes: &[(usize, u8)], expected: Answer) -> Result<(), Fail> {
    changed_items(&with(THREE_JOBS, changes), expected, changes)
}

pub fn widest_job(changes: &[(usize, u8)], expected: Answer) -> Result<(), Fail> {
    changed_cards(&with(widest(), changes), expected, changes)
}
