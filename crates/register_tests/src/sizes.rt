// How many records a register may have, and the length of every table: refusal 1.
use crate::bench::Call::{Decide, Found, Look, Open, Publish, Put, Submit, Tune};
use crate::steps::Start::{Founded, Tables};
use crate::steps::Step::{Answered, Lengthen, Refused, Shorten};
use crate::steps::{Step, Table, play};
use model::refusal::Refusal::WrongTables;
use std::alloc::Global;
use std::test::Fail;

// Each call in turn, those of a record at the last one, is answered on tables that fit so many records, and a
// journal of so many places.
fn a_register(heap: Global, records: usize, journal: usize) -> Result<(), Fail> {
    let last = records.saturating_sub(1);
    play(
        heap,
        Tables(records, journal),
        &[
            Answered(Found),
            Answered(Publish),
            Answered(Open),
            Answered(Look(last)),
            Answered(Put(last)),
            Answered(Submit),
            Answered(Publish),
            Answered(Tune),
            Answered(Decide),
        ],
    )
}

// A register has 1 to 1,024 records: every call on another is refused, those of a record at the first one.
#[test]
fn records(rt: HostRuntime) -> Result<(), Fail> {
    for records in [0, 1_025] {
        play(
            rt.alloc(),
            Tables(records, 2),
            &[
                Refused(Found, WrongTables),
                Refused(Open, WrongTables),
                Refused(Look(0), WrongTables),
                Refused(Put(0), WrongTables),
                Refused(Tune, WrongTables),
                Refused(Submit, WrongTables),
                Refused(Decide, WrongTables),
                Refused(Publish, WrongTables),
            ],
        )?;
    }
    for records in [1, 1_024] {
        a_register(rt.alloc(), records, 2)?;
    }
    Ok(())
}

// The calls that are handed the registrar's tables.
const REGISTRAR_CALLS: [Step; 4] = [
    Refused(Found, WrongTables),
    Refused(Submit, WrongTables),
    Refused(Decide, WrongTables),
    Refused(Publish, WrongTables),
];

// A journal has 1 to 4,096 places.
#[test]
fn journal_places(rt: HostRuntime) -> Result<(), Fail> {
    for places in [0, 4_097] {
        play(rt.alloc(), Tables(1, places), &REGISTRAR_CALLS)?;
    }
    for places in [1, 4_096] {
        a_register(rt.alloc(), 1, places)?;
    }
    Ok(())
}

// Each of these calls is refused where this table is too short by one, or too long by one.
fn must_fit(heap: Global, table: Table, refused: &[Step]) -> Result<(), Fail> {
    for change in [Shorten(table), Lengthen(table)] {
        let mut steps = Vec::from_slice(heap, &[Answered(Submit), change])?;
        steps.extend_from_slice(refused)?;
        play(heap, Founded(2), &steps)?;
    }
    Ok(())
}

#[test]
fn registrar_tables(rt: HostRuntime) -> Result<(), Fail> {
    for table in [
        Table::Rows,
        Table::Firsts,
        Table::Opening,
        Table::Queue,
        Table::Queued,
        Table::Outcomes,
        Table::Heads,
        Table::Lines,
    ] {
        must_fit(rt.alloc(), table, &REGISTRAR_CALLS)?;
    }
    Ok(())
}

// The calls that are handed an image.
const IMAGE_CALLS: [Step; 5] = [
    Refused(Open, WrongTables),
    Refused(Look(0), WrongTables),
    Refused(Put(0), WrongTables),
    Refused(Tune, WrongTables),
    Refused(Publish, WrongTables),
];

// The calls that are handed a sheet.
const SHEET_CALLS: [Step; 4] = [
    Refused(Look(0), WrongTables),
    Refused(Put(0), WrongTables),
    Refused(Tune, WrongTables),
    Refused(Submit, WrongTables),
];

#[test]
fn image_tables_and_sheets(rt: HostRuntime) -> Result<(), Fail> {
    for table in [Table::ImageRows, Table::ImageOutcomes] {
        must_fit(rt.alloc(), table, &IMAGE_CALLS)?;
    }
    must_fit(rt.alloc(), Table::Sheet, &SHEET_CALLS)
}
