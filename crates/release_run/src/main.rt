// Runs many stations through many schedules drawn by chance, and prints what was counted. A difference between a
// register and its archive ends the program with status 1. What stands on standard output depends on the arguments
// alone.

#![tactic(auto)]

use anyhow::Context;
use kinds::card::Card;
use kinds::item::Item;
use kinds::stamp::Stamp;
use kinds::volume::VolumePage;
use kinds::whole::Whole;
use release::field::Field;
use release::options::{Options, Stamps, Values};
use release::tally::Tally;
use release::values::Drawn;
use std::env;
use std::rt::{Clock, Env};
use std::time::Instant;

// Runs the schedules, with a line of progress every second.
fn run<S: Stamp, R: Drawn>(
    rt: &(impl AllocGlobal + Clock + Eprint),
    options: &Options,
) -> anyhow::Result<Tally> {
    let mut field: Field<S, R> = Field::new(rt.alloc(), options)?;
    let mut told = Instant::now(rt)?;
    let schedules = options.schedules;
    for number in 0..schedules {
        if told.elapsed(rt)?.as_secs() > 0 {
            eprintln!(rt; "{number} of {schedules} schedules")?;
            told = Instant::now(rt)?;
        }
        field.schedule().context(format_args!("schedule {number}"))?;
    }
    Ok(field.tally)
}

fn main(rt: HostRuntime) -> anyhow::Result<()> {
    let words: Vec<String> = env::args(&rt)?.skip(1).collect(rt.alloc())?;
    let options = Options::read(&words)?;
    let tally = match (options.stamps, options.values) {
        (Stamps::Whole, Values::Card) => run::<Whole, Card>(&rt, &options)?,
        (Stamps::Whole, Values::Item) => run::<Whole, Item>(&rt, &options)?,
        (Stamps::Page, Values::Card) => run::<VolumePage, Card>(&rt, &options)?,
        (Stamps::Page, Values::Item) => run::<VolumePage, Item>(&rt, &options)?,
    };
    print!(rt; "schedules: {}\n{tally}", options.schedules)?;
    Ok(())
}
