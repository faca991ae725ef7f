// A release run: many stations through many schedules drawn by chance, with the archive of each written, inspected and
// played.

#![tactic(auto)]

pub mod alike;
mod calls;
pub mod chance;
pub mod check;
pub mod failure;
pub mod field;
pub mod journal;
pub mod options;
mod schedule;
pub mod tally;
pub mod values;
