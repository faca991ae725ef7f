// The registrar: its tables, the queue, the journal and the tickets.

#![tactic(auto)]

pub mod bundle;
mod decide;
mod found;
pub mod journal;
mod places;
pub mod publish;
pub mod queue;
pub mod registrar;
mod rows;
mod submit;
pub mod ticket;
mod verdicts;
