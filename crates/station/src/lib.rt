// Jobs at their stations.

#![tactic(auto)]

mod admit;
mod bounds;
pub mod job;
mod look;
mod open;
mod put;
mod sheet;
mod tune;
