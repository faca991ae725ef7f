// What a run is, and the law that binds every run.

#![tactic(auto)]

pub mod accounts;
pub mod handover;
