// A desk: one registrar with its images, its jobs and its tickets, the library's calls on them, and how their answers
// and states are printed.

#![tactic(auto)]

pub mod act;
pub mod answer;
pub mod desk;
pub mod failure;
pub mod holdings;
pub mod log;
mod show;
