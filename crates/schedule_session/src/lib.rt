// Whole schedules: a session carries out one line after the other, at the desk of the register that it founded.

#![tactic(auto)]

mod archived;
pub mod run;
pub mod session;
