// A typed reader of archives: the opening values and the jobs that an archive states.

#![tactic(auto)]

mod forms;
pub mod job;
pub mod looks;
pub mod puts;
pub mod reader;
#[cfg(test)]
mod tests;
