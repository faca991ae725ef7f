// An archive by numbers and written forms, read by the kinds that its heading names.

#![tactic(auto)]

pub mod forms;
pub mod jobs;
pub mod named;
pub mod sizes;
