// The schedule program as a function on text.

#![tactic(auto)]

pub mod answer;
pub mod command;
pub mod line;
pub mod parse;
pub mod reason;
pub mod run;
pub mod words;
