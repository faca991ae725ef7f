// The commands on a register: from the words of a line to a call, a view or the reason why it is none.

#![tactic(auto)]

pub mod command;
pub mod numbers;
pub mod parse;
pub mod reason;
