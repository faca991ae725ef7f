// The archive's writer: a registrar's opening values and its journal, laid down in bytes.

#![tactic(auto)]

mod block;
mod journal;
mod laying;
mod numbers;
pub mod unwritten;
mod whole;
pub mod write;
