// The archive: a register's opening values and its journal of accepted jobs, in bytes.

#![tactic(auto)]

mod blocks;
mod directory;
pub mod fault;
pub mod heading;
pub mod inspect;
pub mod lengths;
mod names;
pub mod play;
mod replay;
mod rows;
mod values;
pub mod whole;
