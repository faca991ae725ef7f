// The inspection of an archive by the kinds that its heading names, and the line that tells what was found.

#![tactic(auto)]

pub mod by_kinds;
pub mod finding;
pub mod input;
