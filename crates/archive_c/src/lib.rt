// An archive for programs in other languages: a static library of C functions over bytes and numbers.

#![tactic(auto)]

pub mod answers;
pub mod calls;
