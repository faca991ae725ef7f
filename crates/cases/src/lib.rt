// The worked cases of the whole product, as one theorem about its definitions.

#![tactic(auto)]

pub mod cases;
