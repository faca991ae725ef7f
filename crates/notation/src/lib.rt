// How stamps and values are written as text.

#![tactic(auto)]

pub mod card;
pub mod cut;
pub mod hex;
pub mod item;
pub mod numbers;
pub mod page;
pub mod text;
pub mod whole;
pub mod words;
