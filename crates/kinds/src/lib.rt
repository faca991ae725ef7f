// Stamp kinds and record kinds: the two interfaces, their laws, and the kinds that are supplied.

#![tactic(auto)]

pub mod bounds;
pub mod card;
pub mod item;
pub mod stamp;
pub mod value;
pub mod volume;
pub mod whole;
