// Boundary tables of the stamp kinds and the record kinds, run against the library.

#![tactic(auto)]

#[cfg(test)]
mod bound_tests;
#[cfg(test)]
mod card_tests;
#[cfg(test)]
mod item_tests;
#[cfg(test)]
mod tables;
#[cfg(test)]
mod volume_tests;
#[cfg(test)]
mod whole_tests;
