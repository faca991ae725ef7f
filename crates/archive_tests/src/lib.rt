// Damaged archives: what inspect and play say of them, and what the inspection tells.

#![tactic(auto)]

#[cfg(test)]
mod answers;
#[cfg(test)]
mod block_tests;
#[cfg(test)]
mod byte_tests;
#[cfg(test)]
mod cut_tests;
#[cfg(test)]
mod heading_tests;
#[cfg(test)]
mod order_tests;
#[cfg(test)]
mod play_tests;
#[cfg(test)]
mod tables;
#[cfg(test)]
mod told_tests;
