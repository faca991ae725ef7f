// The office of a registrar: its tables and the images that it published, as an owner on the heap has them.

#![tactic(auto)]

pub mod images;
pub mod store;
#[cfg(test)]
mod tests;
