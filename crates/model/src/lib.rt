// The register's records: rows, entries, image rows, verdicts and refusals.

#![tactic(auto)]

pub mod entry;
pub mod image;
pub mod refusal;
pub mod row;
pub mod tables;
pub mod verdict;
