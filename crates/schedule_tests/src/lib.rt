// Schedules and their printouts.

#![tactic(auto)]

#[cfg(test)]
mod commands;
#[cfg(test)]
mod errors;
#[cfg(test)]
mod lines;
#[cfg(test)]
mod printed;
