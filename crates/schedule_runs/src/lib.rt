// Whole runs and their printouts.

#![tactic(auto)]

#[cfg(test)]
mod cases;
#[cfg(test)]
mod errors;
#[cfg(test)]
mod kept;
#[cfg(test)]
mod printed;
#[cfg(test)]
mod refusals;
#[cfg(test)]
mod shown;
