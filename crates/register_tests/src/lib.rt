// The refusals of every call at their bounds and in their order, and contents that no run makes, run against the
// library.

#![tactic(auto)]

#[cfg(test)]
mod bench;
#[cfg(test)]
mod content;
#[cfg(test)]
mod counts;
#[cfg(test)]
mod kinds_used;
#[cfg(test)]
mod order;
#[cfg(test)]
mod registrar_bounds;
#[cfg(test)]
mod settling;
#[cfg(test)]
mod sizes;
#[cfg(test)]
mod states;
#[cfg(test)]
mod station_bounds;
#[cfg(test)]
mod steps;
#[cfg(test)]
mod versions;
