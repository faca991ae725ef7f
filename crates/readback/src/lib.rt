// Reading back: bytes are accepted exactly when they are laid down of sound values and jobs, and state what was laid down.
// What is laid down of a run is so.

#![tactic(auto)]

pub mod playback;
pub mod runs;
pub mod theorems;
