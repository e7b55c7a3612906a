// Layer 4: what is done with whole files of a roll (document 02).
#![tactic(auto)]

mod falling;
mod merging;
mod searching;

pub use merging::merge;
pub use searching::{Found, MAX_POSITIONS, find};
