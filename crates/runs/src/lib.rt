// The list of kept boxes that the caller lends, as records or as numbers, and a visit and a run that fill it.
#![tactic(auto)]

pub mod list;
pub mod runs;
pub mod tables;
pub mod visits;
