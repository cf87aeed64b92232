// The library for C and Rust callers: calls on numbers and lent slices. Each answers with a code, 0 for done and 1 to 10 for 01's refusals, and with an offset.
#![tactic(auto)]

pub mod codes;
pub mod files;
pub mod middles;
pub mod running;
pub mod starts;
pub mod tables;
pub mod visits;
