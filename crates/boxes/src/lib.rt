// What visits speak of: a box by value and its halves, its middle and half width as doubles, what a visit says.
#![tactic(auto)]

pub mod half;
pub mod middle;
pub mod visit;
