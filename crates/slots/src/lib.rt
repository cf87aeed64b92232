// One slot of the waiting store, the numbers of one box: its front, what the rules say of it, and how it is filled, with the starting numbers of the unit box
// or with the two halves of a box.
#![tactic(auto)]

pub mod cuts;
pub mod directions;
pub mod fronts;
pub mod looks;
pub mod numbers;
pub mod starts;
