// The waiting store: its slots, a start, and the check of a state; then one visit, and the step of a run, on the store and a cursor by value: the core of
// `visit` and `run` on plain numbers.
#![tactic(auto)]

pub mod cursor;
pub mod start;
pub mod state;
pub mod step;
pub mod store;
