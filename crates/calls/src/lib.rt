// The form of tests/reference/CALLS.md, for comparing programs: a call taken from its bytes, and its answer and its memory as text.
#![tactic(auto)]

pub mod answer;
pub mod call;
pub mod ended;
pub mod hash;
pub mod header;
pub mod memory;
pub mod numbers;
