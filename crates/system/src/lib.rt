// The head of a system, its limits and sizes; and the refusals, of which every call of the library speaks.
#![tactic(auto)]

pub mod head;
pub mod refusal;
