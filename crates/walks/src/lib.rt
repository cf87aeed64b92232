// No code: laws for proofs that walk the code by hand stand in proofs/. No crate needs them today.
#![tactic(auto)]
