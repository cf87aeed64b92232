// A search that cuts cells, whatever a cell is: definitions and proofs alone, no code.
#![tactic(auto)]
