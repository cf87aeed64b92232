// The numbers of a box, the cut and the sign, as mathematics: see specs/. There is no code here.
#![tactic(auto)]
