// The definitions of all functions of a matrix, in specs/, and laws about them alone, in proofs/. There is no code here.
#![tactic(auto)]
