// A machine at its start means a blank gateway (proofs/Blank.antt). It is here for the night run and the console alike, and has no code.
#![tactic(auto)]
