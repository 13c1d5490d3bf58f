// The machine: the state with the memory that is lent to it. Definitions in specs/: the layout of the store, the gateway that a machine
// means, and when it is consistent. Their rows and laws in proofs/. There is no code here.
#![tactic(auto)]
