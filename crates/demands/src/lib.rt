// The customer's demands over runs of calls: statements in specs/, theorems in proofs/. There is no code here.
#![tactic(auto)]
