// The mathematics of the rules: definitions in specs/, theorems in proofs/. No code.

#![tactic(auto)]
