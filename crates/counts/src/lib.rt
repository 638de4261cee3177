// The running counts kept beside a plan: definitions and theorems, in specs/ and proofs/.

#![tactic(auto)]
