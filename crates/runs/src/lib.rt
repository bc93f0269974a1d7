// Keys, runs and what is kept of them: definitions in specs/ and laws in proofs/ that the other crates share. There is no code.
#![tactic(auto)]
