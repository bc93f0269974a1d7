// Books with some items of a macro made into a macro of their own: definitions in specs/ and theorems in proofs/. There is no code.
#![tactic(auto)]
