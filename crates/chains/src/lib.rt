// The chains of links between desks: definitions in specs/, laws in proofs/, no function.
#![tactic(auto)]
