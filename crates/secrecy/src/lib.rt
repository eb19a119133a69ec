// The theory of secrecy for any machine: definitions in specs/, laws in proofs/, no function.
#![tactic(auto)]
