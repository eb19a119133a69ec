// Demand 3: that a desk hears another exactly where a route runs. Definitions in specs/, laws in proofs/, no function.
#![tactic(auto)]
