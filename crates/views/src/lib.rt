// The store as a machine, and what each desk sees of it: definitions and laws, no function.
#![tactic(auto)]
