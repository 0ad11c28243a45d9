// What agents hold for one key, and what every list of steps keeps of it: definitions in specs/, theorems in proofs/.
// The crate has no functions.

#![tactic(auto)]
