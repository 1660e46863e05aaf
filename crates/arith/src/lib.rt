// Arithmetic for the proofs of the other crates: its definitions stand in specs/, their laws in proofs/.
// It holds no code, and nothing of power markets.
#![tactic(auto)]
