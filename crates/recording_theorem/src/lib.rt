// The theorem about recordings: the statements are in specs/, the proofs in proofs/.
#![tactic(auto)]
