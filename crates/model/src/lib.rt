// The theorem about lists of calls: the statements are in specs/, the proofs in proofs/.
#![tactic(auto)]
