// What holds of every call: the statements are in specs/, the proofs in proofs/.
#![tactic(auto)]
