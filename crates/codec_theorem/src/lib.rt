// Reading and writing undo each other: the statements are in specs/, the proofs in proofs/.
#![tactic(auto)]
