// 01's bench sheet: the cases and the claim are in specs/, the proof in proofs/.
#![tactic(auto)]
