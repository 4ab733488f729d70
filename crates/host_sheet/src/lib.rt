// The C layer's sheet: the calls and the claim are in specs/, the proof in proofs/.
#![tactic(auto)]
