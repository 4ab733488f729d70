// The round trip between the rows of an Update and the octets of its gateway blocks: definitions and proofs only.
#![tactic(auto)]
