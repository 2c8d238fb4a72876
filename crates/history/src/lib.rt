// The history of a strip: what is said of it is in specs/ and proofs/.

#![tactic(auto)]
