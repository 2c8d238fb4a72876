// Definitions and proofs only: the records of a list of fields.

#![tactic(auto)]
