// Definitions and proofs only: a message as sent and its reduction.

#![tactic(auto)]
