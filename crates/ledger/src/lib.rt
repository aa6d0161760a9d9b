// Every row worked out from the log. There is no code here: `specs` says what the log is, what is worked out from it and what is stated, and
// `proofs/Theorem.antt` has the proof.
#![tactic(auto)]
