// Document 01's cases P1 to P9. There is no code here: `specs/Cases.antt` is the table, and `proofs/Table.antt` says that it holds.
#![tactic(auto)]
