// That a record which is written and read, or read and written, comes back the same: see proofs/.
#![tactic(auto)]
