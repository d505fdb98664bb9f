// What holds of a whole sweep: see specs/ and proofs/.
#![tactic(auto)]
