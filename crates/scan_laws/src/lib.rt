// What holds of a whole scan, and the table of starred cases: see specs/ and proofs/.
#![tactic(auto)]
