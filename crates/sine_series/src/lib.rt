// The sine and cosine series, and the entries of the tables by their rule: see specs/ and proofs/.
#![tactic(auto)]
