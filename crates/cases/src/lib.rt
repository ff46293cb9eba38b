// The cases that document 01 marks with a star, as one table about the rules: see specs/ and proofs/.

#![tactic(auto)]
