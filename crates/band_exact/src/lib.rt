// The claims about the lower level of a band: who refuses one that is not finite, who takes minus infinity, and that 2
// is no operation's number; and their proof: see specs/ and proofs/.

#![tactic(auto)]
