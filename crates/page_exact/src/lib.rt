// The claim that the page shows the counts of `quality`, can be read back, and is refused as `quality` is, and its
// proof: see specs/ and proofs/.

#![tactic(auto)]
