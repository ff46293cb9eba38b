// What the rules of swaps and of merges share: definitions only, see specs/.

#![tactic(auto)]
