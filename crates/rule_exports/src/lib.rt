// The rules of the exports: definitions only, see specs/.

#![tactic(auto)]
