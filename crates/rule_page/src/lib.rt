// The rule of `page`: definitions only, see specs/.

#![tactic(auto)]
