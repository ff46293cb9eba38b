// What a call is admitted by: see specs/.

#![tactic(auto)]
