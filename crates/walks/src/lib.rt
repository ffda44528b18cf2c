// No code: what walks by hand share stands in specs/.
#![tactic(auto)]
