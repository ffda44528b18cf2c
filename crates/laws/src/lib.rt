// Laws over the definition's small functions, which several crates cite. No code; they stand in specs/.
#![tactic(auto)]
