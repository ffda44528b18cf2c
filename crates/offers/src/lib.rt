// Items that are offered one by one to a slice of keys that rises, which keeps the best of them. Only specs.
#![tactic(auto)]
