// Whole numbers as f32: laws only, no code. What is stated of them stands in specs/.
#![tactic(auto)]
