// What a call has that is not refused, and what is not refused. Laws only, no code; they stand in specs/.
#![tactic(auto)]
