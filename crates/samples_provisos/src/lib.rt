// Demand 3 at numbers. The theorems stand in specs/.
#![tactic(auto)]
