// Demand 3: its statement and its theorem. There is no code here.
#![tactic(auto)]
