// The starred examples of document 01: one table, and one theorem. There is no code here.
#![tactic(auto)]
