// The longest bank that is accepted, and what is found in a longer one. There is no code here.
#![tactic(auto)]
