// What a host in C or Rust sees: results as one number, a state as bytes, and what each call leaves. There is no code here.
#![tactic(auto)]
