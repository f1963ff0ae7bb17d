// What a command makes of a position. Tests are joined by `&` and `|`, which have no branch.
#![tactic(auto)]

mod press;
mod shift;

pub use press::command;
