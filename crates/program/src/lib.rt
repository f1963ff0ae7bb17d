// A position in a pattern: what a bank says there, and what is shown of it. Tests are joined by `&` and `|`, which have no branch.
#![tactic(auto)]

mod place;
mod signal;

pub use place::{here_after, here_at};
pub use signal::shown;
