// Temperatures: the set value of a position, and whether a measured value is near one. Tests are joined by `&` and `|`, which have no branch.
#![tactic(auto)]

mod temperature;
mod value;

pub use temperature::near;
pub use value::set_value;
