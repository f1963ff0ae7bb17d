// How many steps a pattern can have.
#![tactic(auto)]

ghost use Rattle.std.specs.Prelude.{◌≡◌};
ghost use Rattle.capacity.specs.Capacity.{capacity_of};

// Steps per pattern, by the number of patterns: a const array of 15, the form that document 01 names.
const CAPACITY: [u8; 15] = [99, 49, 33, 24, 19, 16, 14, 12, 11, 9, 9, 8, 7, 7, 6];

// The most steps that a pattern can have, with n patterns; 0 where n is not 1 to 15.
pub fn capacity(n: u8) -> u8
    ensures { result ≡ capacity_of n }
{
    if n < 1 {
        return 0;
    }
    if 15 < n {
        return 0;
    }
    CAPACITY[n as usize - 1]
}
