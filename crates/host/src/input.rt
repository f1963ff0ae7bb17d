// The patterns that bytes give to the writer: 15 pairs of runs and s, 99 steps of nine bytes.
ghost use Rattle.std.specs.Prelude.{◌≡◌};
ghost use Rattle.calls.specs.Calls.{patterns_from};

use arrays::Patterns;
use bank::step_at;
use field::byte;
use std::array;

// The patterns.
pub fn patterns_from(pairs: &[u8], steps: &[u8]) -> Patterns
    ensures { result ≡ patterns_from pairs.now steps.now }
{
    Patterns {
        runs: array::from_fn(|i| byte(pairs, 2 * i)),
        counts: array::from_fn(|i| byte(pairs, 1 + 2 * i)),
        steps: array::from_fn(|i| step_at(steps, 9 * i)),
    }
}
