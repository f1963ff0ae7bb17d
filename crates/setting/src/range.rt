// An upper limit above the lower.
ghost use Rattle.std.specs.Prelude.{◌≡◌};
ghost use Rattle.std.specs.Int.Signed.{lt_z};
ghost use Rattle.limits.specs.Range.{both, temperature};

use limits::is_temperature;

// Whether the upper limit is a temperature above the lower.
pub fn is_above(low: i16, high: i16) -> bool
    ensures { result ≡ both (temperature high) (lt_z low high) }
{
    is_temperature(high) & (low < high)
}
