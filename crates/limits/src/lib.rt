// Temperatures in a range, both ends included.
#![tactic(auto, unfolding(crate::specs::Range::both, crate::specs::Range::within, crate::specs::Range::temperature))]

ghost use Rattle.std.specs.Prelude.{◌≡◌};
ghost use Rattle.limits.specs.Range.{within, temperature};

pub fn in_limits(low: i16, x: i16, high: i16) -> bool
    ensures { result ≡ within low x high }
{
    (low..=high).contains(&x)
}

// Whether a temperature is in the temperature range.
pub fn is_temperature(x: i16) -> bool
    ensures { result ≡ temperature x }
{
    (-19999..=29999).contains(&x)
}
