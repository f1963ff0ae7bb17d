// The number of a line.
ghost use Rattle.std.specs.Prelude.{◌≡◌};
ghost use Rattle.key.specs.Line.{unsigned, number_of};

// One to five digits.
fn digits(cs: &[u8]) -> Option<i32>
    ensures { result ≡ unsigned cs.now }
{
    if !(1..=5).contains(&cs.len()) {
        return None;
    }
    let mut value: u32 = 0;
    for &c in cs {
        if !c.is_ascii_digit() {
            return None;
        }
        value = 10 * value + (c - b'0') as u32;
    }
    Some(value as i32)
}

// An optional minus and one to five digits.
#[tactic(auto, using(crate::proofs::Laws::negation_fits), unfolding(crate::specs::Line::number_of, crate::specs::Line::negated))]
pub fn number(cs: &[u8]) -> Option<i32>
    ensures { result ≡ number_of cs.now }
{
    match cs {
        [b'-', rest @ ..] => Some(-digits(rest)?),
        _ => digits(cs),
    }
}
