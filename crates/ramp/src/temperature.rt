// Temperatures: one moved toward another, and whether a measured value is near one.
ghost use Rattle.std.specs.Prelude.{◌≡◌, ◌≤◌};
ghost use Rattle.position.specs.Tests.{apart};
ghost use Rattle.position.specs.Program.{toward, near_of};

// b moved toward the target by an amount, in 32 bits: the amount may pass 16 bits with a sign.
#[tactic(auto, unfolding(position::specs::Tests::apart, position::specs::Program::toward))]
pub fn moved(b: i16, target: i16, amount: u16) -> i16
    requires { amount ≤ apart target b }
    ensures { result ≡ toward b target amount }
{
    if b <= target {
        (b as i32 + amount as i32) as i16
    } else {
        (b as i32 - amount as i32) as i16
    }
}

// Whether a measured whole value is within a width of a temperature.
#[tactic(auto, unfolding(position::specs::Tests::apart, position::specs::Program::near_of))]
pub fn near(width: u16, x: i16, value: Option<i16>) -> bool
    ensures { result ≡ near_of width x value }
{
    value.is_some_and(|v| v.abs_diff(x) <= width)
}
