// The set value.
ghost use Rattle.std.specs.Prelude.{◌≡◌, ◌*◌, ◌/◌, ◌<◌, ◌≤◌, min};
ghost use Rattle.position.specs.Program.{ramp_of, set_value_of};

use crate::temperature::moved;
use position::{Here, Position};

// e of t parts of a distance, rounded down. e counts as at most t.
fn part(distance: u16, e: u32, t: u32) -> u16
    requires { 0 < t }
    ensures value { result ≡ distance * min e t / t }
    ensures bound { result ≤ distance }
{
    (distance as u64 * e.min(t) as u64 / t as u64) as u16
}

// The set value of a step from base b, e seconds in.
#[tactic(auto, unfolding(position::specs::Tests::apart, position::specs::Tests::either, position::specs::Program::ramp_of))]
fn ramp(here: Here, b: i16, e: u32) -> i16
    ensures { result ≡ ramp_of here b e }
{
    if (here.time == 0) | here.endless {
        return here.target;
    }
    moved(b, here.target, part(here.target.abs_diff(b), e, here.time))
}

// The set value: b in the timer, else the ramp's; 0 in modes 0 and 3.
#[tactic(auto, unfolding(position::specs::Tests::either, position::specs::Program::active, position::specs::Program::set_value_of))]
pub fn set_value(here: Here, position: Position) -> i16
    ensures { result ≡ set_value_of here position }
{
    if matches!(position.mode, 1 | 2) {
        if here.timer {
            return position.base;
        }
        return ramp(here, position.base, position.elapsed);
    }
    0
}
