// A position that comes back from a record: whether it is readable, and what a return makes of it. Tests are joined by `&` and `|`, which have
// no branch.
#![tactic(auto)]

ghost use Rattle.std.specs.Prelude.{◌≡◌, cond};
ghost use Rattle.position.specs.Command.{stop_position};
ghost use Rattle.position.specs.Return.{goes_on, return_position, times_right, cleared_of, readable_of};

use limits::is_temperature;
use position::{Here, Position};
use setting::Settings;

// To stopped, at a pattern.
pub fn stopped(pattern: u8) -> Position
    ensures { result ≡ stop_position pattern }
{
    Position {
        mode: 0,
        pattern,
        step: 1,
        pass: 1,
        elapsed: 0,
        waited: 0,
        base: 0,
    }
}

// Whether a run goes on after an outage, by the width.
#[tactic(auto, unfolding(position::specs::Tests::either, position::specs::Return::goes_on))]
fn goes_on(settings: Settings, here: Here, value: Option<i16>, position: Position) -> bool
    ensures { result ≡ goes_on settings here value position }
{
    let restored = ramp::set_value(here, position);
    (settings.width == 0) | ramp::near(settings.width, restored, value)
}

// The outage choices.
#[tactic(auto, unfolding(position::specs::Tests::both, position::specs::Tests::either, position::specs::Program::active, position::specs::Return::return_position))]
pub fn returned(settings: Settings, here: Here, value: Option<i16>, position: Position) -> Position
    ensures { result ≡ return_position settings here value position }
{
    if !matches!(position.mode, 1 | 2) {
        return position;
    }
    if settings.outage == 0 {
        return stopped(position.pattern);
    }
    let stays = goes_on(settings, here, value, position);
    if (position.mode == 1) & (settings.outage != 1) & stays {
        return position;
    }
    Position {
        mode: 2,
        ..position
    }
}

// Whether e = w = b = 0.
#[tactic(auto, unfolding(position::specs::Tests::both, position::specs::Tests::zero_z, position::specs::Return::cleared_of))]
fn clear(position: Position) -> bool
    ensures { result ≡ cleared_of position }
{
    (position.elapsed == 0) & (position.waited == 0) & (position.base == 0)
}

// The longest elapsed time of a step.
fn longest(here: Here) -> u32
    ensures { result ≡ cond here.endless 359999 here.time }
{
    if here.endless { 359999 } else { here.time }
}

// Whether e and w are those of a step in modes 1 and 2.
#[tactic(auto, unfolding(position::specs::Tests::both, position::specs::Tests::either, position::specs::Return::times_right))]
fn times_right(here: Here, position: Position) -> bool
    ensures { result ≡ times_right here position }
{
    let in_time = (position.waited == 0) & (position.elapsed <= longest(here));
    let in_wait = (0 < position.waited) & (position.waited < here.wait);
    in_time | (!here.endless & (position.elapsed == here.time) & in_wait)
}

// Whether a position is readable. With `contains` for the ranges the search for the proof stops at its limits.
#[tactic(auto, unfolding(position::specs::Tests::both, position::specs::Return::readable_of))]
pub fn readable(settings: Settings, here: Here, position: Position) -> bool
    ensures { result ≡ readable_of settings here position }
{
    let mode = position.mode <= 3;
    let pattern = (1 <= position.pattern) & (position.pattern <= settings.patterns);
    if position.mode == 0 {
        return mode & pattern & (position.step == 1) & (position.pass == 1) & clear(position);
    }
    let step = (1 <= position.step) & (position.step <= here.count);
    let pass = (1 <= position.pass) & (position.pass <= here.limit);
    let times = if position.mode == 3 {
        clear(position)
    } else {
        times_right(here, position)
    };
    mode & pattern & step & pass & is_temperature(position.base) & times
}
