// What time makes of a position: a second of a running step, and next; and a feed, which is next. Tests are joined by `&` and `|`, which have
// no branch.
#![tactic(auto)]

ghost use Rattle.std.specs.Prelude.{◌≡◌};
ghost use Rattle.position.specs.Program.{past_of, in_zone_of, second_position, leaves_of, end_position, next_position, tick_position};
ghost use Rattle.position.specs.Command.{feed_position};

use position::{Here, Position};

// Whether a measured whole value is at or past the target, seen from base b.
#[tactic(auto, unfolding(position::specs::Program::past_of))]
fn past(b: i16, target: i16, value: Option<i16>) -> bool
    ensures { result ≡ past_of b target value }
{
    match value {
        Some(v) if b <= target => target <= v,
        Some(v) => v <= target,
        None => false,
    }
}

// Whether a measured whole value is in the step's zone, seen from base b.
#[tactic(auto, unfolding(position::specs::Program::in_zone_of))]
fn in_zone(here: Here, b: i16, value: Option<i16>) -> bool
    ensures { result ≡ in_zone_of here b value }
{
    if here.zone == 0 {
        return past(b, here.target, value);
    }
    ramp::near(here.zone, here.target, value)
}

// A second of the step: its time, or its wait.
#[tactic(auto, unfolding(position::specs::Program::second_position))]
fn second(here: Here, mut position: Position) -> Position
    ensures { result ≡ second_position here position }
{
    if here.endless {
        position.elapsed = position.elapsed.saturating_add(1).min(359999);
    } else if position.elapsed < here.time {
        position.elapsed += 1;
    } else {
        position.waited = position.waited.saturating_add(1);
    }
    position
}

// Whether the step is over.
#[tactic(auto, unfolding(position::specs::Tests::both, position::specs::Tests::either, position::specs::Program::leaves_of))]
fn leaves(here: Here, value: Option<i16>, position: Position) -> bool
    ensures { result ≡ leaves_of here value position }
{
    let waited = in_zone(here, position.base, value) | (here.wait <= position.waited);
    !here.endless & (position.elapsed == here.time) & ((here.number == 0) | waited)
}

// Mode 3.
fn ended(position: Position) -> Position
    ensures { result ≡ end_position position }
{
    Position {
        mode: 3,
        elapsed: 0,
        waited: 0,
        base: 0,
        ..position
    }
}

// The next step, the next pass, or the end.
#[tactic(auto, unfolding(position::specs::Program::next_position))]
fn next(here: Here, position: Position) -> Position
    ensures { result ≡ next_position here position }
{
    let first = Position {
        elapsed: 0,
        waited: 0,
        base: ramp::set_value(here, position),
        ..position
    };
    if position.step < here.count {
        Position {
            step: position.step + 1,
            ..first
        }
    } else if position.pass < here.limit {
        Position {
            step: 1,
            pass: position.pass + 1,
            ..first
        }
    } else {
        ended(position)
    }
}

// The position's part of a tick.
#[tactic(auto, unfolding(position::specs::Program::tick_position))]
pub fn tick(here: Here, value: Option<i16>, position: Position) -> Position
    ensures { result ≡ tick_position here value position }
{
    if position.mode != 1 {
        return position;
    }
    let after = second(here, position);
    if leaves(here, value, after) {
        return next(here, after);
    }
    after
}

// Feed: next; mode 3 if endless.
#[tactic(auto, unfolding(position::specs::Command::feed_position))]
pub fn feed(here: Here, position: Position) -> Position
    ensures { result ≡ feed_position here position }
{
    if here.endless {
        return ended(position);
    }
    next(here, position)
}
