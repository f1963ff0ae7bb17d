// A command on a position: its refusals, 26 to 30, or where it goes.
ghost use Rattle.std.specs.Prelude.{◌≡◌, true};
ghost use Rattle.position.specs.Program.{first_at};
ghost use Rattle.position.specs.Command.{takes_of, selects_of, start_position, pause_position, back_position};
ghost use Rattle.plain.specs.Refusals.{command_move};
ghost use Rattle.position.specs.declared.Command.{Command};
ghost use Rattle.command.specs.Moves.{Takes};

use crate::shift::{minus, plus};
use plain::Refusal;
use position::{Command, Here, Position};
use retained::stopped;
use setting::Settings;

// Whether a command selects no pattern outside 1 to n.
fn selects(settings: Settings, pressed: Command) -> bool
    ensures { result ≡ selects_of settings pressed }
{
    match pressed {
        Command::Select(q) => (1 <= q) & (q <= settings.patterns as i32),
        _ => true,
    }
}

// Whether a mode takes a command.
#[tactic(auto, unfolding(position::specs::Command::takes_of, position::specs::Tests::either))]
fn takes(pressed: Command, mode: u8) -> bool
    ensures { result ≡ takes_of pressed mode }
{
    match pressed {
        Command::Select(_) | Command::Start => matches!(mode, 0 | 3),
        Command::Reset => matches!(mode, 1 | 2 | 3),
        Command::Pause | Command::Feed | Command::Back | Command::Plus | Command::Minus => {
            matches!(mode, 1 | 2)
        }
    }
}

// Start, from base b: at step 1, but under start choice 0 without the timer at step 2, and a one-step pattern is then at its end.
#[tactic(auto, unfolding(position::specs::Command::start_position, position::specs::Tests::either))]
fn started(bank: &[u8], settings: Settings, position: Position, b: i16) -> Position
    ensures { result ≡ start_position settings (first_at bank.now settings position) position b }
{
    let begun = Position {
        mode: 1,
        base: b,
        ..stopped(position.pattern)
    };
    if settings.start != 0 {
        return begun;
    }
    let first = program::here_at(bank, settings, position.pattern, 1, 1);
    if first.timer {
        return begun;
    }
    if 1 < first.count {
        return Position { step: 2, ..begun };
    }
    Position {
        mode: 3,
        base: 0,
        ..begun
    }
}

// Start: 28 for a pattern with no step, 29 for start choice 0 with no filtered value.
fn start(
    bank: &[u8],
    settings: Settings,
    here: Here,
    value: Option<i16>,
    position: Position,
) -> Result<Position, Refusal>
    requires { takes_of Command.Start position.mode ≡ true }
    ensures { result ≡ command_move settings here (first_at bank.now settings position) value position Command.Start }
{
    if here.count == 0 {
        return Err(Refusal::NoStep);
    }
    let base = if settings.start == 0 {
        value.ok_or(Refusal::NoValue)?
    } else {
        settings.initial
    };
    Ok(started(bank, settings, position, base))
}

// Pause.
#[tactic(auto, unfolding(position::specs::Command::pause_position))]
fn paused(position: Position) -> Position
    ensures { result ≡ pause_position position }
{
    let mode = if position.mode == 1 { 2 } else { 1 };
    Position { mode, ..position }
}

// Back.
#[tactic(auto, unfolding(position::specs::Command::back_position))]
fn back(here: Here, position: Position) -> Position
    ensures { result ≡ back_position here position }
{
    let value = ramp::set_value(here, position);
    let begun = Position {
        elapsed: 0,
        waited: 0,
        ..position
    };
    if position.step <= 1 {
        return begun;
    }
    Position {
        step: position.step - 1,
        base: value,
        ..begun
    }
}

// What a command does in a mode that takes it.
fn taken(
    bank: &[u8],
    settings: Settings,
    here: Here,
    value: Option<i16>,
    position: Position,
    pressed: Command,
) -> Result<Position, Refusal>
    requires { Takes settings position pressed }
    ensures { result ≡ command_move settings here (first_at bank.now settings position) value position pressed }
{
    match pressed {
        Command::Select(q) => Ok(stopped(q as u8)),
        Command::Start => start(bank, settings, here, value, position),
        Command::Pause => Ok(paused(position)),
        Command::Reset => Ok(stopped(position.pattern)),
        Command::Feed => Ok(time::feed(here, position)),
        Command::Back => Ok(back(here, position)),
        Command::Plus => plus(here, position),
        Command::Minus => minus(here, position),
    }
}

// A command: 26, then 27 for a mode not listed for it, then what it does there.
#[tactic(auto, unfolding(plain::specs::Refusals::command_move))]
pub fn command(
    bank: &[u8],
    settings: Settings,
    here: Here,
    value: Option<i16>,
    position: Position,
    pressed: Command,
) -> Result<Position, Refusal>
    ensures { result ≡ command_move settings here (first_at bank.now settings position) value position pressed }
{
    if !selects(settings, pressed) {
        return Err(Refusal::NoPattern);
    }
    if !takes(pressed, position.mode) {
        return Err(Refusal::WrongMode);
    }
    taken(bank, settings, here, value, position, pressed)
}
