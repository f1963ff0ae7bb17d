// What a bank says at a position.
ghost use Rattle.std.specs.Prelude.{◌≡◌};
ghost use Rattle.bank.specs.View.{place_of};
ghost use Rattle.position.specs.Tests.{numbered};
ghost use Rattle.position.specs.Program.{limit_of, is_timer, here_at};
ghost use Rattle.position.specs.After.{here_after};

use position::{Here, Position};
use setting::Settings;

// Entry i of four, counted from 1; 0 for any other number.
#[tactic(auto, unfolding(position::specs::Tests::numbered))]
pub fn entry(xs: [u16; 4], i: u8) -> u16
    ensures { result ≡ numbered xs i }
{
    match i {
        1..=4 => xs[i as usize - 1],
        _ => 0,
    }
}

// The limit of passes: runs, or 9,999 for 0.
#[tactic(auto, unfolding(position::specs::Program::limit_of))]
fn limit(runs: u8) -> u16
    ensures { result ≡ limit_of runs }
{
    if runs == 0 { 9999 } else { runs as u16 }
}

// Whether a step with a target is the timer, in a pass.
#[tactic(auto, unfolding(position::specs::Tests::both, position::specs::Tests::all, position::specs::Tests::zero_z, position::specs::Tests::same_z, position::specs::Program::is_timer))]
fn is_timer(settings: Settings, target: i16, step: u8, pass: u16) -> bool
    ensures { result ≡ is_timer settings target step pass }
{
    (settings.start == 0) & (step == 1) & (pass == 1) & (target == settings.low)
}

// What a bank says at a pattern and step, in a pass, with its settings. In the timer the wait number is read as 0.
#[tactic(auto, unfolding(position::specs::Program::here_by, position::specs::Program::here_at))]
pub fn here_at(bank: &[u8], settings: Settings, pattern: u8, step: u8, pass: u16) -> Here
    ensures { result ≡ here_at settings (place_of bank.now pattern step) step pass }
{
    let place = bank::place_of(bank, pattern, step);
    let found = place.step;
    let timer = is_timer(settings, found.target, step, pass);
    let number = if timer { 0 } else { found.wait };
    let signals = found.signals; // the check takes an array from field to field by a variable only
    Here {
        target: found.target,
        endless: found.minutes == 6000,
        time: 60 * found.minutes as u32,
        timer,
        number,
        zone: entry(settings.zones, number),
        wait: 60 * entry(settings.waits, number) as u32,
        signals,
        count: place.count,
        limit: limit(place.runs),
    }
}

// What is said at a position, where it is known at another: the bank is read only if pattern, step or pass differ.
#[tactic(auto, unfolding(position::specs::Tests::either, position::specs::After::moved, position::specs::After::here_after))]
pub fn here_after(
    bank: &[u8],
    settings: Settings,
    here: Here,
    before: Position,
    position: Position,
) -> Here
    ensures { result ≡ here_after bank.now settings here before position }
{
    let moved = (before.pattern != position.pattern)
        | (before.step != position.step)
        | (before.pass != position.pass);
    if moved {
        return here_at(
            bank,
            settings,
            position.pattern,
            position.step,
            position.pass,
        );
    }
    here
}
