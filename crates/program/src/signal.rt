// The time signals, and what is shown of a position.
ghost use Rattle.std.specs.Prelude.{◌≡◌};
ghost use Rattle.position.specs.Program.{signal_of, signals_of, shown_of};

use crate::place::entry;
use position::{Here, Position, Shown, Signals};
use setting::Settings;

// Whether a time signal of number j is on.
#[tactic(auto, unfolding(position::specs::Tests::both, position::specs::Tests::either, position::specs::Program::active, position::specs::Program::signal_of))]
fn on(settings: Settings, position: Position, j: u8) -> bool
    ensures { result ≡ signal_of settings position j }
{
    let minute = position.elapsed / 60;
    let while_on = (entry(settings.on, j) as u32 <= minute)
        & (minute < entry(settings.off, j) as u32);
    matches!(position.mode, 1 | 2) & ((j == 5) | while_on)
}

// The four time signals.
#[tactic(auto, unfolding(position::specs::Program::signals_of))]
fn signals(settings: Settings, here: Here, position: Position) -> Signals
    ensures { result ≡ signals_of settings here position }
{
    let [first, second, third, fourth] = here.signals.map(|j| on(settings, position, j));
    Signals {
        first,
        second,
        third,
        fourth,
    }
}

// The set value and the signals.
#[tactic(auto, unfolding(position::specs::Program::shown_of))]
pub fn shown(settings: Settings, here: Here, position: Position) -> Shown
    ensures { result ≡ shown_of settings here position }
{
    Shown {
        value: ramp::set_value(here, position),
        signals: signals(settings, here, position),
    }
}
