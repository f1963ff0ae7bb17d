// What an accepted event does to the credits and to the alarms; and what a return wants of the record's alarms.
ghost use Rattle.std.specs.Prelude.{◌≡◌, cond};
ghost use Rattle.position.specs.Command.{is_start};
ghost use Rattle.alarm.specs.Alarm.{all_clear};
ghost use Rattle.plain.specs.Run.{tick_credit, command_credit};
ghost use Rattle.effect.specs.Done.{credit_by, alarms_by, keeps_alarms, record_bounded};

use crate::Progress;
use alarm::Alarms;
use plain::{Config, Credit, Event};
use position::{Command, Here, Position};

// In mode 1 a tick is credited to its step.
#[tactic(auto, unfolding(plain::specs::Run::tick_credit))]
fn tick_credit(position: Position) -> Credit
    ensures { result ≡ tick_credit position }
{
    if position.mode == 1 {
        Credit::Cook(position.step)
    } else {
        Credit::Keep
    }
}

// A start clears the credits.
#[tactic(auto, using(crate::proofs::Laws::no_start), unfolding(position::specs::Command::is_start))]
fn command_credit(pressed: Command) -> Credit
    ensures { result ≡ command_credit pressed }
{
    if let Command::Start = pressed {
        Credit::Clear
    } else {
        Credit::Keep
    }
}

// What an event does to the credits; the position is that of before it.
pub fn credit_after(event: Event, before: Position) -> Credit
    ensures { result ≡ credit_by event before }
{
    match event {
        Event::Tick(_) => tick_credit(before),
        Event::Press(pressed) => command_credit(pressed),
        Event::Cut => Credit::Clear,
        Event::Return(_) => Credit::Restore,
    }
}

// A start clears flags and counts of the alarms.
#[tactic(auto, using(crate::proofs::Laws::no_start), unfolding(position::specs::Command::is_start))]
fn cleared_by(pressed: Command, alarms: Alarms) -> Alarms
    ensures { result ≡ cond (is_start pressed) all_clear alarms }
{
    if let Command::Start = pressed {
        bounds::cleared()
    } else {
        alarms
    }
}

// What an accepted event does to the alarms, by what it leaves: a tick judges them, any move to stopped clears them.
pub fn alarms_by(
    config: Config,
    there: Here,
    store: &[u8],
    event: Event,
    alarms: Alarms,
    progress: Progress,
) -> Alarms
    ensures { result ≡ alarms_by config there store.now event alarms progress.position progress.measured }
{
    let position = progress.position;
    match event {
        Event::Tick(_) => judge::tick(config.alarms, there, position, progress.measured, alarms),
        Event::Press(pressed) => bounds::kept_in(position.mode, cleared_by(pressed, alarms)),
        Event::Cut => bounds::cleared(),
        Event::Return(_) => bounds::kept_in(position.mode, alarm_part::read_alarms(store)),
    }
}

// Whether the alarms stay as they are: the event is a tick, and they are idle.
pub fn keeps(idle: bool, event: Event) -> bool
    ensures { result ≡ keeps_alarms idle event }
{
    matches!(event, Event::Tick(_)) & idle
}

// Whether the alarms that the record holds are within their bounds.
pub fn is_bounded(config: Config, store: &[u8]) -> bool
    ensures { result ≡ record_bounded config store.now }
{
    let position = checkpoint::read_position(store);
    let alarms = alarm_part::read_alarms(store);
    bounds::within_bounds(config.alarms, position.mode, alarms)
}
