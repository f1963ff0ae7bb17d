// What an event does to a run; and a list of events run from making on. Each call checks the bank.
#![tactic(auto)]

ghost use Rattle.std.specs.Prelude.{◌≡◌};
ghost use Rattle.plain.specs.Setup.{over};
ghost use Rattle.plain.specs.Event.{final};
ghost use Rattle.plain.specs.Listed.{events_in};
ghost use Rattle.making.specs.Ran.{after_ran};

pub use crate::credits::settle;
pub use crate::events::event;
use alarm::Alarms;
use making::Ran;
use measure::Measured;
use plain::{Config, Refusal};
use position::{Here, Position};

mod answers;
mod beside;
mod credits;
mod events;
mod list;
mod press;
mod restore;
mod tick;

// A run without its alarms.
#[derive(Clone, Copy)]
struct Progress {
    position: Position,
    unsaved: u8, // u, ticks since the last save
    measured: Measured,
}

// What an accepted event does, without what it shows and what becomes of credits and alarms.
#[derive(Clone, Copy)]
struct Done {
    power: bool,
    progress: Progress,
    saves: bool,
}

// What goes from one event of a list to the next; `here` is what is said at the position.
#[derive(Clone, Copy)]
struct Moved {
    progress: Progress,
    alarms: Alarms,
    here: Here,
    power: bool,
    idle: bool, // whether no tick moves the alarms
    verdict: Result<(), Refusal>,
}

// A controller is made, and a list of events, five bytes each, is run by it: what the last event leaves, or making if it is refused or there is
// no event. The bank is checked once.
pub fn run(bank: &[u8], config: Config, store: &mut [u8], bytes: &[u8]) -> Ran
    ensures { after_ran result store.new ≡ final (over bank.now config) store.old (events_in bytes.now) }
{
    let made = making::make(bank, config, store);
    match made.answer {
        Ok(_) => list::run_from(bank, config, store, made, bytes),
        Err(_) => made,
    }
}
