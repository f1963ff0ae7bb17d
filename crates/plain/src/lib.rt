// What the controller's definitions speak of: a run, what an event does to it, and what it is refused for. There is no code here.
#![tactic(auto)]

use alarm::{AlarmSettings, Alarms};
use measure::{Measured, Reading};
use position::{Command, Position, Shown};
use setting::BankRefusal;

// The settings that go beside the bank.
#[derive(Clone, Copy)]
pub struct Config {
    pub alarms: AlarmSettings,
}

// What an event moves.
#[derive(Clone, Copy)]
pub struct Run {
    pub position: Position,
    pub unsaved: u8, // u, ticks since the last save
    pub measured: Measured,
    pub alarms: Alarms,
}

// The events.
#[derive(Clone, Copy)]
pub enum Event {
    Tick(Reading),
    Press(Command),
    Cut,
    Return(Reading),
}

// What an event does to the credits: nothing, one more to a step, all to 0, or all as the record has them.
#[derive(Clone, Copy)]
pub enum Credit {
    Keep,
    Cook(u8),
    Clear,
    Restore,
}

// The controller's own refusals, with the document's number of each, which `number_of` gives too.
#[derive(Clone, Copy)]
pub enum Refusal {
    Unsound = 21,
    Buffer = 22,
    AlarmSetting = 41,
    PowerOff = 23,
    PowerOn = 24,
    Outside = 25,
    NoPattern = 26,
    WrongMode = 27,
    NoStep = 28,
    NoValue = 29,
    Stuck = 30,
    Unreadable = 31,
}

// What a call is refused for: the bank, or a refusal of the controller's own. `numbers_of` gives the document's number and values of each case.
#[derive(Clone, Copy)]
pub enum AnyRefusal {
    Bank(BankRefusal),
    Own(Refusal),
}

// What an event does: the power and the run that it leaves, what it does to the credits, whether it saves, and its answer.
#[derive(Clone, Copy)]
pub struct Effect {
    pub power: bool,
    pub run: Run,
    pub credit: Credit,
    pub saves: bool,
    pub answer: Result<Shown, AnyRefusal>,
}
