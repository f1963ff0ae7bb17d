// The settings of a bank: their reader and their check. A read past the end of a bank gives 0, so no function here asks anything of its
// caller.
#![tactic(auto)]

ghost use Rattle.std.specs.Prelude.{◌≡◌};
ghost use Rattle.setting.specs.Found.{numbers_of};
ghost use Rattle.setting.specs.Setting.{settings_found, settings_in};

pub use crate::reading::read_settings;

mod bytes;
mod judging;
mod range;
mod reading;

// What is wrong with a bank: the first wrong field. `numbers_of` gives the document's number and values of each case.
#[derive(Clone, Copy)]
pub enum BankRefusal {
    Short,
    Setting(u16),
    Pair(u8),
    Body(u8, u8),
}

// The settings as they stand in a bank.
#[derive(Clone, Copy)]
pub struct Settings {
    pub patterns: u8, // n
    pub start: u8, // start choice: 0 from measured value, 1 from start value; a number, since one out of range has a refusal, 12
    pub outage: u8, // outage choice: 0 stop, 1 hold, 2 continue; a number, for the same reason
    pub low: i16, // SLL
    pub high: i16, // SLH
    pub initial: i16, // start value
    pub width: u16, // outage width
    pub filter: u16, // filter constant F
    pub zones: [u16; 4], // wait zones
    pub waits: [u16; 4], // wait minutes
    pub on: [u16; 4], // on minutes
    pub off: [u16; 4], // off minutes
}

// The first wrong one of settings.
pub fn check_settings(settings: Settings) -> Result<(), BankRefusal>
    ensures { numbers_of result ≡ numbers_of (settings_found settings) }
{
    judging::check(settings)
}

// The first wrong one of the settings of a bank, if it has all of them.
pub fn check_settings_in(bank: &[u8]) -> Result<(), BankRefusal>
    ensures { numbers_of result ≡ numbers_of (settings_in bank.now) }
{
    if bank.len() < 45 {
        return Err(BankRefusal::Short);
    }
    judging::check(reading::settings_in(bank))
}
