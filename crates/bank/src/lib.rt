// The bank of patterns: its check, and what it says of one pattern or step. A read past the end of a bank gives 0, so no
// function here asks anything of its caller.
#![tactic(auto)]

ghost use Rattle.std.specs.Prelude.{◌≡◌};
ghost use Rattle.setting.specs.Found.{numbers_of};
ghost use Rattle.bank.specs.Check.{found_in};

pub use crate::body::{check_step, step_at};
pub use crate::view::place_of;
use setting::BankRefusal;

mod body;
mod pair;
mod view;

// A step as it stands in a bank.
#[derive(Clone, Copy, Default)]
pub struct Step {
    pub target: i16,
    pub minutes: u16, // 6,000 is endless
    pub wait: u8, // wait number: one out of range has a refusal, 14
    pub signals: [u8; 4], // time signals
}

// A step, with runs and count (s) of its pattern.
#[derive(Clone, Copy, Default)]
pub struct Place {
    pub step: Step,
    pub count: u8,
    pub runs: u8,
}

// The check of a bank: the first wrong field, in the order of the document.
pub fn check(bank: &[u8]) -> Result<(), BankRefusal>
    ensures { numbers_of result ≡ numbers_of (found_in bank.now) }
{
    body::check(bank)
}
