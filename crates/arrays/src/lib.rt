// A bank as arrays: what is written and what is read. There is no code here but a conversion.
#![tactic(auto)]

ghost use Rattle.std.specs.Prelude.{◌≡◌};
ghost use Rattle.arrays.specs.declared.WriteRefusal.{WriteRefusal};

use bank::Step;
use setting::{BankRefusal, Settings};

// The patterns of a bank, as document 01's writer takes them and the C header lays them out: runs and count (s) of each, and the steps,
// those of pattern 1 first.
#[derive(Clone, Copy)]
pub struct Patterns {
    pub runs: [u8; 15],
    pub counts: [u8; 15],
    pub steps: [Step; 99],
}

// A bank: its settings and patterns.
#[derive(Clone, Copy)]
pub struct Bank {
    pub settings: Settings,
    pub patterns: Patterns,
}

// Why no bank is written: its refusal, or a buffer that is too short. `written_numbers` gives the document's number and values of each case.
#[derive(Clone, Copy)]
pub enum WriteRefusal {
    Bank(BankRefusal),
    Full,
}

impl From<BankRefusal> for WriteRefusal {
    ghost from_gives = { λ refusal made. made ≡ WriteRefusal.Bank refusal };

    fn from(refusal: BankRefusal) -> WriteRefusal {
        WriteRefusal::Bank(refusal)
    }
}
