// Answers as numbers: the document's number of an answer, and the values of a bank's refusal.
#![tactic(auto)]

ghost use Rattle.std.specs.Prelude.{◌≡◌, pos, get_or};
ghost use Rattle.setting.specs.Found.{numbers_of as bank_numbers};
ghost use Rattle.plain.specs.Answer.{numbers_of};
ghost use Rattle.answer.specs.Numbers.{number_and_values};

use plain::AnyRefusal;
use position::Shown;
use setting::BankRefusal;

// The document's number (a number in the C interface), 0 if accepted, and its values, 0 where it has none; how many numbers that are.
#[derive(Clone, Copy)]
pub struct Numbers {
    pub number: u8,
    pub first: u16,
    pub second: u8,
    pub count: usize,
}

// A number with no values.
fn alone(number: u8) -> Numbers
    ensures { result ≡ record { number = number; first = 0; second = 0; count = 1 } }
{
    Numbers {
        number,
        first: 0,
        second: 0,
        count: 1,
    }
}

// A bank's refusal.
#[tactic(auto, unfolding(setting::specs::Found::numbers_of, crate::specs::Numbers::number_and_values))]
pub fn of_bank(refusal: BankRefusal) -> Numbers
    ensures { result ≡ number_and_values (bank_numbers (Err refusal)) }
{
    match refusal {
        BankRefusal::Short => alone(11),
        BankRefusal::Setting(offset) => Numbers {
            first: offset,
            count: 2,
            ..alone(12)
        },
        BankRefusal::Pair(pair) => Numbers {
            first: pair as u16,
            count: 2,
            ..alone(13)
        },
        BankRefusal::Body(pattern, step) => Numbers {
            number: 14,
            first: pattern as u16,
            second: step,
            count: 3,
        },
    }
}

// What the check of a bank finds.
#[tactic(auto, unfolding(setting::specs::Found::numbers_of, crate::specs::Numbers::number_and_values))]
pub fn of_checked(found: Result<(), BankRefusal>) -> Numbers
    ensures { result ≡ number_and_values (bank_numbers found) }
{
    match found {
        Ok(()) => alone(0),
        Err(refusal) => of_bank(refusal),
    }
}

// The number of an answer.
#[tactic(auto, using(crate::proofs::Laws::first), unfolding(plain::specs::Answer::numbers_of, plain::specs::Answer::number_of))]
pub fn number(answer: Result<Shown, AnyRefusal>) -> u8
    ensures { pos result ≡ get_or (numbers_of answer) 0 (pos 0) }
{
    match answer {
        Ok(_) => 0,
        Err(AnyRefusal::Bank(refusal)) => of_bank(refusal).number,
        Err(AnyRefusal::Own(refusal)) => refusal as u8,
    }
}
