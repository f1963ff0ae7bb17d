// A result of the library as one number: the document's number, its two values, the set value and the four signals.
#![tactic(auto)]

ghost use Rattle.std.specs.Prelude.{◌≡◌, ◌+◌, ◌*◌, ◌<◌, Ok};
ghost use Rattle.setting.specs.Found.{numbers_of as bank_numbers};
ghost use Rattle.arrays.specs.Write.{written_numbers};
ghost use Rattle.calls.specs.Result.{packed, signal_bits, result_of};

use answer::Numbers;
use arrays::WriteRefusal;
use plain::AnyRefusal;
use position::{Shown, Signals};
use setting::BankRefusal;

// A number and its values.
fn packed_of(numbers: Numbers) -> u64
    ensures { result ≡ numbers.number + 256 * numbers.first + 16777216 * numbers.second }
{
    u64::from(numbers.number) + (u64::from(numbers.first) << 8) + (u64::from(numbers.second) << 24)
}

// What the check of a bank finds.
#[tactic(auto, unfolding(calls::specs::Result::packed, answer::specs::Numbers::number_and_values))]
pub fn of_checked(found: Result<(), BankRefusal>) -> u64
    ensures { result ≡ packed (bank_numbers found) }
{
    packed_of(answer::of_checked(found))
}

// What writing a bank gives.
#[tactic(auto, unfolding(calls::specs::Result::packed, answer::specs::Numbers::number_and_values, arrays::specs::Write::written_numbers))]
pub fn of_written(written: Result<u16, WriteRefusal>) -> u64
    ensures { result ≡ packed (written_numbers written) }
{
    match written {
        Ok(length) => u64::from(length) << 8,
        Err(WriteRefusal::Bank(refusal)) => packed_of(answer::of_bank(refusal)),
        Err(WriteRefusal::Full) => 15,
    }
}

// The four signals as four bits.
#[tactic(auto, unfolding(calls::specs::Result::signal_bits))]
fn signal_bits(signals: Signals) -> u64
    ensures bits { result ≡ signal_bits signals }
    ensures few { result < 16 }
{
    u64::from(signals.first)
        + (u64::from(signals.second) << 1)
        + (u64::from(signals.third) << 2)
        + (u64::from(signals.fourth) << 3)
}

// What is shown: the set value above bit 31, the signals above bit 47.
#[tactic(auto, unfolding(calls::specs::Result::result_of))]
fn of_shown(shown: Shown) -> u64
    ensures { result ≡ result_of (Ok shown) }
{
    (u64::from(shown.value.cast_unsigned()) << 32) + (signal_bits(shown.signals) << 48)
}

// An answer: what is shown if it is accepted.
#[tactic(auto, unfolding(calls::specs::Result::packed, calls::specs::Result::result_of, answer::specs::Numbers::number_and_values, plain::specs::Answer::numbers_of))]
pub fn of_answer(answer: Result<Shown, AnyRefusal>) -> u64
    ensures { result ≡ result_of answer }
{
    match answer {
        Ok(shown) => of_shown(shown),
        Err(AnyRefusal::Bank(refusal)) => packed_of(answer::of_bank(refusal)),
        Err(AnyRefusal::Own(_)) => u64::from(answer::number(answer)),
    }
}
