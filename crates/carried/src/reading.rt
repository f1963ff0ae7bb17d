// The state that bytes are.
ghost use Rattle.std.specs.Prelude.{◌≡◌};
ghost use Rattle.calls.specs.Carried.{state_in, bits_right, is_state};

use crate::value::measured_as;
use crate::{REST, SIZE};
use field::{byte, quad};
use plain::Run;
use std::num::f64_from_bits_with_nan;

// The run.
pub fn run_in(bytes: &[u8; SIZE]) -> Run
    ensures { result ≡ (state_in bytes.now).run }
{
    let record = &bytes[1..]; // behind the byte of power
    Run {
        position: checkpoint::read_position(record),
        unsaved: byte(bytes, REST),
        measured: measured_as(byte(bytes, REST + 1), quad(bytes, REST + 2)),
        alarms: alarm_part::read_alarms(record),
    }
}

// Whether the bits of y are right: no NaN's with a value, 0 without one.
#[tactic(auto, unfolding(calls::specs::Carried::bits_right))]
fn bits_right(kind: u8, bits: u64) -> bool
    ensures { result ≡ bits_right kind bits }
{
    if kind == 3 {
        return !f64_from_bits_with_nan(bits).is_nan();
    }
    bits == 0
}

// Whether bytes of a state's size are a state: power, kind, y.
#[tactic(auto, unfolding(calls::specs::Carried::is_state, calls::specs::Carried::roomy, position::specs::Tests::both, field::specs::Row::total, plain::specs::Record::widths_of, plain::specs::Record::credit_widths))]
pub fn is_state(bytes: &[u8; SIZE]) -> bool
    ensures { result ≡ is_state bytes.now }
{
    byte(bytes, 0) <= 1
        && byte(bytes, REST + 1) <= 3
        && bits_right(byte(bytes, REST + 1), quad(bytes, REST + 2))
}
