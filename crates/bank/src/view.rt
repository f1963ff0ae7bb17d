// What a bank says of a place: a step, and its pattern's runs and count.
ghost use Rattle.std.specs.Prelude.{◌≡◌, ◌+◌, ◌<◌};
ghost use Rattle.bank.specs.View.{step_at, steps_in, no_step, numbered, place_of};
ghost use Rattle.field.specs.Tab.{tab};

use crate::body::step_at;
use crate::pair::{body_of, has_pattern, steps_in};
use crate::{Place, Step};
use field::byte;

// Step k, counted from 1, of the steps that stand at an offset in a body of a length.
fn step_numbered(bank: &[u8], at: usize, len: usize, k: u8) -> Step
    requires { at < 100000 }
    ensures { result ≡ numbered no_step (tab (step_at bank.now) 9 at (steps_in len)) k }
{
    let k = k as usize;
    if (1..=steps_in(len)).contains(&k) {
        step_at(bank, at + 9 * (k - 1))
    } else {
        Step::default()
    }
}

// Step k of pattern p, both counted from 1, with runs and count of the pattern; all 0 for what is not there.
pub fn place_of(bank: &[u8], p: u8, k: u8) -> Place
    ensures { result ≡ place_of bank.now p k }
{
    if !has_pattern(bank, p) {
        return Place::default();
    }
    let body = body_of(bank, p);
    Place {
        step: step_numbered(bank, body.at + 2, body.len, k),
        count: byte(bank, body.at + 1),
        runs: byte(bank, body.at),
    }
}
