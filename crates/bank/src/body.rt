// The bodies of the patterns, and the check of a whole bank.
ghost use Rattle.std.specs.Prelude.{◌≡◌, ◌+◌, ◌≤◌, leb, eqb, length};
ghost use Rattle.std.specs.List.{list_all};
ghost use Rattle.field.specs.Field.{field};
ghost use Rattle.setting.specs.Found.{Accepted};
ghost use Rattle.limits.specs.Range.{both};
ghost use Rattle.bank.specs.View.{step_at, no_step, pattern_at};
ghost use Rattle.field.specs.Tab.{tab};
ghost use Rattle.bank.specs.Check.{step_right, pairs_found, bodies_found, of_length, found_in};

use crate::Step;
use crate::pair::{body_in, check_pairs, steps_in};
use field::{byte, join2, signed_of, word};
use integer::signed;
use limits::in_limits;
use setting::{BankRefusal, check_settings_in};

// The step at an offset, all of whose bytes are there.
fn step_in(bytes: &[u8], at: usize) -> Step
    requires { at + 9 ≤ length bytes.now }
    ensures { result ≡ step_at bytes.now at }
{
    Step {
        target: signed_of(join2(bytes[at], bytes[at + 1])),
        minutes: join2(bytes[at + 2], bytes[at + 3]),
        wait: bytes[at + 4],
        signals: [bytes[at + 5], bytes[at + 6], bytes[at + 7], bytes[at + 8]],
    }
}

// The step at an offset.
pub fn step_at(bytes: &[u8], at: usize) -> Step
    ensures { result ≡ step_at bytes.now at }
{
    if 9 <= bytes.len().saturating_sub(at) {
        return step_in(bytes, at);
    }
    let rest = &bytes[at.min(bytes.len())..];
    let mut nine = [0; 9];
    nine[..rest.len()].copy_from_slice(rest);
    step_in(&nine, 0)
}

// Whether each time signal is 0 to 5.
fn signals_right(signals: [u8; 4]) -> bool
    ensures { result ≡ list_all (λ x. leb x 5) signals }
{
    signals.iter().all(|x| *x <= 5)
}

// Whether a step is right, under the set value limits.
pub fn check_step(low: i16, high: i16, step: Step) -> bool
    ensures { result ≡ step_right low high step }
{
    in_limits(low, step.target, high)
        & ((step.minutes <= 6000) & ((step.wait <= 4) & signals_right(step.signals)))
}

// Whether the body at an offset has right runs, and the number of steps that its length gives.
fn body_right(bank: &[u8], at: usize, s: usize) -> bool
    requires { at + 2 ≤ length bank.now }
    ensures { result ≡ both (leb (field 1 bank.now at) 99) (eqb (field 1 bank.now (at + 1)) s) }
{
    (bank[at] <= 99) & (bank[at + 1] as usize == s)
}

// The bodies of n patterns, whose pairs are right: the first wrong field ends both loops, with its place.
fn check_bodies(bank: &[u8], n: u8, low: i16, high: i16) -> Result<(), BankRefusal>
    requires { pairs_found bank.now n ≡ Accepted }
    ensures { result ≡ bodies_found of_length low high 1 (tab (pattern_at bank.now) 1 1 n) }
{
    'walk: {
        for i in 0..n {
            let p = i + 1;
            let body = body_in(bank, p);
            let s = steps_in(body.len);
            if !body_right(bank, body.at, s) {
                break 'walk Err(BankRefusal::Body(p, 0));
            }
            for k in 0..s {
                if !check_step(low, high, step_in(bank, body.at + 2 + 9 * k)) {
                    break 'walk Err(BankRefusal::Body(p, (k + 1) as u8));
                }
            }
        }
        Ok(())
    }
}

// The check of a bank.
pub fn check(bank: &[u8]) -> Result<(), BankRefusal>
    ensures { result ≡ found_in bank.now }
{
    check_settings_in(bank)?;
    let n = byte(bank, 0);
    check_pairs(bank, n)?;
    check_bodies(bank, n, signed(bank, 3), signed(bank, 5))
}
