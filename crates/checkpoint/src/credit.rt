// The 99 credits of a record, four bytes each.
ghost use Rattle.std.specs.Prelude.{◌≡◌, ◌≤◌, length};
ghost use Rattle.std.proofs.lemmas.List.Edits.{sets};
ghost use Rattle.field.specs.Row.{row};
ghost use Rattle.plain.specs.Record.{credit_widths, alarms_from, credits_in};

use crate::{ALARMS, CREDITS};
use field::join4;
use std::array;

// The credits of a record all of whose credits are there: read without a test for each byte.
#[tactic(auto, unfolding(field::specs::Row::total, plain::specs::Record::widths_of, plain::specs::Record::credit_widths))]
fn all_credits(store: &[u8]) -> [u32; 99]
    requires { alarms_from ≤ length store.now }
    ensures { result ≡ credits_in store.now }
{
    let mut credits = [0; 99];
    for (i, credit) in credits.iter_mut().enumerate() {
        let at = CREDITS + 4 * i;
        *credit = join4(store[at], store[at + 1], store[at + 2], store[at + 3]);
    }
    credits
}

// The credits of a record. Bytes past the end read as 0.
#[tactic(auto, unfolding(field::specs::Row::total, plain::specs::Record::widths_of, plain::specs::Record::credit_widths))]
pub fn credits(store: &[u8]) -> [u32; 99]
    ensures { result ≡ credits_in store.now }
{
    if ALARMS <= store.len() {
        return all_credits(store);
    }
    array::from_fn(|i| field::long(store, CREDITS + 4 * i))
}

// The credits are written.
#[tactic(auto, unfolding(field::specs::Row::total, plain::specs::Record::widths_of, plain::specs::Record::credit_widths))]
pub fn put_credits(store: &mut [u8], credits: [u32; 99])
    requires { alarms_from ≤ length store.old }
    ensures { store.new ≡ sets store.old 15 (row credit_widths credits) }
{
    for (i, credit) in credits.iter().enumerate() {
        stored::put(store, CREDITS + 4 * i, 4, u64::from(*credit));
    }
}
