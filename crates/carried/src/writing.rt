// A state's numbers, each written in its place: power, the record's, u and the measured value.
ghost use Rattle.std.specs.Prelude.{◌≡◌, drop};
ghost use Rattle.std.proofs.lemmas.List.Edits.{sets};
ghost use Rattle.field.specs.Row.{row};
ghost use Rattle.plain.specs.Record.{credit_widths, record_of, credits_in};
ghost use Rattle.plain.specs.Run.{cooked};
ghost use Rattle.calls.specs.Carried.{rest_from};
ghost use Rattle.carried.specs.Bytes.{rest_bytes, retained_bytes};

use crate::value::kind_and_bits;
use crate::{ALARMS, CREDITS, REST, SIZE};
use alarm::Alarms;
use field::long;
use plain::{Credit, Run};
use position::Position;
use run::{one_more, place_of};

// Position, credits and alarms, in their place.
pub fn put_record(bytes: &mut [u8; SIZE], position: Position, credits: [u32; 99], alarms: Alarms)
    ensures { bytes.new ≡ sets bytes.old 1 (record_of (record { position = position; credits = credits; alarms = alarms })) }
{
    checkpoint::write(&mut bytes[1..REST], position, credits, alarms);
}

// The credit of step k gains 1, and no other is touched: `effect::settle` in bytes, so that 98 credits need not be read and written again.
fn cook(bytes: &mut [u8; SIZE], k: u8)
    ensures { bytes.new ≡ sets bytes.old 16 (row credit_widths (cooked (credits_in (drop 1 bytes.old)) k)) }
{
    let place = place_of(k);
    if place < 99 {
        let at = CREDITS + 4 * place;
        let credit = one_more(long(bytes, at));
        stored::put(bytes, at, 4, u64::from(credit));
    }
}

// The position, what becomes of the credits, and the alarms.
pub fn put_retained(
    bytes: &mut [u8; SIZE],
    store: &[u8],
    position: Position,
    credit: Credit,
    alarms: Alarms,
)
    ensures { bytes.new ≡ sets bytes.old 1 (retained_bytes position credit alarms store.now bytes.old) }
{
    match credit {
        Credit::Keep => {
            checkpoint::write_position(bytes, 1, position);
            alarm_part::write_alarms(bytes, ALARMS, alarms);
        }
        Credit::Cook(k) => {
            checkpoint::write_position(bytes, 1, position);
            cook(bytes, k);
            alarm_part::write_alarms(bytes, ALARMS, alarms);
        }
        Credit::Clear => put_record(bytes, position, [0; 99], alarms),
        Credit::Restore => put_record(bytes, position, checkpoint::read_credits(store), alarms),
    }
}

// u and the measured value, in their place.
pub fn put_rest(bytes: &mut [u8; SIZE], run: Run)
    ensures { bytes.new ≡ sets bytes.old rest_from (rest_bytes run) }
{
    let (kind, bits) = kind_and_bits(run.measured);
    bytes[REST] = run.unsaved;
    bytes[REST + 1] = kind;
    stored::put(bytes, REST + 2, 8, bits);
}
