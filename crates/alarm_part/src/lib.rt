// The alarms' part of the record: alarm by alarm, flags and delay count, low byte first.
#![tactic(auto)]

ghost use Rattle.std.specs.Prelude.{◌≡◌, ◌<◌};
ghost use Rattle.field.specs.Row.{row, stored_row};
ghost use Rattle.alarm.specs.Part.{alarm_widths, alarm_numbers, alarm_at};
ghost use Rattle.plain.specs.Record.{alarms_in};

use alarm::{Alarm, Alarms};

// Where the record has its alarms, behind the position and the credits, and how many bytes they take.
pub const FROM: usize = 411;

pub const SIZE: usize = 4 * (1 + 2);

// The bytes of alarms.
#[tactic(auto, unfolding(field::specs::Row::row, field::specs::Field::digits))]
fn alarm_bytes(alarms: Alarms) -> [u8; 12]
    ensures { result ≡ row alarm_widths (alarm_numbers alarms) }
{
    let Alarms {
        first,
        second,
        third,
        fourth,
    } = alarms;
    let [first_low, first_high] = first.count.to_le_bytes();
    let [second_low, second_high] = second.count.to_le_bytes();
    let [third_low, third_high] = third.count.to_le_bytes();
    let [fourth_low, fourth_high] = fourth.count.to_le_bytes();
    [
        first.flags,
        first_low,
        first_high,
        second.flags,
        second_low,
        second_high,
        third.flags,
        third_low,
        third_high,
        fourth.flags,
        fourth_low,
        fourth_high,
    ]
}

// Alarms are written at an offset of a buffer that has room for them there; any other is left as it was.
#[tactic(auto, unfolding(field::specs::Row::total, field::specs::Row::stored_row))]
pub fn write_alarms(bytes: &mut [u8], at: usize, alarms: Alarms)
    ensures { bytes.new ≡ stored_row alarm_widths bytes.old at (alarm_numbers alarms) }
{
    stored::put_bytes(bytes, at, &alarm_bytes(alarms));
}

// The alarm at an offset of a record, and the alarms that it holds. Bytes past the end read as 0.
fn read_alarm(store: &[u8], at: usize) -> Alarm
    requires { at < 1000 }
    ensures { result ≡ alarm_at store.now at }
{
    Alarm {
        flags: field::byte(store, at),
        count: field::word(store, at + 1),
    }
}

#[tactic(auto, unfolding(field::specs::Row::total, alarm::specs::Part::alarms_at, plain::specs::Record::widths_of, plain::specs::Record::credit_widths, plain::specs::Record::alarms_in))]
pub fn read_alarms(store: &[u8]) -> Alarms
    ensures { result ≡ alarms_in store.now }
{
    Alarms {
        first: read_alarm(store, FROM),
        second: read_alarm(store, FROM + 3),
        third: read_alarm(store, FROM + 6),
        fourth: read_alarm(store, FROM + 9),
    }
}
