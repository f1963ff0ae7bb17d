// What a judged tick makes of one alarm. Values are taken in 32 bits: a difference of two temperatures, and a bound with C, may pass 16.
ghost use Rattle.std.specs.Prelude.{◌≡◌, pos, ◌+ℤ◌, ◌-ℤ◌};
ghost use Rattle.std.specs.Int.Signed.{le_z};
ghost use Rattle.alarm.specs.Alarm.{judged_value, condition, flags_of, holds_at, waits, on_after, alarm_after, judged_by};
ghost use Rattle.alarm.specs.Idle.{is_idle};

use alarm::{Alarm, AlarmSetting};

// Whether no tick moves an alarm: it is of kind 0 without standby, and cleared.
#[tactic(auto, unfolding(position::specs::Tests::both, position::specs::Tests::all, alarm::specs::Idle::is_clear, alarm::specs::Idle::is_idle))]
pub fn idle(setting: AlarmSetting, alarm: Alarm) -> bool
    ensures { result ≡ is_idle setting alarm }
{
    (setting.kind == 0) & (setting.flags / 2 % 2 != 1) & (alarm.flags == 0) & (alarm.count == 0)
}

// Whether a value is at least a bound less the widening.
fn at_least(bound: i16, widening: u16, value: i32) -> bool
    ensures { result ≡ le_z (bound -ℤ pos widening) value }
{
    bound as i32 - widening as i32 <= value
}

// Whether a value is at most a bound and the widening.
fn at_most(bound: i16, widening: u16, value: i32) -> bool
    ensures { result ≡ le_z value (bound +ℤ pos widening) }
{
    value <= bound as i32 + widening as i32
}

// The value that an alarm judges.
#[tactic(auto, unfolding(alarm::specs::Alarm::judged_value))]
fn judged_value(setting: AlarmSetting, whole: i16, set: i16) -> i32
    ensures { result ≡ judged_value setting whole set }
{
    if setting.kind <= 4 {
        whole as i32 - set as i32
    } else {
        whole as i32
    }
}

// Whether an alarm's condition is true of a value.
#[tactic(auto, unfolding(position::specs::Tests::within, position::specs::Tests::both, position::specs::Tests::either, alarm::specs::Alarm::condition))]
fn is_true(setting: AlarmSetting, widening: u16, value: i32) -> bool
    ensures { result ≡ condition setting widening value }
{
    let over = at_least(setting.high, widening, value);
    let under = at_most(setting.low, widening, value);
    match setting.kind {
        1 | 5 => over | under,
        2 | 6 => over,
        3 | 7 => under,
        4 | 8 => at_least(setting.low, widening, value) & at_most(setting.high, widening, value),
        _ => false,
    }
}

// The condition, once on with C.
#[tactic(auto, unfolding(alarm::specs::Alarm::holds_at))]
fn holds_at(setting: AlarmSetting, alarm: Alarm, value: i32) -> bool
    ensures { result ≡ holds_at setting alarm value }
{
    let widening = if alarm.flags % 2 == 1 {
        setting.sensitivity
    } else {
        0
    };
    is_true(setting, widening, value)
}

// Whether standby waits.
#[tactic(auto, unfolding(position::specs::Tests::both, alarm::specs::Alarm::waits))]
fn is_waiting(setting: AlarmSetting, alarm: Alarm) -> bool
    ensures { result ≡ waits setting alarm }
{
    (setting.flags / 2 % 2 == 1) & (alarm.flags / 2 % 2 != 1)
}

// Whether an alarm is on after a tick whose condition is so.
#[tactic(auto, unfolding(position::specs::Tests::both, position::specs::Tests::either, alarm::specs::Alarm::on_after))]
fn on_after(setting: AlarmSetting, alarm: Alarm, test: bool) -> bool
    ensures { result ≡ on_after setting alarm test }
{
    if is_waiting(setting, alarm) {
        false
    } else if alarm.flags % 2 == 1 {
        test | (setting.flags % 2 == 1)
    } else {
        test & (setting.delay <= alarm.count)
    }
}

// A flag byte.
#[tactic(auto, unfolding(alarm::specs::Alarm::flags_of))]
fn flags_of(on: bool, passed: bool) -> u8
    ensures { result ≡ flags_of on passed }
{
    on as u8 + 2 * passed as u8
}

// An alarm after a tick whose condition is so.
#[tactic(auto, unfolding(position::specs::Tests::both, position::specs::Tests::either, alarm::specs::Alarm::waits, alarm::specs::Alarm::on_after, alarm::specs::Alarm::passed_after, alarm::specs::Alarm::count_after, alarm::specs::Alarm::alarm_after))]
fn alarm_after(setting: AlarmSetting, alarm: Alarm, test: bool) -> Alarm
    ensures { result ≡ alarm_after setting alarm test }
{
    let on = on_after(setting, alarm, test);
    let passed = (setting.flags / 2 % 2 == 1) & ((alarm.flags / 2 % 2 == 1) | !test);
    let flags = flags_of(on, passed);
    let is_counting = test & !is_waiting(setting, alarm) & !on;
    let count = if is_counting { alarm.count + 1 } else { 0 };
    Alarm { flags, count }
}

// An alarm judged by a measured whole value and a set value.
#[tactic(auto, unfolding(alarm::specs::Alarm::judged_by))]
pub fn judged_by(whole: i16, set: i16, setting: AlarmSetting, alarm: Alarm) -> Alarm
    ensures { result ≡ judged_by whole set setting alarm }
{
    let value = judged_value(setting, whole, set);
    alarm_after(setting, alarm, holds_at(setting, alarm, value))
}
