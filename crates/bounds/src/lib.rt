// Alarms cleared and kept, and whether they are within their bounds; whether their settings are in range. Tests are joined by `&` and `|`, which have
// no branch.
#![tactic(auto)]

ghost use Rattle.std.specs.Prelude.{◌≡◌};
ghost use Rattle.alarm.specs.Alarm.{all_clear, kept_in, bounded, all_bounded};
ghost use Rattle.alarm.specs.Idle.{is_clear, all_are_clear};

use alarm::{Alarm, AlarmSetting, AlarmSettings, Alarms};

mod range;

pub use range::in_range;

// Flags and counts cleared, as by a start.
pub fn cleared() -> Alarms
    ensures { result ≡ all_clear }
{
    let clear = Alarm { flags: 0, count: 0 };
    Alarms {
        first: clear,
        second: clear,
        third: clear,
        fourth: clear,
    }
}

// What a move to a mode leaves: one to stopped clears.
#[tactic(auto, unfolding(alarm::specs::Alarm::kept_in))]
pub fn kept_in(mode: u8, alarms: Alarms) -> Alarms
    ensures { result ≡ kept_in mode alarms }
{
    if mode == 0 { cleared() } else { alarms }
}

// Whether an alarm is cleared.
#[tactic(auto, unfolding(position::specs::Tests::both, alarm::specs::Idle::is_clear))]
fn is_clear(alarm: Alarm) -> bool
    ensures { result ≡ is_clear alarm }
{
    (alarm.flags == 0) & (alarm.count == 0)
}

// Whether all are.
#[tactic(auto, unfolding(position::specs::Tests::both, position::specs::Tests::all, alarm::specs::Idle::all_are_clear))]
pub fn are_clear(alarms: Alarms) -> bool
    ensures { result ≡ all_are_clear alarms }
{
    is_clear(alarms.first)
        & is_clear(alarms.second)
        & is_clear(alarms.third)
        & is_clear(alarms.fourth)
}

// Whether an alarm is within its bounds.
#[tactic(auto, unfolding(position::specs::Tests::both, position::specs::Tests::either, position::specs::Tests::all, alarm::specs::Idle::is_clear, alarm::specs::Alarm::bounded))]
fn is_bounded(mode: u8, setting: AlarmSetting, alarm: Alarm) -> bool
    ensures { result ≡ bounded mode setting alarm }
{
    let has_standby = setting.flags / 2 % 2 == 1;
    let flags = if has_standby {
        alarm.flags != 1
    } else {
        alarm.flags <= 1
    };
    (alarm.flags <= 3) & flags & (alarm.count <= setting.delay) & ((mode != 0) | is_clear(alarm))
}

// Whether all are. Cleared alarms are, whatever the settings and the mode.
#[tactic(auto, unfolding(position::specs::Tests::both, position::specs::Tests::all, alarm::specs::Alarm::all_bounded), using(alarm::proofs::Short::clear_within))]
pub fn within_bounds(settings: AlarmSettings, mode: u8, alarms: Alarms) -> bool
    ensures { result ≡ all_bounded settings mode alarms }
{
    if are_clear(alarms) {
        return true;
    }
    is_bounded(mode, settings.first, alarms.first)
        & is_bounded(mode, settings.second, alarms.second)
        & is_bounded(mode, settings.third, alarms.third)
        & is_bounded(mode, settings.fourth, alarms.fourth)
}
