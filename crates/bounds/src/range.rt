// Whether the settings of the alarms are in range.
ghost use Rattle.std.specs.Prelude.{◌≡◌, true};
ghost use Rattle.alarm.specs.Alarm.{in_range, all_in_range};
ghost use Rattle.alarm.specs.Idle.{unset, all_unset};

use alarm::{AlarmSetting, AlarmSettings};
use limits::is_temperature;

// Whether those of one are in range.
#[tactic(auto, unfolding(position::specs::Tests::both, position::specs::Tests::either, position::specs::Tests::all, alarm::specs::Alarm::in_range))]
fn is_in_range(setting: AlarmSetting) -> bool
    ensures { result ≡ in_range setting }
{
    let ordered = !matches!(setting.kind, 4 | 8) | (setting.low <= setting.high);
    (setting.kind <= 8)
        & is_temperature(setting.high)
        & is_temperature(setting.low)
        & (setting.sensitivity <= 9999)
        & (setting.delay <= 9999)
        & (setting.flags <= 3)
        & ordered
}

// Whether the numbers of one are all 0, tested one after the other: of a host without alarms none is missed.
fn is_unset(setting: AlarmSetting) -> bool
    ensures { result ≡ true → setting ≡ unset }
{
    setting.kind == 0
        && setting.high == 0
        && setting.low == 0
        && setting.sensitivity == 0
        && setting.delay == 0
        && setting.flags == 0
}

// Whether those of all are.
fn are_unset(settings: AlarmSettings) -> bool
    ensures { result ≡ true → settings ≡ all_unset }
{
    is_unset(settings.first)
        && is_unset(settings.second)
        && is_unset(settings.third)
        && is_unset(settings.fourth)
}

// Whether all are in range. If not, refusal 41.
#[tactic(auto, unfolding(position::specs::Tests::both, position::specs::Tests::all, alarm::specs::Alarm::all_in_range))]
pub fn in_range(settings: AlarmSettings) -> bool
    ensures { result ≡ all_in_range settings }
{
    if are_unset(settings) {
        return true;
    }
    is_in_range(settings.first)
        & is_in_range(settings.second)
        & is_in_range(settings.third)
        & is_in_range(settings.fourth)
}
