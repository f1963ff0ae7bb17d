// What a tick makes of the alarms. Tests are joined by `&` and `|`, which have no branch.
#![tactic(auto)]

ghost use Rattle.std.specs.Prelude.{◌≡◌};
ghost use Rattle.measure.specs.Filter.{whole_of};
ghost use Rattle.position.specs.Program.{set_value_of};
ghost use Rattle.alarm.specs.Alarm.{all_judged, tick_alarms};
ghost use Rattle.alarm.specs.Idle.{all_idle};

use crate::one::judged_by;
use alarm::{AlarmSettings, Alarms};
use measure::{Measured, whole_value};
use position::{Here, Position};
use ramp::set_value;

mod one;

// Whether no tick moves the alarms: all are of kind 0 without standby, and cleared.
#[tactic(auto, unfolding(position::specs::Tests::both, position::specs::Tests::all, alarm::specs::Idle::all_idle))]
pub fn idle(settings: AlarmSettings, alarms: Alarms) -> bool
    ensures { result ≡ all_idle settings alarms }
{
    one::idle(settings.first, alarms.first)
        & one::idle(settings.second, alarms.second)
        & one::idle(settings.third, alarms.third)
        & one::idle(settings.fourth, alarms.fourth)
}

// All four, judged.
fn all_judged(settings: AlarmSettings, whole: i16, set: i16, alarms: Alarms) -> Alarms
    ensures { result ≡ all_judged settings whole set alarms }
{
    Alarms {
        first: judged_by(whole, set, settings.first, alarms.first),
        second: judged_by(whole, set, settings.second, alarms.second),
        third: judged_by(whole, set, settings.third, alarms.third),
        fourth: judged_by(whole, set, settings.fourth, alarms.fourth),
    }
}

// What a tick leaves, by the position and the measured value after its own step.
#[tactic(auto, unfolding(position::specs::Tests::either, alarm::specs::Alarm::tick_alarms))]
pub fn tick(
    settings: AlarmSettings,
    here: Here,
    position: Position,
    measured: Measured,
    alarms: Alarms,
) -> Alarms
    ensures { result ≡ tick_alarms settings position.mode (whole_of measured) (set_value_of here position) alarms }
{
    if !matches!(position.mode, 1 | 2) {
        return alarms;
    }
    match whole_value(measured) {
        Some(whole) => all_judged(settings, whole, set_value(here, position), alarms),
        None => alarms,
    }
}
