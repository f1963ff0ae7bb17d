// The settings that go beside the bank, from their bytes.
#![tactic(auto)]

ghost use Rattle.std.specs.Prelude.{◌≡◌, ◌≤◌};
ghost use Rattle.calls.specs.Config.{alarm_setting_at, config_at, config_in};

use alarm::{AlarmSetting, AlarmSettings};
use field::{byte, word};
use integer::signed;
use plain::Config;

// How many bytes they take.
pub const SIZE: usize = 4 * (1 + 2 + 2 + 2 + 2 + 1);

// The settings of an alarm at an offset.
#[tactic(auto, unfolding(calls::specs::Config::alarm_setting_at))]
fn alarm_setting_at(bytes: &[u8], at: usize) -> AlarmSetting
    requires { at ≤ 30 }
    ensures { result ≡ alarm_setting_at bytes.now at }
{
    AlarmSetting {
        kind: byte(bytes, at),
        high: signed(bytes, at + 1),
        low: signed(bytes, at + 3),
        sensitivity: word(bytes, at + 5),
        delay: word(bytes, at + 7),
        flags: byte(bytes, at + 9),
    }
}

// All settings.
fn settings(bytes: &[u8]) -> Config
    ensures { result ≡ config_at bytes.now }
{
    let first = alarm_setting_at(bytes, 0);
    let second = alarm_setting_at(bytes, 10);
    let third = alarm_setting_at(bytes, 20);
    let fourth = alarm_setting_at(bytes, 30);
    Config {
        alarms: AlarmSettings {
            first,
            second,
            third,
            fourth,
        },
    }
}

// All settings. Bytes of another size are read as no bytes: all 0.
#[tactic(auto, unfolding(calls::specs::Config::config_in, calls::specs::Config::config_sized))]
pub fn read(bytes: &[u8]) -> Config
    ensures { result ≡ config_in bytes.now }
{
    if bytes.len() != SIZE {
        return settings(&[]);
    }
    settings(bytes)
}
