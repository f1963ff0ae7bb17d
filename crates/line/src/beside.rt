// What the programs have beside the bank.
ghost use Rattle.std.specs.Prelude.{◌≡◌};
ghost use Rattle.line.specs.Beside.{sheet_config};

use alarm::{AlarmSetting, AlarmSettings};
use plain::Config;

// Four alarms of kind 0, written out: a Default would put code into `alarm` and `plain`, which have none.
#[tactic(auto, unfolding(crate::specs::Beside::sheet_config))]
pub fn sheet_config() -> Config
    ensures { result ≡ sheet_config }
{
    let none = AlarmSetting {
        kind: 0,
        high: 0,
        low: 0,
        sensitivity: 0,
        delay: 0,
        flags: 0,
    };
    Config {
        alarms: AlarmSettings {
            first: none,
            second: none,
            third: none,
            fourth: none,
        },
    }
}
