// The check of settings.
ghost use Rattle.std.specs.Prelude.{◌≡◌, ◌<◌};
ghost use Rattle.setting.specs.Setting.{head_found, halves_found, settings_found};

use crate::range::is_above;
use crate::{BankRefusal, Settings};
use limits::{in_limits, is_temperature};

// The settings up to the filter constant.
fn check_head(settings: Settings) -> Result<(), BankRefusal>
    ensures { result ≡ head_found settings }
{
    let rows = [
        (0, (1..=15).contains(&settings.patterns)),
        (1, settings.start <= 1),
        (2, settings.outage <= 2),
        (3, is_temperature(settings.low)),
        (5, is_above(settings.low, settings.high)),
        (7, in_limits(settings.low, settings.initial, settings.high)),
        (9, settings.width <= 29999),
        (11, settings.filter <= 999),
    ];
    for (offset, right) in rows {
        if !right {
            return Err(BankRefusal::Setting(offset));
        }
    }
    Ok(())
}

// Four pairs from an offset on, with the largest number of either half.
fn check_halves(
    at: u16,
    xs: [u16; 4],
    top: u16,
    ys: [u16; 4],
    other: u16,
) -> Result<(), BankRefusal>
    requires { at < 1000 }
    ensures { result ≡ halves_found top other at xs ys }
{
    let mut offset = at;
    for (x, y) in xs.iter().zip(&ys) {
        if top < *x {
            return Err(BankRefusal::Setting(offset));
        }
        if other < *y {
            return Err(BankRefusal::Setting(offset + 2));
        }
        offset += 4;
    }
    Ok(())
}

// The first wrong one of settings.
pub fn check(settings: Settings) -> Result<(), BankRefusal>
    ensures { result ≡ settings_found settings }
{
    check_head(settings)?;
    check_halves(13, settings.zones, 9999, settings.waits, 5999)?;
    check_halves(29, settings.on, 5999, settings.off, 5999)
}
