// The settings as they stand in the bytes of a bank.
ghost use Rattle.std.specs.Prelude.{◌≡◌, ◌≤◌, length};
ghost use Rattle.setting.specs.Setting.{settings_at};

use crate::Settings;
use crate::bytes::{four_words, padded, word_in};
use field::signed_of;

// The settings of a bank that has all of them.
pub fn settings_in(bank: &[u8]) -> Settings
    requires { 45 ≤ length bank.now }
    ensures { result ≡ settings_at bank.now }
{
    Settings {
        patterns: bank[0],
        start: bank[1],
        outage: bank[2],
        low: signed_of(word_in(bank, 3)),
        high: signed_of(word_in(bank, 5)),
        initial: signed_of(word_in(bank, 7)),
        width: word_in(bank, 9),
        filter: word_in(bank, 11),
        zones: four_words(bank, 13),
        waits: four_words(bank, 15),
        on: four_words(bank, 29),
        off: four_words(bank, 31),
    }
}

// The settings that stand in a bank.
pub fn read_settings(bank: &[u8]) -> Settings
    ensures { result ≡ settings_at bank.now }
{
    if bank.len() < 45 {
        settings_in(&padded(bank))
    } else {
        settings_in(bank)
    }
}
