// A bank read into arrays.
#![tactic(auto)]

ghost use Rattle.std.specs.Prelude.{◌≡◌};
ghost use Rattle.arrays.specs.Read.{given, read_of};

use crate::copy::patterns;
use arrays::Bank;
use setting::BankRefusal;

mod copy;

// A bank read: its settings and patterns, or its refusal.
pub fn read(bank: &[u8]) -> Result<Bank, BankRefusal>
    ensures { given result ≡ given (read_of bank.now) }
{
    bank::check(bank)?;
    let settings = setting::read_settings(bank);
    let patterns = patterns(bank, settings.patterns);
    Ok(Bank { settings, patterns })
}
