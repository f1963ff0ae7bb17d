// Bytes of a bank, read with no test for each.
ghost use Rattle.std.specs.Prelude.{◌≡◌, ℕ, ◌+◌, ◌<◌, ◌≤◌, length, get_or};
ghost use Rattle.field.specs.Field.{field};
ghost use Rattle.field.specs.Tab.{tab};

use field::join2;

// The 16-bit number at an offset, both bytes of which are there.
pub fn word_in(bank: &[u8], at: usize) -> u16
    requires { at + 2 ≤ length bank.now }
    ensures { result ≡ field 2 bank.now at }
{
    join2(bank[at], bank[at + 1])
}

// Four 16-bit numbers, four bytes apart, all of which are there.
pub fn four_words(bank: &[u8], at: usize) -> [u16; 4]
    requires { at + 14 ≤ length bank.now }
    ensures { result ≡ tab (field 2 bank.now) 4 at 4 }
{
    [
        word_in(bank, at),
        word_in(bank, at + 4),
        word_in(bank, at + 8),
        word_in(bank, at + 12),
    ]
}

// The bytes of a bank that is shorter than its settings, and 0 for those past its end.
pub fn padded(bank: &[u8]) -> [u8; 45]
    requires { length bank.now ≤ 45 }
    ensures { (j : ℕ) → j < 45 → get_or result j 0 ≡ get_or bank.now j 0 }
{
    let mut out = [0u8; 45];
    out[..bank.len()].copy_from_slice(bank);
    out
}
