// The pairs of body offset and length.
ghost use Rattle.std.specs.Prelude.{◌≡◌, ◌+◌, ◌*◌, ◌≤◌, length};
ghost use Rattle.field.specs.Field.{field};
ghost use Rattle.limits.specs.Range.{between};
ghost use Rattle.bank.specs.View.{steps_in};
ghost use Rattle.bank.specs.Check.{pair_right, pairs_found};
ghost use Rattle.bank.specs.Pair.{Gives, InReach};

use capacity::capacity;
use field::{byte, join2, word};
use setting::BankRefusal;

// Where a body lies.
#[derive(Clone, Copy)]
pub struct Extent {
    pub at: usize,
    pub len: usize,
}

// Whether pattern p is there.
pub fn has_pattern(bank: &[u8], p: u8) -> bool
    ensures { result ≡ between 1 p (field 1 bank.now 0) }
{
    (1..=byte(bank, 0)).contains(&p)
}

// Offset and length that the pair of pattern p gives, where the pair is there: the check of a bank is slower with `body_of`'s tests (296 ns, not 212).
pub fn body_in(bank: &[u8], p: u8) -> Extent
    requires { 45 + 4 * p ≤ length bank.now }
    ensures { Gives bank.now p result }
{
    let at = 41 + 4 * (p as usize);
    Extent {
        at: join2(bank[at], bank[at + 1]) as usize,
        len: join2(bank[at + 2], bank[at + 3]) as usize,
    }
}

// The same of any pattern.
pub fn body_of(bank: &[u8], p: u8) -> Extent
    ensures { Gives bank.now p result }
{
    let at = 41 + 4 * (p as usize);
    if at + 4 <= bank.len() {
        return body_in(bank, p);
    }
    Extent {
        at: word(bank, at) as usize,
        len: word(bank, at + 2) as usize,
    }
}

// The number of steps of a body, by its length.
pub fn steps_in(len: usize) -> usize
    ensures { result ≡ steps_in len }
{
    len.saturating_sub(2) / 9
}

// Whether a pair gives the offset that is due, and the length of a body that fits.
fn pair_right(body: Extent, due: usize, cap: usize, size: usize) -> bool
    requires { InReach due body.len }
    ensures { result ≡ pair_right body.at body.len due cap size }
{
    let s = steps_in(body.len);
    (body.at == due) & ((body.len == 2 + 9 * s) & ((s <= cap) & (due + body.len <= size)))
}

// The pairs, and the end of the bank where the last body ends.
pub fn check_pairs(bank: &[u8], n: u8) -> Result<(), BankRefusal>
    requires { n ≤ 15 }
    ensures { result ≡ pairs_found bank.now n }
{
    let size = bank.len();
    let mut due = 45 + 4 * (n as usize);
    if size < due {
        return Err(BankRefusal::Pair(0));
    }
    let cap = capacity(n) as usize;
    for i in 0..n {
        let p = i + 1;
        let body = body_in(bank, p);
        if !pair_right(body, due, cap, size) {
            return Err(BankRefusal::Pair(p));
        }
        due += body.len;
    }
    if due == size {
        Ok(())
    } else {
        Err(BankRefusal::Pair(n))
    }
}
