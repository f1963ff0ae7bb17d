// A bank written from arrays.
#![tactic(auto)]

ghost use Rattle.std.specs.Prelude.{◌≡◌};
ghost use Rattle.setting.specs.Found.{Accepted};
ghost use Rattle.arrays.specs.Write.{taken_of, wrong_in, after, write_of, ReadsBack, rewrite_of};

use crate::pattern::{check_patterns, count_steps};
use crate::put::put_bank;
use arrays::{Patterns, WriteRefusal};
use setting::{Settings, check_settings};

mod pattern;
mod put;

// The bank of settings and patterns that are right, written at the front of a buffer that has room for it.
fn write_right(settings: Settings, ps: Patterns, out: &mut [u8]) -> Result<u16, WriteRefusal>
    requires { wrong_in settings (taken_of settings ps) ≡ Accepted }
    ensures out_after { after result out.new ≡ write_of settings ps out.old }
    ensures reads_back { ReadsBack settings ps result out.new }
{
    let n = settings.patterns as usize;
    let size = 45 + 6 * n + 9 * count_steps(&ps.counts[..n]);
    if out.len() < size {
        return Err(WriteRefusal::Full);
    }
    put_bank(out, settings, ps);
    Ok(size as u16)
}

// The bank of settings and patterns is written at the front of a buffer. A refusal leaves the buffer, and bytes past the bank's end
// stay. What was written reads as what was taken.
pub fn write(settings: Settings, ps: Patterns, out: &mut [u8]) -> Result<u16, WriteRefusal>
    ensures out_after { after result out.new ≡ write_of settings ps out.old }
    ensures reads_back { ReadsBack settings ps result out.new }
{
    check_settings(settings)?;
    check_patterns(settings, ps)?;
    write_right(settings, ps, out)
}

// A bank is read, and written again at the front of a buffer: an accepted one has the same bytes there, any other gives its refusal.
#[tactic(auto, unfolding(arrays::specs::Write::rewrite_of, arrays::specs::Write::write_as, arrays::specs::Write::written_numbers, arrays::specs::Read::read_of, arrays::specs::Read::read_as))]
pub fn rewrite(bank: &[u8], out: &mut [u8]) -> Result<u16, WriteRefusal>
    ensures { after result out.new ≡ rewrite_of bank.now out.old }
{
    let whole = reader::read(bank)?;
    write(whole.settings, whole.patterns, out)
}
