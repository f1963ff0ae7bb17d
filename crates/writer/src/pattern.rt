// The patterns that a writer is handed: their check, and the number of their steps.
ghost use Rattle.std.specs.Prelude.{◌≡◌, ◌≤◌, length, sum};
ghost use Rattle.setting.specs.Found.{Accepted};
ghost use Rattle.setting.specs.Setting.{settings_found};
ghost use Rattle.bank.specs.Check.{bodies_found};
ghost use Rattle.arrays.specs.Write.{taken_of, within_capacity};

use arrays::Patterns;
use bank::check_step;
use capacity::capacity;
use setting::{BankRefusal, Settings};

// The n patterns: the first wrong field ends both loops, with its place.
pub fn check_patterns(settings: Settings, ps: Patterns) -> Result<(), BankRefusal>
    requires { settings_found settings ≡ Accepted }
    ensures { result ≡ bodies_found (within_capacity settings.patterns) settings.low settings.high 1 (taken_of settings ps) }
{
    let most = capacity(settings.patterns);
    let mut base: usize = 0;
    'walk: {
        for p in 0..settings.patterns {
            let count = ps.counts[p as usize];
            if !((ps.runs[p as usize] <= 99) & (count <= most)) {
                break 'walk Err(BankRefusal::Body(p + 1, 0));
            }
            let next = base + count as usize;
            for (k, step) in ps.steps[base..next].iter().enumerate() {
                if !check_step(settings.low, settings.high, *step) {
                    break 'walk Err(BankRefusal::Body(p + 1, k as u8 + 1));
                }
            }
            base = next;
        }
        Ok(())
    }
}

// The number of steps of patterns.
pub fn count_steps(counts: &[u8]) -> usize
    requires { length counts.now ≤ 15 }
    ensures { result ≡ sum counts.now }
{
    counts.iter().map(|count| *count as usize).sum()
}
