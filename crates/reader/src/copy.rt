// An accepted bank's patterns, copied into arrays by what the bank says of each place.
ghost use Rattle.std.specs.Prelude.{◌≡◌, ◌≤◌, length};
ghost use Rattle.bank.specs.View.{step_of, patterns_of};
ghost use Rattle.field.specs.Tab.{tab};
ghost use Rattle.arrays.specs.Read.{laid_out};
ghost use Rattle.reader.specs.Asked.{Counted};

use arrays::Patterns;
use bank::{Step, place_of};

// The first steps of pattern p, as many as there is room for.
fn copy_steps(out: &mut [Step], bank: &[u8], p: u8)
    requires { length out.old ≤ 99 }
    ensures { out.new ≡ tab (step_of bank.now p) 1 1 (length out.old) }
{
    for (k, step) in out.iter_mut().enumerate() {
        *step = place_of(bank, p, k as u8 + 1).step;
    }
}

// The n patterns of an accepted bank.
pub fn patterns(bank: &[u8], n: u8) -> Patterns
    requires { Counted bank.now n }
    ensures { result ≡ laid_out (patterns_of bank.now) }
{
    let none = Step {
        target: 0,
        minutes: 0,
        wait: 0,
        signals: [0; 4],
    };
    let mut runs = [0u8; 15];
    let mut counts = [0u8; 15];
    let mut steps = [none; 99];
    let mut base: usize = 0;
    for p in 0..n {
        let place = place_of(bank, p + 1, 0);
        let next = base + place.count as usize;
        runs[p as usize] = place.runs;
        counts[p as usize] = place.count;
        copy_steps(&mut steps[base..next], bank, p + 1);
        base = next;
    }
    Patterns {
        runs,
        counts,
        steps,
    }
}
