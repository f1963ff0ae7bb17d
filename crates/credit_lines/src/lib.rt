// The lines of the program `credits`: those of all steps of a state.
#![tactic(auto)]

ghost use Rattle.std.specs.Prelude.{◌≡◌, [], ◌∷◌, ◌+◌, ◌≤◌, length};
ghost use Rattle.decimal.specs.Text.{put, put_text};
ghost use Rattle.line.specs.Sheet.{credit_lines};
ghost use Rattle.line.specs.Part.{credits_of};

use controller::State;
use decimal::put_line;

// The line `k seconds` of a step whose credit is not 0, at a place of a buffer that has room for it. Gives the place where it ends.
fn put_credit(out: &mut [u8], at: usize, k: u8, credit: u32) -> usize
    requires { at + 42 ≤ length out.old }
    ensures { put out.new result ≡ put_text out.old at (credit_lines k (credit ∷ [])) }
{
    if credit == 0 {
        return at;
    }
    put_line(out, at, &[k as i64, credit as i64])
}

// The lines of all steps, at the front of a buffer that has room for 99 of them.
fn put_credits(state: State, out: &mut [u8]) -> usize
    requires { 4158 ≤ length out.old }
    ensures { put out.new result ≡ put_text out.old 0 (credit_lines 1 state.credits) }
{
    let mut at = 0;
    for (i, &credit) in state.credits.iter().enumerate() {
        at = put_credit(out, at, i as u8 + 1, credit);
    }
    at
}

// The credits of a state: a line `k seconds` for each step whose credit is not 0, at the front of `out`.
#[tactic(auto, unfolding(line::specs::Part::credits_of))]
pub fn credits(state: State, out: &mut [u8]) -> usize
    ensures { put out.new result ≡ credits_of state.credits out.old }
{
    if out.len() < 4158 {
        return 0;
    }
    put_credits(state, out)
}
