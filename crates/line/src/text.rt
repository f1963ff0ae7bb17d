// The text of an answer and of a refusal.
ghost use Rattle.std.specs.Prelude.{◌≡◌, ◌+◌, ◌≤◌, pos, length};
ghost use Rattle.decimal.specs.Text.{line_of, put, put_text};
ghost use Rattle.line.specs.Beside.{sheet_over};
ghost use Rattle.line.specs.Text.{eight};
ghost use Rattle.line.specs.Part.{refusal_in};

use decimal::put_line;
use plain::Run;
use setting::BankRefusal;

// Answer, mode, p, k, r, e, w, set value, at a place of a buffer that has room for them. Gives the place where they end.
pub fn put_eight(bank: &[u8], number: u8, run: Run, out: &mut [u8], at: usize) -> usize
    requires { at + 168 ≤ length out.old }
    ensures { put out.new result ≡ put_text out.old at (line_of (eight (sheet_over bank.now) (pos number) run)) }
{
    let position = run.position;
    let settings = setting::read_settings(bank);
    let here = program::here_at(
        bank,
        settings,
        position.pattern,
        position.step,
        position.pass,
    );
    let numbers = [
        number as i64,
        position.mode as i64,
        position.pattern as i64,
        position.step as i64,
        position.pass as i64,
        position.elapsed as i64,
        position.waited as i64,
        ramp::set_value(here, position) as i64,
    ];
    put_line(out, at, &numbers)
}

// The numbers of a bank's refusal, at the front of a buffer that has room for eight; in any other nothing. Gives the place where they end.
#[tactic(auto, using(crate::proofs::Laws::few))]
pub fn put_refusal(refusal: BankRefusal, out: &mut [u8]) -> usize
    ensures { put out.new result ≡ put_text out.old 0 (refusal_in out.old refusal) }
{
    if out.len() < 168 {
        return 0;
    }
    let numbers = answer::of_bank(refusal);
    let row = [
        numbers.number as i64,
        numbers.first as i64,
        numbers.second as i64,
    ];
    put_line(out, 0, &row[..numbers.count])
}
