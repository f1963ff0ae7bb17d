// What the programs `sheet` and `credits` share beside files: lines from standard input, run over a bank.
#![tactic(auto)]

ghost use Rattle.std.specs.Prelude.{◌≤◌, length, IfSome};
ghost use Rattle.line.specs.Beside.{sheet_over};
ghost use Rattle.controller.specs.Holds.{state_of};
ghost use Rattle.line.specs.Part.{found};
ghost use Rattle.terminal.specs.Input.{Turned, Whole, All};

use controller::State;
use line::Between;
use std::io::Read;
use std::ops::ControlFlow;

// The text of a call is written, if it is to be shown; nothing, with a message, where that fails.
fn tell<R: Print + Eprint>(rt: &R, out: &[u8], end: usize, shows: bool) -> Option<()> {
    if shows {
        return files::show(rt, out, end);
    }
    Some(())
}

// Lines are read once, and run. Their text is shown before the next read, so that who types a line sees it. Gives what they leave, and whether the
// input goes on or ends there; nothing, with a message, where a read or a write fails.
fn take_turn<R: Print + Eprint, I: Read>(
    rt: &R,
    reader: &mut I,
    bank: &[u8],
    store: &mut [u8],
    between: Between,
    out: &mut [u8],
    shows: bool,
) -> Option<ControlFlow<Between, Between>>
    requires { 43008 ≤ length out.old }
    ensures { IfSome result (Turned (sheet_over bank.now) (found between store.old) store.new) }
{
    let mut input = [0u8; 256];
    let count = match reader.read(&mut input) {
        Ok(count) => count,
        Err(error) => {
            let _ = eprintln!(rt; "standard input: {error}");
            return None;
        }
    };
    if count == 0 {
        let last = line::finish(bank, store, between, out);
        tell(rt, out, last.end, shows)?;
        return Some(ControlFlow::Break(last.between));
    }
    let ran = line::run(bank, store, between, &input[..count], out);
    tell(rt, out, ran.end, shows)?;
    Some(ControlFlow::Continue(ran.between))
}

// Lines are read until they end, or a read or a write fails. A proved loop has to end, and nothing says that the lines do, so the loop
// counts its turns, to a number that no run uses up.
fn run_lines<R: Input + Print + Eprint>(
    rt: &R,
    bank: &[u8],
    store: &mut [u8],
    between: Between,
    shows: bool,
) -> Option<Between>
    ensures { IfSome result (λ last. Whole (sheet_over bank.now) (found between store.old) (found last store.new)) }
{
    let mut reader = rt.reader();
    let mut out = [0u8; 65536];
    let mut so_far = between;
    'turns: for _ in 0..u64::MAX {
        match take_turn(rt, &mut reader, bank, store, so_far, &mut out, shows)? {
            ControlFlow::Continue(next) => so_far = next,
            ControlFlow::Break(last) => return Some(last),
        }
    }
    None // the turns ran out
}

// A controller is made over the bank, and the lines are run by it: the state after the last line, where all lines were read, run and shown. A refused
// bank prints its refusal's numbers and nothing more.
pub fn run_bank<R: Input + Print + Eprint>(rt: &R, bank: &[u8], shows: bool) -> Option<State>
    ensures { IfSome result (λ state. All (sheet_over bank.now) (state_of state)) }
{
    let mut store = [0u8; checkpoint::SIZE];
    let mut out = [0u8; 168];
    match line::start(bank, &mut store, &mut out) {
        Ok(ran) => {
            let last = run_lines(rt, bank, &mut store, ran.between, shows)?;
            Some(last.state)
        }
        Err(ran) => {
            files::show(rt, &out, ran.end);
            None
        }
    }
}
