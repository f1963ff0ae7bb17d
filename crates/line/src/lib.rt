// The lines of the programs `sheet` and `credits`: run one after the other over one controller, an input that comes in parts.
#![tactic(auto)]

ghost use Rattle.std.specs.Prelude.{◌≡◌, is_ok};
ghost use Rattle.line.specs.Beside.{sheet_over};
ghost use Rattle.line.specs.Part.{after, found, left_by_start, run_of, finish_of, Begun};

use crate::beside::sheet_config;
use crate::lines::{take, take_line};
use crate::text::put_refusal;
use controller::State;

mod beside;
mod lines;
mod text;

// What stands between two parts of the input: the state, and the line so far, of which at most 16 bytes are kept (in an array with its length beside
// it, since nothing is allocated).
#[derive(Clone, Copy)]
pub struct Between {
    pub state: State,
    pub line: [u8; 16],
    pub kept: usize,
}

// What a call leaves beside the record and the text: what the next part begins with, and where the text ends.
#[derive(Clone, Copy)]
pub struct Ran {
    pub between: Between,
    pub end: usize,
}

// The beginning: a controller is made, and no line has begun. A refused bank is an error, whose numbers stand at the front of `out`.
pub fn start(bank: &[u8], store: &mut [u8], out: &mut [u8]) -> Result<Ran, Ran>
    ensures { Begun (sheet_over bank.now) store.old out.old (after (left_by_start result) store.new out.new) (is_ok result) }
{
    let made = controller::make(bank, sheet_config(), store);
    let between = Between {
        state: made.state,
        line: [0; 16],
        kept: 0,
    };
    match bank::check(bank) {
        Ok(()) => Ok(Ran { between, end: 0 }),
        Err(refusal) => Err(Ran {
            between,
            end: put_refusal(refusal, out),
        }),
    }
}

// A part of the input: each line that ends in it is run, and the text of all stands at the front of `out`.
#[tactic(auto, unfolding(crate::specs::Part::part_of, crate::specs::Part::run_of))]
pub fn run(bank: &[u8], store: &mut [u8], between: Between, input: &[u8], out: &mut [u8]) -> Ran
    ensures { after result store.new out.new ≡ run_of (sheet_over bank.now) (found between store.old) input.now out.old }
{
    let mut ran = Ran { between, end: 0 };
    if out.len() / 168 < input.len() {
        return ran;
    }
    for &c in input {
        ran = take(bank, store, ran, c, out);
    }
    ran
}

// The end of the input: a last line without a newline counts if it is not empty.
#[tactic(auto, unfolding(crate::specs::Part::finish_of, crate::specs::Part::end_of))]
pub fn finish(bank: &[u8], store: &mut [u8], between: Between, out: &mut [u8]) -> Ran
    ensures { after result store.new out.new ≡ finish_of (sheet_over bank.now) (found between store.old) out.old }
{
    let ran = Ran { between, end: 0 };
    if out.len() < 168 || ran.between.kept == 0 {
        return ran;
    }
    take_line(bank, store, ran, out)
}
