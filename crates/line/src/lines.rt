// One line, and one byte of the input.
ghost use Rattle.std.specs.Prelude.{◌≡◌, ◌+◌, ◌≤◌, pos, length};
ghost use Rattle.plain.specs.Event.{event_outcome};
ghost use Rattle.controller.specs.Holds.{state_of, after as left};
ghost use Rattle.line.specs.Beside.{sheet_over};
ghost use Rattle.line.specs.Text.{said, asked_for};
ghost use Rattle.line.specs.Part.{after, found, took_line, took_byte};

use crate::beside::sheet_config;
use crate::text::put_eight;
use crate::{Between, Ran};
use controller::{Outcome, State};
use key::parse;
use plain::Event;

// An event of a line, by the controller's own methods.
fn event(bank: &[u8], store: &mut [u8], state: State, event: Event) -> Outcome
    ensures { left result.state store.new result.answer ≡ event_outcome (sheet_over bank.now) store.old (state_of state) event }
{
    let config = sheet_config();
    match event {
        Event::Tick(reading) => state.tick(bank, config, store, reading),
        Event::Press(command) => state.command(bank, config, store, command),
        Event::Cut => state.cut(bank, config, store),
        Event::Return(reading) => state.restore(bank, config, store, reading),
    }
}

// What a line leaves beside the record: the state, and the number of its answer, which is printed.
#[derive(Clone, Copy)]
struct Said {
    state: State,
    number: u8,
}

// What a line asks for is done; a line of any other form has the number 99.
#[tactic(auto, unfolding(crate::specs::Text::asked_for))]
fn respond(bank: &[u8], store: &mut [u8], state: State, asked: Option<Event>) -> Said
    ensures { said (sheet_over bank.now) (state_of result.state) store.new (pos result.number)
        ≡ asked_for (sheet_over bank.now) store.old (state_of state) asked }
{
    let Some(wanted) = asked else {
        return Said { state, number: 99 };
    };
    let outcome = event(bank, store, state, wanted);
    Said {
        state: outcome.state,
        number: answer::number(outcome.answer),
    }
}

// The line so far is run, and its text stands at a place of the buffer. No line has begun then.
pub fn take_line(bank: &[u8], store: &mut [u8], ran: Ran, out: &mut [u8]) -> Ran
    requires { ran.end + 168 ≤ length out.old }
    ensures { after result store.new out.new ≡ took_line (sheet_over bank.now) (found ran.between store.old) out.old ran.end }
{
    let Between { state, line, kept } = ran.between;
    let asked = parse(&line[..kept.min(16)]);
    let said = respond(bank, store, state, asked);
    Ran {
        between: Between {
            state: said.state,
            line,
            kept: 0,
        },
        end: put_eight(bank, said.number, said.state.run, out, ran.end),
    }
}

// A byte of the input is taken: the newline ends a line; of any other line the first 16 bytes are kept.
#[tactic(auto, using(crate::proofs::Laws::kept_more, crate::proofs::Laws::kept_full), unfolding(crate::specs::Part::took_byte))]
pub fn take(bank: &[u8], store: &mut [u8], ran: Ran, c: u8, out: &mut [u8]) -> Ran
    requires { ran.end + 168 ≤ length out.old }
    ensures { after result store.new out.new ≡ took_byte (sheet_over bank.now) (found ran.between store.old) out.old ran.end c }
{
    if c == b'\n' {
        return take_line(bank, store, ran, out);
    }
    let mut between = ran.between;
    let kept = between.kept;
    if kept < 16 {
        between.line[kept] = c;
        between.kept = kept + 1;
    }
    Ran { between, ..ran }
}
