// A list of events as bytes, run over the controller: demand 3.
#![tactic(auto)]

ghost use Rattle.std.specs.Prelude.{◌≡◌};
ghost use Rattle.plain.specs.Setup.{over};
ghost use Rattle.controller.specs.Holds.{state_of};
ghost use Rattle.demand.specs.Run.{after_run, run_outcome, Meets};

use controller::State;
use listed::is_list;
use making::Ran;
use plain::{AnyRefusal, Config};
use position::Shown;
use run::dark_run;

// What running a list gives back beside the record: the last state and the reply.
#[derive(Clone, Copy)]
pub struct Outcome {
    pub state: State,
    pub reply: Option<Result<Shown, AnyRefusal>>,
}

// A controller is made, and the list is run by it: the state, the record and the answer that the last event leaves, making's if the list is
// empty or making is refused. Bytes that are no list are answered 99, and change nothing.
pub fn run(bank: &[u8], config: Config, store: &mut [u8], events: &[u8]) -> Outcome
    ensures reply_after { after_run (state_of result.state) store.new result.reply ≡ run_outcome (over bank.now config) store.old events.now }
    ensures meets { Meets (over bank.now config) store.old events.now (after_run (state_of result.state) store.new result.reply) }
{
    if !is_list(events) {
        return Outcome {
            state: State {
                power: false,
                run: dark_run(),
                credits: [0; 99],
            },
            reply: None,
        };
    }
    let Ran {
        power,
        run,
        credits,
        answer,
    } = effect::run(bank, config, store, events);
    Outcome {
        state: State {
            power,
            run,
            credits,
        },
        reply: Some(answer),
    }
}
