// A list of events, run from making on: the bank is known to be accepted, and what an event leaves to be sound. What is shown is looked up once,
// after the last event.
ghost use Rattle.std.specs.Prelude.{◌≡◌};
ghost use Rattle.plain.specs.Setup.{over};
ghost use Rattle.plain.specs.Event.{events_from};
ghost use Rattle.plain.specs.Listed.{events_in};
ghost use Rattle.making.specs.Ran.{after_ran};
ghost use Rattle.effect.specs.Known.{Within, Made};
ghost use Rattle.effect.specs.Ran.{state_from, ran_by, turn_of, after_moved, Told};

use crate::Moved;
use crate::answers::{answered, by_parts, progress_of, with_alarms};
use crate::beside::{alarms_by, credit_after, keeps};
use crate::credits::settle;
use crate::events::known;
use listed::asked_at;
use making::Ran;
use plain::{Config, Event};
use setting::Settings;

// What is asked for, if anything is. What only moved alarms need is made where they move, and whether no tick moves them is looked up only then.
fn turn(
    bank: &[u8],
    config: Config,
    settings: Settings,
    store: &mut [u8],
    credits: &mut [u32; 99],
    moved: Moved,
    asked: Option<Event>,
) -> Moved
    requires { Within (over bank.now config) settings moved.here moved.idle (state_from moved credits.old) store.old }
    ensures store_after { after_moved (over bank.now config) result credits.new store.new
        ≡ turn_of (over bank.now config) moved credits.old store.old asked }
    ensures told { Told (over bank.now config) settings result }
{
    let Some(event) = asked else {
        return moved;
    };
    let from = moved.progress;
    let here = moved.here;
    let power = moved.power;
    let done = match known(bank, config, settings, here, store, power, from, event) {
        Ok(done) => done,
        Err(refusal) => {
            return Moved {
                verdict: Err(refusal),
                ..moved
            };
        }
    };
    let left = by_parts(done.progress);
    let position = left.position;
    let there = program::here_after(bank, settings, here, from.position, position);
    let mut alarms = moved.alarms;
    let mut idle = moved.idle;
    if !keeps(idle, event) {
        alarms = alarms_by(config, there, store, event, alarms, by_parts(left));
        idle = judge::idle(config.alarms, alarms);
    }
    settle(credits, store, credit_after(event, from.position));
    if done.saves {
        checkpoint::write(store, position, *credits, alarms);
    }
    Moved {
        power: done.power,
        progress: left,
        alarms,
        here: there,
        idle,
        verdict: Ok(()),
    }
}

// What the last event leaves.
fn ended(settings: Settings, moved: Moved, credits: [u32; 99]) -> Ran
    ensures { result ≡ ran_by settings moved credits }
{
    let position = moved.progress.position;
    Ran {
        power: moved.power,
        run: with_alarms(moved.progress, moved.alarms),
        credits,
        answer: answered(settings, moved.here, position, moved.verdict),
    }
}

// The events, from a state that stands on. The settings are read once.
pub fn run_from(bank: &[u8], config: Config, store: &mut [u8], made: Ran, bytes: &[u8]) -> Ran
    requires { Made (over bank.now config) made store.old }
    ensures { after_ran result store.new ≡ events_from (over bank.now config) (after_ran made store.old) (events_in bytes.now) }
{
    let settings = setting::read_settings(bank);
    let run = made.run;
    let position = run.position;
    let alarms = run.alarms;
    let mut moved = Moved {
        power: made.power,
        progress: progress_of(run),
        alarms,
        idle: judge::idle(config.alarms, alarms),
        here: program::here_at(
            bank,
            settings,
            position.pattern,
            position.step,
            position.pass,
        ),
        verdict: Ok(()),
    };
    let mut credits = made.credits;
    for i in 0..bytes.len() / 5 {
        moved = turn(
            bank,
            config,
            settings,
            store,
            &mut credits,
            moved,
            asked_at(bytes, 5 * i),
        );
    }
    ended(settings, moved, credits)
}
