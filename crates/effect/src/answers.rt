// What an accepted event does; and the answer of an event, with what is shown.
ghost use Rattle.std.specs.Prelude.{◌≡◌};
ghost use Rattle.effect.specs.Known.{Known};
ghost use Rattle.plain.specs.Setup.{over};
ghost use Rattle.effect.specs.Done.{progress_of, with_alarms, accepted_done, answer_by, effect_of};

use crate::beside::{alarms_by, credit_after, keeps};
use crate::{Done, Progress};
use alarm::Alarms;
use measure::Measured;
use plain::{AnyRefusal, Config, Effect, Event, Refusal, Run};
use position::{Here, Position, Shown};
use setting::Settings;

// A measured value, a position and a progress, taken apart and put together: copied whole right after its parts were written, each would wait until
// they are in memory.
fn value_by_parts(measured: Measured) -> Measured
    ensures { result ≡ measured }
{
    match measured {
        Measured::NoReading => Measured::NoReading,
        Measured::Over => Measured::Over,
        Measured::Under => Measured::Under,
        Measured::Value(y) => Measured::Value(y),
    }
}

fn position_by_parts(from: Position) -> Position
    ensures { result ≡ from }
{
    Position {
        mode: from.mode,
        pattern: from.pattern,
        step: from.step,
        pass: from.pass,
        elapsed: from.elapsed,
        waited: from.waited,
        base: from.base,
    }
}

pub fn by_parts(progress: Progress) -> Progress
    ensures { result ≡ progress }
{
    Progress {
        position: position_by_parts(progress.position),
        unsaved: progress.unsaved,
        measured: value_by_parts(progress.measured),
    }
}

// A run without its alarms, and one with them.
pub fn progress_of(run: Run) -> Progress
    ensures { result ≡ progress_of run }
{
    Progress {
        position: run.position,
        unsaved: run.unsaved,
        measured: run.measured,
    }
}

pub fn with_alarms(progress: Progress, alarms: Alarms) -> Run
    ensures { result ≡ with_alarms progress alarms }
{
    Run {
        position: progress.position,
        unsaved: progress.unsaved,
        measured: progress.measured,
        alarms,
    }
}

// With power on, with what is left; saving sets u to 0.
pub fn accepted(saves: bool, mut progress: Progress) -> Done
    ensures { result ≡ accepted_done saves progress }
{
    if saves {
        progress.unsaved = 0;
    }
    Done {
        power: true,
        progress,
        saves,
    }
}

// The answer: a refusal, or what is shown of a position.
pub fn answered(
    settings: Settings,
    here: Here,
    position: Position,
    verdict: Result<(), Refusal>,
) -> Result<Shown, AnyRefusal>
    ensures { result ≡ answer_by settings here position verdict }
{
    match verdict {
        Ok(()) => Ok(program::shown(settings, here, position)),
        Err(refusal) => Err(AnyRefusal::Own(refusal)),
    }
}

// What an accepted event does to a run, with its answer; what is said is known at the run's position.
pub fn effect_of(
    bank: &[u8],
    config: Config,
    settings: Settings,
    here: Here,
    store: &[u8],
    run: Run,
    event: Event,
    done: Done,
) -> Effect
    requires { Known bank.now run.position settings here }
    ensures { result ≡ effect_of (over bank.now config) store.now run event done }
{
    let before = run.position;
    let progress = by_parts(done.progress);
    let position = progress.position;
    let there = program::here_after(bank, settings, here, before, position);
    let idle = judge::idle(config.alarms, run.alarms);
    // What only moved alarms need is made where they move.
    let mut alarms = run.alarms;
    if !keeps(idle, event) {
        alarms = alarms_by(config, there, store, event, alarms, by_parts(progress));
    }
    Effect {
        power: done.power,
        run: with_alarms(progress, alarms),
        credit: credit_after(event, before),
        saves: done.saves,
        answer: Ok(program::shown(settings, there, position)),
    }
}
