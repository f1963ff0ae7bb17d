// A return.
ghost use Rattle.plain.specs.Run.{return_by};
ghost use Rattle.plain.specs.declared.Event.{Event};
ghost use Rattle.effect.specs.Done.{BroughtBack, Returned, DoesReturn};

use crate::answers::accepted;
use crate::beside::is_bounded;
use crate::{Done, Progress};
use measure::{Measured, Reading};
use plain::{Config, Refusal};
use position::Here;
use setting::Settings;

// What a record brings back, before the choices.
#[tactic(auto, unfolding(plain::specs::Event::brought_back))]
fn brought_back(store: &[u8]) -> Progress
    ensures { BroughtBack store.now result }
{
    Progress {
        position: checkpoint::read_position(store),
        unsaved: 0,
        measured: Measured::NoReading,
    }
}

// The reading becomes a first reading, u is 0, the choices apply.
#[tactic(auto, unfolding(plain::specs::Run::return_by))]
fn returned(settings: Settings, here: Here, reading: Reading, progress: Progress) -> Progress
    ensures { Returned (return_by settings here reading) progress result }
{
    let measured = measure::first(reading);
    let whole = measure::whole_value(measured);
    let position = retained::returned(settings, here, whole, progress.position);
    Progress {
        position,
        unsaved: 0,
        measured,
    }
}

// A return: 24, 25, 31. The alarms that the record holds have to be within their bounds.
pub fn restore(
    bank: &[u8],
    config: Config,
    settings: Settings,
    store: &[u8],
    power: bool,
    reading: Reading,
) -> Result<Done, Refusal>
    ensures { DoesReturn bank.now config store.now settings power (Event.Return reading) result }
{
    if power {
        return Err(Refusal::PowerOn);
    }
    if measure::outside(reading) {
        return Err(Refusal::Outside);
    }
    let back = brought_back(store);
    let position = back.position;
    let there = program::here_at(
        bank,
        settings,
        position.pattern,
        position.step,
        position.pass,
    );
    if !(retained::readable(settings, there, position) & is_bounded(config, store)) {
        return Err(Refusal::Unreadable);
    }
    Ok(accepted(true, returned(settings, there, reading, back)))
}
