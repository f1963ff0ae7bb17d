// A tick: a row of stages on a run without its alarms.
ghost use Rattle.std.specs.Prelude.{◌≡◌, true, ◌<◌};
ghost use Rattle.plain.specs.Run.{measuring, counting, stepping, tick_by};
ghost use Rattle.plain.specs.declared.Event.{Event};
ghost use Rattle.effect.specs.Done.{Leaves, IsSaving, Does};

use crate::answers::accepted;
use crate::{Done, Progress};
use measure::Reading;
use plain::Refusal;
use position::Here;
use setting::Settings;

// The measured value is updated.
#[tactic(auto, unfolding(plain::specs::Run::measuring))]
fn measured(settings: Settings, reading: Reading, progress: Progress) -> Progress
    ensures { Leaves (measuring settings reading) progress result }
{
    Progress {
        position: progress.position,
        unsaved: progress.unsaved,
        measured: measure::after(progress.measured, reading, settings.filter),
    }
}

// u gains 1.
#[tactic(auto, unfolding(plain::specs::Run::counting))]
fn counted(mut progress: Progress) -> Progress
    requires { progress.unsaved < 255 }
    ensures { Leaves counting progress result }
{
    progress.unsaved += 1;
    progress
}

// In mode 1 a second of the step passes.
#[tactic(auto, unfolding(plain::specs::Run::stepping))]
fn stepped(here: Here, mut progress: Progress) -> Progress
    ensures { Leaves (stepping here) progress result }
{
    let whole = measure::whole_value(progress.measured);
    progress.position = time::tick(here, whole, progress.position);
    progress
}

// The tick's own step.
fn ticked(settings: Settings, here: Here, reading: Reading, progress: Progress) -> Progress
    requires { progress.unsaved < 255 }
    ensures { Leaves (tick_by settings here reading) progress result }
{
    stepped(here, counted(measured(settings, reading, progress)))
}

// A tick saves if it changes mode, step or pass, or makes u 60.
#[tactic(auto, unfolding(plain::specs::Run::tick_saves, position::specs::Tests::either))]
fn saves(before: Progress, after: Progress) -> bool
    ensures { IsSaving before after result }
{
    let from = before.position;
    let to = after.position;
    (from.mode != to.mode)
        | ((from.step != to.step) | ((from.pass != to.pass) | (after.unsaved == 60)))
}

// A tick: 23, 25.
pub fn tick(
    settings: Settings,
    here: Here,
    power: bool,
    progress: Progress,
    reading: Reading,
) -> Result<Done, Refusal>
    requires { power ≡ true → progress.unsaved < 60 }
    ensures { Does settings here power progress (Event.Tick reading) result }
{
    if !power {
        return Err(Refusal::PowerOff);
    }
    if measure::outside(reading) {
        return Err(Refusal::Outside);
    }
    let next = ticked(settings, here, reading, progress);
    Ok(accepted(saves(progress, next), next))
}
