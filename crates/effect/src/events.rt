// An event: its refusals in their one order, and what it does.
ghost use Rattle.std.specs.Prelude.{◌≡◌, true, ◌<◌};
ghost use Rattle.plain.specs.Setup.{over};
ghost use Rattle.plain.specs.Run.{readable_by, sound_by};
ghost use Rattle.plain.specs.Event.{unchanged as unchanged_of, event_effect};
ghost use Rattle.effect.specs.Done.{DoesCut, DoesOver};

use crate::answers::{by_parts, effect_of, progress_of};
use crate::press::press;
use crate::restore::restore;
use crate::tick::tick;
use crate::{Done, Progress};
use checkpoint::SIZE;
use plain::{AnyRefusal, Config, Credit, Effect, Event, Refusal, Run};
use position::Here;
use run::dark_run;
use setting::Settings;

// A cut turns power off and loses all state but the record: 23.
fn cut(power: bool) -> Result<Done, Refusal>
    ensures { DoesCut power result }
{
    if !power {
        return Err(Refusal::PowerOff);
    }
    Ok(Done {
        power: false,
        progress: progress_of(dark_run()),
        saves: false,
    })
}

// An event over a bank that is accepted, on a sound state, with a record of its size. Alarms and credits are left to the caller. Each kind of event
// takes other ones of the parameters, so that a struct of them would be no plainer.
pub fn known(
    bank: &[u8],
    config: Config,
    settings: Settings,
    here: Here,
    store: &[u8],
    power: bool,
    progress: Progress,
    event: Event,
) -> Result<Done, Refusal>
    requires { power ≡ true → progress.unsaved < 60 }
    ensures { DoesOver bank.now config store.now settings here power progress event result }
{
    let from = by_parts(progress);
    match event {
        Event::Tick(reading) => tick(settings, here, power, from, reading),
        Event::Press(pressed) => press(bank, settings, here, power, from, pressed),
        Event::Cut => cut(power),
        Event::Return(reading) => restore(bank, config, settings, store, power, reading),
    }
}

// Whether each part that a record has of a run is readable.
#[tactic(auto, using(alarm::proofs::Short::clear_within), unfolding(position::specs::Tests::all, position::specs::Tests::both))]
fn is_readable(config: Config, settings: Settings, here: Here, run: Run) -> bool
    ensures { result ≡ readable_by config settings here run }
{
    let position = run.position;
    let readable = retained::readable(settings, here, position);
    if bounds::are_clear(run.alarms) {
        return readable; // within every bounds
    }
    readable & bounds::within_bounds(config.alarms, position.mode, run.alarms)
}

// Whether a run is sound.
#[tactic(auto, unfolding(plain::specs::Run::sound_by, position::specs::Tests::all, position::specs::Tests::both))]
fn sound(config: Config, settings: Settings, here: Here, run: Run) -> bool
    ensures { result ≡ sound_by config settings here run }
{
    is_readable(config, settings, here, run) & ((run.unsaved < 60) & measure::sound(run.measured))
}

// A refusal leaves all. It is no part of `event` when compiled: what an accepted event leaves would be copied once more (measured).
#[cold]
#[inline(never)]
fn unchanged(power: bool, run: Run, refusal: AnyRefusal) -> Effect
    ensures { result ≡ unchanged_of power run (Err refusal) }
{
    Effect {
        power,
        run,
        credit: Credit::Keep,
        saves: false,
        answer: Err(refusal),
    }
}

// An event: its refusals, or what it does. With the refusals in a function of their own that gives a result, an event took 5 % longer (measured).
pub fn event(
    bank: &[u8],
    config: Config,
    store: &[u8],
    power: bool,
    run: Run,
    event: Event,
) -> Effect
    ensures { result ≡ event_effect (over bank.now config) store.now power run event }
{
    if let Err(refusal) = bank::check(bank) {
        return unchanged(power, run, AnyRefusal::Bank(refusal));
    }
    let settings = setting::read_settings(bank);
    let position = run.position;
    let here = program::here_at(
        bank,
        settings,
        position.pattern,
        position.step,
        position.pass,
    );
    if power & !sound(config, settings, here, run) {
        return unchanged(power, run, AnyRefusal::Own(Refusal::Unsound));
    }
    if store.len() != SIZE {
        return unchanged(power, run, AnyRefusal::Own(Refusal::Buffer));
    }
    if !bounds::in_range(config.alarms) {
        return unchanged(power, run, AnyRefusal::Own(Refusal::AlarmSetting));
    }
    let progress = progress_of(run);
    let done = match known(bank, config, settings, here, store, power, progress, event) {
        Ok(done) => done,
        Err(refusal) => return unchanged(power, run, AnyRefusal::Own(refusal)),
    };
    effect_of(bank, config, settings, here, store, run, event, done)
}
