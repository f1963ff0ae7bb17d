// Making a controller: a fresh one, which is saved, or none. The bank is checked first.
#![tactic(auto)]

ghost use Rattle.std.specs.Prelude.{◌≡◌, true};
ghost use Rattle.plain.specs.declared.Config.{Config};
ghost use Rattle.plain.specs.Record.{sized};
ghost use Rattle.plain.specs.Run.{fresh_run};
ghost use Rattle.plain.specs.Setup.{over};
ghost use Rattle.plain.specs.Event.{make_outcome};
ghost use Rattle.making.specs.Ran.{after_ran, allowed_by, begun, dark_ran as dark_of};

use checkpoint::SIZE;
use plain::{AnyRefusal, Config, Refusal, Run};
use position::{Position, Shown};
use run::dark_run;

// What a call leaves beside the record: the parts of a state one by one, since the state's methods, and so its type, stand in a crate above.
#[derive(Clone, Copy)]
pub struct Ran {
    pub power: bool,
    pub run: Run,
    pub credits: [u32; 99],
    pub answer: Result<Shown, AnyRefusal>,
}

// The state with power off, and an answer.
#[tactic(auto, unfolding(plain::specs::Event::dark))]
fn dark(answer: Result<Shown, AnyRefusal>) -> Ran
    ensures { result ≡ dark_of answer }
{
    Ran {
        power: false,
        run: dark_run(),
        credits: [0; 99],
        answer,
    }
}

// The fresh run: p = k = r = 1, and all else as with power off.
#[tactic(auto, unfolding(plain::specs::Event::dark_run))]
fn fresh_run() -> Run
    ensures { result ≡ fresh_run }
{
    let dark = dark_run();
    Run {
        position: Position {
            pattern: 1,
            step: 1,
            pass: 1,
            ..dark.position
        },
        ..dark
    }
}

// The fresh controller, which is saved.
#[tactic(auto, unfolding(plain::specs::Event::fresh, plain::specs::Setup::here_in))]
fn begin(bank: &[u8], store: &mut [u8]) -> Ran
    requires { sized store.old ≡ true }
    ensures { (config : Config) → after_ran result store.new ≡ begun (over bank.now config) }
{
    let run = fresh_run();
    let position = run.position;
    let credits = [0u32; 99];
    checkpoint::write(store, position, credits, run.alarms);
    let settings = setting::read_settings(bank);
    let here = program::here_at(
        bank,
        settings,
        position.pattern,
        position.step,
        position.pass,
    );
    let values = program::shown(settings, here, position);
    Ran {
        power: true,
        run,
        credits,
        answer: Ok(values),
    }
}

// Whether a controller can be made: 11 to 14, 22, 41.
fn allowed(bank: &[u8], config: Config, store: &[u8]) -> Result<(), AnyRefusal>
    ensures { result ≡ allowed_by (over bank.now config) store.now }
{
    bank::check(bank).map_err(AnyRefusal::Bank)?;
    if store.len() != SIZE {
        return Err(AnyRefusal::Own(Refusal::Buffer));
    }
    if !bounds::in_range(config.alarms) {
        return Err(AnyRefusal::Own(Refusal::AlarmSetting));
    }
    Ok(())
}

// A controller is made: it is fresh, and saves.
#[tactic(auto, using(crate::proofs::Rows::make_is, crate::proofs::Rows::allowed_sized))]
pub fn make(bank: &[u8], config: Config, store: &mut [u8]) -> Ran
    ensures { after_ran result store.new ≡ make_outcome (over bank.now config) store.old }
{
    match allowed(bank, config, store) {
        Ok(()) => begin(bank, store),
        Err(refusal) => dark(Err(refusal)),
    }
}
