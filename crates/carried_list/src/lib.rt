// A list of events is run, and leaves its state as bytes.
#![tactic(auto)]

ghost use Rattle.std.specs.Prelude.{◌≡◌, false, true, ℕ, List, Err};
ghost use Rattle.plain.specs.Setup.{over};
ghost use Rattle.plain.specs.Listed.{formed};
ghost use Rattle.calls.specs.Result.{result_of};
ghost use Rattle.calls.specs.Calls.{after, fitting, run_over};
ghost use Rattle.calls.proofs.Written.{is_bank};

use listed::is_list;
use plain::{AnyRefusal, Config, Refusal};
use position::Shown;
use result::of_answer;

// What a list is refused for where a buffer has not the length that it must have, or a setting is out of range: 11 to 14, 21, 22, 41.
fn misfit(bank: &[u8], settings: Config, store: &[u8], state: &[u8]) -> AnyRefusal
    requires { fitting settings store.now state.now ≡ false }
    ensures { (events : List ℕ) → formed events ≡ true
        → after (result_of (Err result)) store.now state.now ≡ run_over store.now state.now events (over bank.now settings) }
{
    if let Err(refusal) = bank::check(bank) {
        return AnyRefusal::Bank(refusal);
    }
    if state.len() != carried::SIZE {
        return AnyRefusal::Own(Refusal::Unsound);
    }
    if store.len() != checkpoint::SIZE {
        return AnyRefusal::Own(Refusal::Buffer);
    }
    AnyRefusal::Own(Refusal::AlarmSetting)
}

// Whether an answer is a refusal of the bank, which leaves the state's bytes.
fn is_bank(answer: Result<Shown, AnyRefusal>) -> bool
    ensures { result ≡ is_bank answer }
{
    matches!(answer, Err(AnyRefusal::Bank(_)))
}

// Whether the buffers have their lengths, and the settings are in range.
#[tactic(auto, unfolding(calls::specs::Calls::fitting, calls::specs::Carried::roomy, plain::specs::Record::sized, position::specs::Tests::both, field::specs::Row::total, plain::specs::Record::widths_of, plain::specs::Record::credit_widths))]
fn fits(settings: Config, store: &[u8], state: &[u8]) -> bool
    ensures { result ≡ fitting settings store.now state.now }
{
    state.len() == carried::SIZE
        && store.len() == checkpoint::SIZE
        && bounds::in_range(settings.alarms)
}

// A list of events is run, with the settings beside the bank. Bytes that are no list are answered 99; the result is a number of the C interface.
pub fn run_with(
    bank: &[u8],
    settings: Config,
    store: &mut [u8],
    state: &mut [u8],
    events: &[u8],
) -> u64
    ensures { after result store.new state.new ≡ run_over store.old state.old events.now (over bank.now settings) }
{
    if !fits(settings, store, state) {
        if !is_list(events) {
            return 99;
        }
        return of_answer(Err(misfit(bank, settings, store, state)));
    }
    let ran = history::run(bank, settings, store, events);
    let Some(answer) = ran.reply else {
        return 99;
    };
    if !is_bank(answer) {
        carried::write(state, ran.state);
    }
    of_answer(answer)
}
