// Small parts of a state: the run with power off, the place of a step's credit, and one more.
#![tactic(auto)]

ghost use Rattle.std.specs.Prelude.{◌≡◌, ◌+◌, ◌-◌, min};
ghost use Rattle.plain.specs.Event.{dark_run};

use alarm::{Alarm, Alarms};
use measure::Measured;
use plain::Run;
use position::Position;

// The run of a state with power off, all zeros. Written out: a derived Default would be needed on three types of other crates for this place alone.
#[tactic(auto, unfolding(plain::specs::Event::dark_run))]
pub fn dark_run() -> Run
    ensures { result ≡ dark_run }
{
    let clear = Alarm { flags: 0, count: 0 };
    Run {
        position: Position {
            mode: 0,
            pattern: 0,
            step: 0,
            pass: 0,
            elapsed: 0,
            waited: 0,
            base: 0,
        },
        unsaved: 0,
        measured: Measured::NoReading,
        alarms: Alarms {
            first: clear,
            second: clear,
            third: clear,
            fourth: clear,
        },
    }
}

// The place of the credit of step k, which counts from 1; 0 where there is no step.
pub fn place_of(k: u8) -> usize
    ensures { result ≡ k - 1 }
{
    k.saturating_sub(1) as usize
}

// One more, held at 4,294,967,295.
pub fn one_more(credit: u32) -> u32
    ensures { result ≡ min (credit + 1) 4294967295 }
{
    credit.saturating_add(1)
}
