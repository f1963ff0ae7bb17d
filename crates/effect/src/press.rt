// What a command does.
ghost use Rattle.plain.specs.declared.Event.{Event};
ghost use Rattle.effect.specs.Done.{DoesPress};

use crate::answers::accepted;
use crate::{Done, Progress};
use plain::Refusal;
use position::{Command, Here};
use setting::Settings;

// A command: 23, 26 to 30. An accepted command saves.
pub fn press(
    bank: &[u8],
    settings: Settings,
    here: Here,
    power: bool,
    mut progress: Progress,
    pressed: Command,
) -> Result<Done, Refusal>
    ensures { DoesPress bank.now settings here power progress (Event.Press pressed) result }
{
    if !power {
        return Err(Refusal::PowerOff);
    }
    let whole = measure::whole_value(progress.measured);
    progress.position = command::command(bank, settings, here, whole, progress.position, pressed)?;
    Ok(accepted(true, progress))
}
