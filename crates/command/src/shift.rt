// Plus and minus: a minute more or less of a step, or of its wait; 30 where they cannot move.
ghost use Rattle.std.specs.Prelude.{◌≡◌};
ghost use Rattle.command.specs.Moves.{plus_move, minus_move};

use plain::Refusal;
use position::{Here, Position};

// Plus.
#[tactic(auto, unfolding(crate::specs::Moves::plus_move, position::specs::Command::plus_moves, position::specs::Command::plus_position, position::specs::Tests::both))]
pub fn plus(here: Here, position: Position) -> Result<Position, Refusal>
    ensures { result ≡ plus_move here position }
{
    let Position {
        elapsed,
        waited,
        ..
    } = position;
    if here.endless {
        return Err(Refusal::Stuck);
    }
    if elapsed < here.time {
        if elapsed.saturating_add(60) < here.time {
            return Ok(Position {
                elapsed: elapsed + 60,
                ..position
            });
        }
        return Err(Refusal::Stuck);
    }
    if waited.saturating_add(60) < here.wait {
        return Ok(Position {
            waited: waited + 60,
            ..position
        });
    }
    Err(Refusal::Stuck)
}

// Minus.
#[tactic(auto, unfolding(crate::specs::Moves::minus_move, position::specs::Command::minus_moves, position::specs::Command::minus_position, position::specs::Tests::both, position::specs::Tests::either))]
pub fn minus(here: Here, position: Position) -> Result<Position, Refusal>
    ensures { result ≡ minus_move here position }
{
    if here.endless {
        return Err(Refusal::Stuck);
    }
    if position.elapsed < here.time {
        let elapsed = position.elapsed.checked_sub(60).ok_or(Refusal::Stuck)?;
        return Ok(Position {
            elapsed,
            ..position
        });
    }
    if let Some(waited) = position.waited.checked_sub(60) {
        return Ok(Position { waited, ..position });
    }
    let elapsed = here.time.checked_sub(60).ok_or(Refusal::Stuck)?;
    Ok(Position {
        elapsed,
        waited: 0,
        ..position
    })
}
