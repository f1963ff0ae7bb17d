// The keys of a line.
ghost use Rattle.std.specs.Prelude.{◌≡◌};
ghost use Rattle.key.specs.Line.{key_of, reading_of, valued as valued_of};

use crate::value::number;
use measure::Reading;
use plain::Event;
use position::Command;

// A key by itself.
#[tactic(auto, unfolding(crate::specs::Line::key_of))]
pub fn alone(c: u8) -> Option<Event>
    ensures { result ≡ key_of c }
{
    match c {
        b'S' => Some(Event::Press(Command::Start)),
        b'P' => Some(Event::Press(Command::Pause)),
        b'X' => Some(Event::Press(Command::Reset)),
        b'F' => Some(Event::Press(Command::Feed)),
        b'B' => Some(Event::Press(Command::Back)),
        b'+' => Some(Event::Press(Command::Plus)),
        b'-' => Some(Event::Press(Command::Minus)),
        b'C' => Some(Event::Cut),
        _ => None,
    }
}

// The reading of a value: H is over, L under.
#[tactic(auto, unfolding(crate::specs::Line::reading_of, crate::specs::Line::is_only, limits::specs::Range::both, crate::specs::Line::value_of))]
fn reading(cs: &[u8]) -> Option<Reading>
    ensures { result ≡ reading_of cs.now }
{
    match cs {
        [b'H'] => Some(Reading::Over),
        [b'L'] => Some(Reading::Under),
        _ => number(cs).map(Reading::Value),
    }
}

// A key with a value.
#[tactic(auto, using(crate::proofs::Laws::tick_is, crate::proofs::Laws::return_is), unfolding(crate::specs::Line::valued, crate::specs::Line::select))]
pub fn valued(c: u8, cs: &[u8]) -> Option<Event>
    ensures { result ≡ valued_of c cs.now }
{
    match c {
        b'N' => number(cs).map(|q| Event::Press(Command::Select(q))),
        b'T' => reading(cs).map(Event::Tick),
        b'R' => reading(cs).map(Event::Return),
        _ => None,
    }
}
