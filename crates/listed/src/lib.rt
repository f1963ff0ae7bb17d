// A list of events as bytes: five bytes each, a kind, then the value as a signed 32-bit number, low byte first.
#![tactic(auto)]

ghost use Rattle.std.specs.Prelude.{◌≡◌};
ghost use Rattle.plain.specs.Listed.{event_of_kind, asked_at, formed};

use field::byte;
use integer::signed_long;
use measure::Reading;
use plain::Event;
use position::Command;

// The last of the known kinds.
const LAST: u8 = 14;

// What a kind with a value asks for; the kinds are numbers in the C interface and in a list.
#[tactic(auto, unfolding(plain::specs::Listed::event_of_kind))]
pub fn event_of(kind: u32, v: i32) -> Option<Event>
    ensures { result ≡ event_of_kind kind v }
{
    match kind {
        0 => Some(Event::Tick(Reading::Value(v))),
        1 => Some(Event::Tick(Reading::Over)),
        2 => Some(Event::Tick(Reading::Under)),
        3 => Some(Event::Press(Command::Select(v))),
        4 => Some(Event::Press(Command::Start)),
        5 => Some(Event::Press(Command::Pause)),
        6 => Some(Event::Press(Command::Reset)),
        7 => Some(Event::Press(Command::Feed)),
        8 => Some(Event::Press(Command::Back)),
        9 => Some(Event::Press(Command::Plus)),
        10 => Some(Event::Press(Command::Minus)),
        11 => Some(Event::Cut),
        12 => Some(Event::Return(Reading::Value(v))),
        13 => Some(Event::Return(Reading::Over)),
        14 => Some(Event::Return(Reading::Under)),
        _ => None,
    }
}

// What the five bytes at an offset ask for. Bytes past the end read as 0.
pub fn asked_at(bytes: &[u8], at: usize) -> Option<Event>
    ensures { result ≡ asked_at bytes.now at }
{
    if bytes.len() <= at {
        return event_of(0, 0);
    }
    let v = signed_long(bytes, at + 1);
    event_of(byte(bytes, at) as u32, v)
}

// Whether bytes are a list of events.
pub fn is_list(bytes: &[u8]) -> bool
    ensures { result ≡ formed bytes.now }
{
    if bytes.len() % 5 != 0 {
        return false;
    }
    for at in (0..bytes.len()).step_by(5) {
        if LAST < byte(bytes, at) {
            return false;
        }
    }
    true
}
