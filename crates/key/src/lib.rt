// One line of the program `sheet`: what it asks for.
#![tactic(auto)]

ghost use Rattle.std.specs.Prelude.{◌≡◌};
ghost use Rattle.key.specs.Line.{asked_by};

use plain::Event;

mod key;
mod value;

// What a line asks for. The line is its bytes, without the newline that ends it.
#[tactic(auto, unfolding(crate::specs::Line::asked_by))]
pub fn parse(line: &[u8]) -> Option<Event>
    ensures { result ≡ asked_by line.now }
{
    match line {
        [c] => key::alone(*c),
        [c, b' ', value @ ..] => key::valued(*c, value),
        _ => None,
    }
}
