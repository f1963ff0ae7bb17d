// Signed numbers in two's complement, read out of bytes; and the bits of one.
#![tactic(auto, unfolding(field::specs::Field::signed_field))]

ghost use Rattle.std.specs.Prelude.{◌≡◌};
ghost use Rattle.std.specs.Int.{w16, w32};
ghost use Rattle.std.proofs.Common.{of_z};
ghost use Rattle.field.specs.Field.{signed_field};

use field::{long, word};

// The signed numbers at an offset, of 16 and of 32 bits.
pub fn signed(buffer: &[u8], at: usize) -> i16
    ensures { result ≡ signed_field w16 buffer.now at }
{
    word(buffer, at).cast_signed()
}

pub fn signed_long(buffer: &[u8], at: usize) -> i32
    ensures { result ≡ signed_field w32 buffer.now at }
{
    long(buffer, at).cast_signed()
}

// The 16 bits of a signed number.
pub fn bits(x: i16) -> u16
    ensures { result ≡ of_z w16 x }
{
    x.cast_unsigned()
}
