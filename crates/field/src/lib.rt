// Numbers in bytes, low byte first, read at an offset. Bytes past the end read as 0, so no function asks anything of its caller.
#![tactic(auto)]

ghost use Rattle.std.specs.Prelude.{◌≡◌, ℕ, ◌+◌, ◌*◌, ◌<◌, slice_index};
ghost use Rattle.std.specs.Int.{w16};
ghost use Rattle.std.proofs.Common.{to_z};
ghost use Rattle.field.specs.Field.{field};

// The numbers whose bytes these are: one call each, with a contract by arithmetic. The readers of a bank need the first, `long` the second.
pub fn join2(low: u8, high: u8) -> u16
    ensures { result ≡ low + 256 * high }
{
    u16::from_le_bytes([low, high])
}

pub fn join4(first: u8, second: u8, third: u8, fourth: u8) -> u32
    ensures { result ≡ first + 256 * second + 65536 * (third + 256 * fourth) }
{
    u32::from_le_bytes([first, second, third, fourth])
}

// The N bytes at an offset; where all of them are there, they are read at once.
fn bytes<const N: usize>(buffer: &[u8], at: usize) -> [u8; N]
    ensures { (i : ℕ) → i < N → slice_index result i ≡ slice_index buffer.now (at + i) }
{
    let Some(rest) = buffer.get(at..) else {
        return [0; N];
    };
    if let Some(all) = rest.first_chunk() {
        return *all;
    }
    let mut some = [0; N];
    for (i, x) in some.iter_mut().enumerate() {
        *x = byte(rest, i);
    }
    some
}

// The number of one byte at an offset, of two, of four and of eight.
#[tactic(auto, using(crate::proofs::Laws::reads))]
pub fn byte(buffer: &[u8], at: usize) -> u8
    ensures { result ≡ field 1 buffer.now at }
{
    buffer.get(at).copied().unwrap_or(0)
}

#[tactic(auto, using(crate::proofs::Laws::reads))]
pub fn word(buffer: &[u8], at: usize) -> u16
    ensures { result ≡ field 2 buffer.now at }
{
    u16::from_le_bytes(bytes(buffer, at))
}

#[tactic(auto, using(crate::proofs::Laws::reads))]
pub fn long(buffer: &[u8], at: usize) -> u32
    ensures { result ≡ field 4 buffer.now at }
{
    // Four bytes that are there are joined from where they stand: out of what `bytes` gives, they took twice the time.
    if let Some([first, second, third, fourth, ..]) = buffer.get(at..) {
        return join4(*first, *second, *third, *fourth);
    }
    u32::from_le_bytes(bytes(buffer, at))
}

#[tactic(auto, using(crate::proofs::Laws::reads))]
pub fn quad(buffer: &[u8], at: usize) -> u64
    ensures { result ≡ field 8 buffer.now at }
{
    u64::from_le_bytes(bytes(buffer, at))
}

// The signed number whose bits these are.
pub fn signed_of(x: u16) -> i16
    ensures { result ≡ to_z w16 x }
{
    x.cast_signed()
}
