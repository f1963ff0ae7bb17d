// Numbers written into bytes, low byte first, at an offset. A write that does not fit changes nothing, so no function asks anything of its caller.
#![tactic(auto)]

ghost use Rattle.std.specs.Prelude.{◌≡◌, cond, ◌+◌, ◌≤◌, length, eqb, leb};
ghost use Rattle.std.proofs.lemmas.List.Edits.{sets};
ghost use Rattle.field.specs.Field.{digits, stored};
ghost use Rattle.field.specs.Row.{row, total, stored_row, RowFits};

// The `width` low bytes of a number are written at an offset, if they fit there.
pub fn put(buffer: &mut [u8], at: usize, width: usize, v: u64)
    ensures { buffer.new ≡ stored width buffer.old at v }
{
    if buffer.len() < width || buffer.len() - width < at {
        return;
    }
    put_digits(&mut buffer[at..at + width], v);
}

fn put_digits(place: &mut [u8], v: u64)
    ensures { place.new ≡ digits (length place.old) v }
{
    let mut rest = v;
    // By its index, which the edit `bytes_over_each_other` needs to write all bytes in one place.
    for i in 0..place.len() {
        place[i] = (rest % 256) as u8;
        rest /= 256;
    }
}

// Bytes are written at an offset, if they fit there.
pub fn put_bytes<const N: usize>(buffer: &mut [u8], at: usize, bytes: &[u8; N])
    ensures { buffer.new ≡ cond (leb (at + N) (length buffer.old)) (sets buffer.old at bytes.now) buffer.old }
{
    if N <= buffer.len() && at <= buffer.len() - N {
        // One by one: `copy_from_slice` waits for an array whose parts were written just before (an event took a tenth longer).
        for i in 0..N {
            buffer[at + i] = bytes[i];
        }
    }
}

// Numbers are written one after the other at an offset, each in its own width, if they fit there. Widths and numbers are two slices, since the law
// of rows (`row`) is about two lists.
pub fn put_row(buffer: &mut [u8], at: usize, widths: &[u8], numbers: &[u32])
    ensures { buffer.new ≡ stored_row widths.now buffer.old at numbers.now }
{
    if numbers.len() < widths.len() {
        return;
    }
    if buffer.len() < at {
        return;
    }
    if !has_room(widths, buffer.len() - at) {
        return;
    }
    put_all(buffer, at, widths, numbers);
}

// Whether the widths take no more than `room` bytes.
fn has_room(widths: &[u8], room: usize) -> bool
    ensures { result ≡ leb (total widths.now) room }
{
    let mut left = room;
    for width in widths {
        let Some(less) = left.checked_sub(*width as usize) else {
            return false;
        };
        left = less;
    }
    true
}

fn put_all(buffer: &mut [u8], at: usize, widths: &[u8], numbers: &[u32])
    requires { RowFits widths.now buffer.old at numbers.now }
    ensures { buffer.new ≡ sets buffer.old at (row widths.now numbers.now) }
{
    let mut to = at;
    for (width, v) in widths.iter().zip(numbers) {
        let end = to + *width as usize;
        put_digits(&mut buffer[to..end], *v as u64);
        to = end;
    }
}

// A buffer becomes the copy of one that has its length; any other is left as it was.
pub fn copy(buffer: &mut [u8], source: &[u8])
    ensures { buffer.new ≡ cond (eqb (length buffer.old) (length source.now)) source.now buffer.old }
{
    if buffer.len() == source.len() {
        // One by one: `copy_from_slice` makes the static library ask its host for `memmove`.
        for i in 0..source.len() {
            buffer[i] = source[i];
        }
    }
}
