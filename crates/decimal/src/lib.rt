// Numbers as text, written at a place of a buffer.
#![tactic(auto)]

ghost use Rattle.std.specs.Prelude.{◌≡◌, cond};
ghost use Rattle.decimal.specs.Text.{put, put_of};

use itoa::Buffer;

// A line of numbers, if there is room for it: one space between them, a newline at the end. The place where a text goes on stands beside its buffer,
// here and in what calls this, since nothing is allocated.
pub fn put_line(out: &mut [u8], at: usize, numbers: &[i64]) -> usize
    ensures { put out.new result ≡ put_of out.old at numbers.now }
{
    if out.len() < at {
        return at;
    }
    if (out.len() - at) / 21 < numbers.len() {
        return at;
    }
    let mut buffer = Buffer::new();
    let mut to = at;
    for (i, &x) in numbers.iter().enumerate() {
        let text = buffer.format(x).as_bytes();
        let end = to + text.len();
        out[to..end].copy_from_slice(text);
        out[end] = separator(i + 1 < numbers.len());
        to = end + 1;
    }
    to
}

// What stands behind a number, where more follow, and behind the last.
fn separator(more: bool) -> u8
    ensures { result ≡ cond more 32 10 }
{
    if more { b' ' } else { b'\n' }
}
