// Runs the bit exact vectors of standard input through `measure`, and writes how many come out as
// they stand there, before the first that does not. vectors.py says what a line of 57 bytes holds.
#![tactic(auto)]

use measure::{Measured, Reading};
use std::io;
use std::io::Read;

// The value of a hexadecimal digit: 0 to 9, a to f.
fn digit(c: u8) -> u64 {
    let low = (c % 16) as u64;
    if c >= b'a' { low + 9 } else { low }
}

// The number of some hexadecimal digits.
fn hex(digits: &[u8]) -> u64 {
    digits.iter().fold(0, |x, c| (x << 4) | digit(*c))
}

// The whole number of a sign and a size of four hexadecimal digits.
fn signed(sign: u8, size: u64) -> i32 {
    let number = (size % 65536) as i32;
    if sign == b'-' { -number } else { number }
}

// The float of a bit pattern; 0 where that is a NaN's.
fn float(bits: u64) -> f64 {
    if bits % 0x8000_0000_0000_0000 <= 0x7ff0_0000_0000_0000 {
        f64::from_bits(bits)
    } else {
        0.0
    }
}

// Whether the filtered value has the bit pattern `bits`, which is no NaN's.
fn holds(m: Measured, bits: u64) -> bool {
    matches!(m, Measured::Value(y) if !y.is_nan() && y.to_bits() == bits)
}

// Whether the measured whole value is `number`.
fn shows(m: Measured, number: i32) -> bool {
    measure::whole_value(m).is_some_and(|whole| whole as i32 == number)
}

// Whether the vector of a line comes out as it stands there.
fn agrees(line: &[u8; 57]) -> bool {
    let m = Measured::Value(float(hex(&line[0..16])));
    let reading = Reading::Value(signed(line[23], hex(&line[24..28])));
    let f = (hex(&line[29..33]) % 65536) as u16;
    let next = measure::after(m, reading, f);
    shows(m, signed(line[17], hex(&line[18..22])))
        && holds(next, hex(&line[34..50]))
        && shows(next, signed(line[51], hex(&line[52..56])))
        && measure::sound(next)
        && !measure::outside(reading)
}

// Whether there is a next line, and it agrees.
fn next_agrees<I: Read>(reader: &mut I) -> bool {
    let mut line = [0u8; 57];
    if reader.read_exact(&mut line).is_err() {
        return false;
    }
    agrees(&line)
}

// How many lines agree, before the first that does not or the end; at most 1000.
fn agreeing<I: Read>(reader: &mut I) -> usize {
    for i in 0..1000 {
        if !next_agrees(reader) {
            return i;
        }
    }
    1000
}

fn main(rt: HostRuntime) -> io::Result<()> {
    let agreed = agreeing(&mut rt.reader());
    println!(rt; "{agreed} vectors ok")
}
