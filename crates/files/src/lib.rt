// What the programs `sheet` and `credits` read and write beside lines: a bank from bank.bin, and text to standard output. Where that fails, a line
// on standard error says so here, and callers get None.
#![tactic(auto)]

ghost use Rattle.std.specs.Prelude.{◌≤◌, length, IfOk, IfSome, OnSome};
ghost use Rattle.io.specs.Counts.{IsPrefixLen};

use std::fs;
use std::io::{Error, Read, Result};
use std::rt::Files;

// A line on standard error: what could not be read or written, and why.
fn fail<R: Eprint>(rt: &R, what: &str, error: Error) {
    let _ = eprintln!(rt; "{what}: {error}");
}

// A file is read to its end, or until the buffer is full. Gives how many bytes were read: a `while`, since each read says how far it went.
fn read_file<F: Read>(file: &mut F, buffer: &mut [u8]) -> Result<usize>
    ensures { IfOk result (λ size. IsPrefixLen size buffer.new) }
{
    let mut size = 0;
    while size < buffer.len() {
        match file.read(&mut buffer[size..])? {
            0 => break,
            count => size += count,
        }
    }
    Ok(size)
}

fn read_bank<R: Files>(rt: &R, buffer: &mut [u8]) -> Result<usize>
    ensures { IfOk result (λ size. IsPrefixLen size buffer.new) }
{
    let mut file = fs::open(rt, "bank.bin")?;
    read_file(&mut file, buffer)
}

// The bank is read from bank.bin, its first bytes if it is longer than the buffer: 4,096 of them have the refusal of the whole, since the
// longest bank has 1,011 bytes (`front-tells` of crate `longest`). Gives how many bytes were read.
pub fn load_bank<R: Files + Eprint>(rt: &R, buffer: &mut [u8]) -> Option<usize>
    ensures { IfSome result (λ size. IsPrefixLen size buffer.new) }
{
    read_bank(rt, buffer)
        .map_err(|error| fail(rt, "bank.bin", error))
        .ok()
}

// The bytes of a buffer up to an end are written. None where the end is past the buffer too.
pub fn show<R: Print + Eprint>(rt: &R, out: &[u8], end: usize) -> Option<()>
    ensures { OnSome result (end ≤ length out.now) }
{
    let text = out.get(..end)?;
    rt.write_all(text)
        .map_err(|error| fail(rt, "standard output", error))
        .ok()
}
