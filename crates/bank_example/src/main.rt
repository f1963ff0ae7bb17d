// Writes the bank of the document's last example, checks it, and compares it with bank.bin.
#![tactic(auto)]

ghost use Rattle.std.specs.Prelude.{◌≤◌, length};

use arrays::{Patterns, WriteRefusal};
use bank::Step;
use setting::{BankRefusal, Settings};
use std::io::Read;
use std::rt::Files;
use std::{fs, io};

fn example_settings() -> Settings {
    Settings {
        patterns: 1,
        start: 1,
        outage: 2,
        low: 0,
        high: 1000,
        initial: 200,
        width: 0,
        filter: 0,
        zones: [0; 4],
        waits: [0; 4],
        on: [0; 4],
        off: [0; 4],
    }
}

// A step with no wait and no signals.
fn plain_step(target: i16, minutes: u16) -> Step {
    Step {
        target,
        minutes,
        wait: 0,
        signals: [0; 4],
    }
}

fn example_patterns() -> Patterns {
    let mut runs = [0u8; 15];
    let mut counts = [0u8; 15];
    let mut steps = [plain_step(0, 0); 99];
    runs[0] = 1;
    counts[0] = 2;
    steps[0] = plain_step(600, 2);
    steps[1] = plain_step(600, 1);
    Patterns {
        runs,
        counts,
        steps,
    }
}

// The numbers of a refusal, one to a line, each written by itself: where a write fails, those before it were written.
fn show_refusal<R: Print>(rt: &R, refusal: BankRefusal) -> io::Result<()> {
    match refusal {
        BankRefusal::Short => println!(rt; "11"),
        BankRefusal::Setting(offset) => {
            println!(rt; "12")?;
            println!(rt; "{offset}")
        }
        BankRefusal::Pair(pair) => {
            println!(rt; "13")?;
            println!(rt; "{pair}")
        }
        BankRefusal::Body(pattern, step) => {
            println!(rt; "14")?;
            println!(rt; "{pattern}")?;
            println!(rt; "{step}")
        }
    }
}

// The numbers of what a check finds.
fn show_checked<R: Print>(rt: &R, found: Result<(), BankRefusal>) -> io::Result<()> {
    match found {
        Ok(()) => println!(rt; "0"),
        Err(refusal) => show_refusal(rt, refusal),
    }
}

// The numbers of what the writer gives, and the length of the bank that it wrote.
fn show_written<R: Print>(rt: &R, written: Result<u16, WriteRefusal>) -> io::Result<usize> {
    match written {
        Ok(size) => {
            println!(rt; "0")?;
            println!(rt; "{size}")?;
            return Ok(size as usize);
        }
        Err(WriteRefusal::Bank(refusal)) => show_refusal(rt, refusal)?,
        Err(WriteRefusal::Full) => println!(rt; "15")?,
    }
    Ok(0)
}

// The first place at which two banks differ, or the length of the shorter where the other begins with it.
fn compare<R: Print>(rt: &R, written: &[u8], stored: &[u8]) -> io::Result<()> {
    if written == stored {
        return println!(rt; "same");
    }
    let place = written
        .iter()
        .zip(stored)
        .position(|(left, right)| left != right);
    let at = place.unwrap_or(written.len().min(stored.len()));
    println!(rt; "{at}")
}

// A file is read to its end, until the buffer is full or a read fails: how many of the buffer's bytes are the file's.
// Each read says by how much the place moves on, so no iterator walks the buffer.
fn read_full<F: Read>(file: &mut F, buffer: &mut [u8]) -> usize
    ensures { result ≤ length buffer.new }
{
    let mut size: usize = 0;
    while size < buffer.len() {
        match file.read(&mut buffer[size..]) {
            Err(_) | Ok(0) => break,
            Ok(count) => size += count,
        }
    }
    size
}

// A bank is checked, and compared with the bank that is stored in a file.
fn judge<R: Files + Print + Eprint>(rt: &R, bank: &[u8]) -> io::Result<()> {
    show_checked(rt, bank::check(bank))?;
    match fs::open(rt, "bank.bin") {
        Err(error) => eprintln!(rt; "bank.bin: {error}"),
        Ok(mut file) => {
            let mut stored = [0u8; 4096];
            let count = read_full(&mut file, &mut stored);
            compare(rt, bank, &stored[..count])
        }
    }
}

fn main(rt: HostRuntime) -> io::Result<()> {
    let mut buffer = [0u8; 1011];
    let written = writer::write(example_settings(), example_patterns(), &mut buffer);
    let size = show_written(&rt, written)?;
    match buffer.get(..size) {
        Some(bank) => judge(&rt, bank),
        None => Ok(()),
    }
}
