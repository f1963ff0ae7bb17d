// Reads a bank from bank.bin and lines from standard input, runs the lines over one controller, and prints the credit of each step after the
// last line. A refused bank prints its refusal's numbers and nothing more.
#![tactic(auto)]

use controller::State;

// The credits of a state are printed.
fn print_credits<R: Print + Eprint>(rt: &R, state: State) {
    let mut out = [0u8; 65536];
    let end = credit_lines::credits(state, &mut out);
    files::show(rt, &out, end);
}

fn main(rt: HostRuntime) {
    let mut buffer = [0u8; 4096];
    let Some(size) = files::load_bank(&rt, &mut buffer) else {
        return;
    };
    if let Some(state) = terminal::run_bank(&rt, &buffer[..size], false) {
        print_credits(&rt, state);
    }
}
