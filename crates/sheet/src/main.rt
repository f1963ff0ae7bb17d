// Reads a bank from bank.bin and lines from standard input, runs the lines over one controller, and prints the text of each. A refused
// bank prints its refusal's numbers and nothing more.
#![tactic(auto)]

fn main(rt: HostRuntime) {
    let mut buffer = [0u8; 4096];
    if let Some(size) = files::load_bank(&rt, &mut buffer) {
        terminal::run_bank(&rt, &buffer[..size], true);
    }
}
