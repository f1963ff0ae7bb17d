// A position in a pattern, what a bank says there, and what is shown of it. There is no code here.
#![tactic(auto)]

// Where a run stands.
#[derive(Clone, Copy)]
pub struct Position {
    pub mode: u8, // 0 stopped, 1 running, 2 paused, 3 ended; a number, since one out of range has a refusal, 21 or 31
    pub pattern: u8, // p
    pub step: u8, // k
    pub pass: u16, // r
    pub elapsed: u32, // e, seconds
    pub waited: u32, // w, seconds
    pub base: i16, // b
}

// What a bank says at a position: of its step, and of its pattern.
#[derive(Clone, Copy)]
pub struct Here {
    pub target: i16,
    pub endless: bool,
    pub time: u32, // T, seconds
    pub timer: bool, // the timer before the first ramp
    pub number: u8, // wait number, 0 in the timer
    pub zone: u16, // wait zone of that number
    pub wait: u32, // W, seconds
    pub signals: [u8; 4], // time signals
    pub count: u8, // s, the number of steps
    pub limit: u16, // of passes
}

// The four time signals, on or off, as fields and no array: definitions and theorems (`signals_of`, `numbers_of`) name each.
#[derive(Clone, Copy)]
pub struct Signals {
    pub first: bool,
    pub second: bool,
    pub third: bool,
    pub fourth: bool,
}

// What an accepted answer carries.
#[derive(Clone, Copy)]
pub struct Shown {
    pub value: i16, // set value
    pub signals: Signals,
}

// The commands. Select carries the pattern asked for.
#[derive(Clone, Copy)]
pub enum Command {
    Select(i32),
    Start,
    Pause,
    Reset,
    Feed,
    Back,
    Plus,
    Minus,
}
