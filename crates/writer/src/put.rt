// The parts of a bank, written one after the other into a buffer that has room for it. Widths and numbers are two lists, as in the law of rows.
ghost use Rattle.std.specs.Prelude.{◌≡◌, [], ◌∷◌, ◌++◌, ◌+◌, ◌*◌, ◌≤◌, length, take, replicate};
ghost use Rattle.std.proofs.lemmas.List.Edits.{sets};
ghost use Rattle.field.specs.Row.{row};
ghost use Rattle.arrays.specs.Encode.{setting_widths, setting_numbers, paired, step_widths, step_numbers, steps_bytes, bodies_bytes, pairs_bytes, encode};
ghost use Rattle.arrays.specs.Write.{taken_of};
ghost use Rattle.writer.specs.Asked.{Room, BodyRoom};

use arrays::Patterns;
use bank::Step;
use integer::bits;
use setting::Settings;
use stored::put_row;

// The settings up to the filter constant.
fn put_head(out: &mut [u8], settings: Settings)
    requires { 45 ≤ length out.old }
    ensures { out.new ≡ sets out.old 0 (row (take 8 setting_widths) (take 8 (setting_numbers settings))) }
{
    let numbers = [
        settings.patterns as u32,
        settings.start as u32,
        settings.outage as u32,
        bits(settings.low) as u32,
        bits(settings.high) as u32,
        bits(settings.initial) as u32,
        settings.width as u32,
        settings.filter as u32,
    ];
    put_row(out, 0, &[1, 1, 1, 2, 2, 2, 2, 2], &numbers);
}

// Four pairs of numbers of 16 bits, at an offset.
fn put_halves(out: &mut [u8], at: usize, xs: [u16; 4], ys: [u16; 4])
    requires { at + 16 ≤ length out.old }
    ensures { out.new ≡ sets out.old at (row (replicate 8 2) (paired xs ys)) }
{
    let numbers = [
        xs[0] as u32,
        ys[0] as u32,
        xs[1] as u32,
        ys[1] as u32,
        xs[2] as u32,
        ys[2] as u32,
        xs[3] as u32,
        ys[3] as u32,
    ];
    put_row(out, at, &[2; 8], &numbers);
}

// The settings.
fn put_settings(out: &mut [u8], settings: Settings)
    requires { 45 ≤ length out.old }
    ensures { out.new ≡ sets out.old 0 (row setting_widths (setting_numbers settings)) }
{
    put_head(out, settings);
    put_halves(out, 13, settings.zones, settings.waits);
    put_halves(out, 29, settings.on, settings.off);
}

// The pairs of body offset and length: the first body is due behind the pairs, each next where the one before ends.
fn put_pairs(out: &mut [u8], settings: Settings, ps: Patterns)
    requires { Room settings ps (45 + 4 * settings.patterns) out.old }
    ensures { out.new ≡ sets out.old 45 (pairs_bytes (45 + 4 * settings.patterns) (taken_of settings ps)) }
{
    let n = settings.patterns as usize;
    let mut due = 45 + 4 * n;
    for (p, count) in ps.counts[..n].iter().enumerate() {
        let size = 2 + 9 * (*count as usize);
        put_row(out, 45 + 4 * p, &[2, 2], &[due as u32, size as u32]);
        due += size;
    }
}

// A step, at an offset.
fn put_step(out: &mut [u8], at: usize, step: Step)
    requires { at + 9 ≤ length out.old }
    ensures { out.new ≡ sets out.old at (row step_widths (step_numbers step)) }
{
    let numbers = [
        bits(step.target) as u32,
        step.minutes as u32,
        step.wait as u32,
        step.signals[0] as u32,
        step.signals[1] as u32,
        step.signals[2] as u32,
        step.signals[3] as u32,
    ];
    put_row(out, at, &[2, 2, 1, 1, 1, 1, 1], &numbers);
}

// The body of a pattern, at an offset.
fn put_body(out: &mut [u8], at: usize, runs: u8, steps: &[Step])
    requires { BodyRoom (length steps.now) at out.old }
    ensures { out.new ≡ sets out.old at (row (1 ∷ 1 ∷ []) (runs ∷ length steps.now ∷ []) ++ steps_bytes steps.now) }
{
    put_row(out, at, &[1, 1], &[runs as u32, steps.len() as u32]);
    for (k, step) in steps.iter().enumerate() {
        put_step(out, at + 2 + 9 * k, *step);
    }
}

// The bodies of the n patterns, from an offset on.
fn put_bodies(out: &mut [u8], from: usize, settings: Settings, ps: Patterns)
    requires { Room settings ps (from + length (bodies_bytes (taken_of settings ps))) out.old }
    ensures { out.new ≡ sets out.old from (bodies_bytes (taken_of settings ps)) }
{
    let n = settings.patterns as usize;
    let mut at = from;
    let mut base: usize = 0;
    for p in 0..n {
        let size = ps.counts[p] as usize;
        let steps = &ps.steps[base..base + size];
        put_body(out, at, ps.runs[p], steps);
        at += 2 + 9 * size;
        base += size;
    }
}

// The whole bank, at the front.
pub fn put_bank(out: &mut [u8], settings: Settings, ps: Patterns)
    requires { Room settings ps (length (encode settings (taken_of settings ps))) out.old }
    ensures { out.new ≡ sets out.old 0 (encode settings (taken_of settings ps)) }
{
    put_settings(out, settings);
    put_pairs(out, settings, ps);
    put_bodies(out, 45 + 4 * (settings.patterns as usize), settings, ps);
}
