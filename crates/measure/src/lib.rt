// The measured value: what a reading makes of it, and the whole number that it counts as.
#![tactic(auto)]

ghost use Rattle.std.specs.Prelude.{◌≡◌};
ghost use Rattle.measure.specs.Bound.{Near};
ghost use Rattle.measure.specs.Asked.{AboveNought};
ghost use Rattle.measure.specs.Filter.{kept, lagged, within, rounded, nearest, first_of, after_of, whole_of, sound_of, outside_of};

// The measured value: none read yet, past an end of the range, or the filtered value y.
#[derive(Clone, Copy)]
pub enum Measured {
    NoReading,
    Over,
    Under,
    Value(f64),
}

// What the sensor reads: past an end of its range, or the value v.
#[derive(Clone, Copy)]
pub enum Reading {
    Over,
    Under,
    Value(i32),
}

// Whether refusal 25 meets a reading: its value is outside -19,999 to 29,999.
#[tactic(auto, unfolding(crate::specs::Filter::outside_of))]
pub fn outside(reading: Reading) -> bool
    ensures { result ≡ outside_of reading }
{
    match reading {
        Reading::Over | Reading::Under => false,
        Reading::Value(v) => !(-19999..=29999).contains(&v),
    }
}

// Whether y is a number within -19,999 and 29,999. No NaN is: each of its tests is false.
fn inside(y: f64) -> bool
    ensures { result ≡ within y }
{
    (-19999.0..=29999.0).contains(&y)
}

// x, kept within -19,999 and 29,999. The tests are `>=` and `<=`, so that a NaN would be kept in
// range too, which `clamp` would return: the result is in range whatever x is.
fn keep(x: f64) -> f64
    ensures { result ≡ kept x }
{
    if x >= -19999.0 {
        if x <= 29999.0 { x } else { 29999.0 }
    } else {
        -19999.0
    }
}

// The lag: y + ((v - y) * 10) / (10 + f), each operation rounded once in that order.
fn lag(y: f64, v: f64, f: u16) -> f64
    ensures { result ≡ lagged y v f }
{
    let d = (10 + (f as u32)) as f64;
    y + ((v - y) * 10.0) / d
}

// What a tick's reading makes of the measured value m, with the filter constant F, here f.
#[tactic(auto, unfolding(crate::specs::Filter::after_of))]
pub fn after(m: Measured, reading: Reading, f: u16) -> Measured
    ensures { result ≡ after_of m reading f }
{
    match (m, reading) {
        (_, Reading::Over) => Measured::Over,
        (_, Reading::Under) => Measured::Under,
        (Measured::Value(y), Reading::Value(v)) if f != 0 => {
            Measured::Value(keep(lag(y, v as f64, f)))
        }
        (_, Reading::Value(v)) => Measured::Value(v as f64),
    }
}

// What a first reading makes of the measured value: there is no y before it.
pub fn first(reading: Reading) -> Measured
    ensures { result ≡ first_of reading }
{
    after(Measured::NoReading, reading, 0)
}

// A number x above 0 in range, to the nearest whole number, a half up. Twice x is a float exactly,
// so its whole part, with one added and halved, is x with a half rounded up.
fn half_up(x: f64) -> i16
    requires { AboveNought x }
    ensures { result ≡ rounded x }
{
    let doubled = std::num::truncating_f64_to_u64(x * 2.0);
    ((doubled + 1) / 2) as i16
}

// y to the nearest whole number, halves away from zero; 0 where y is out of range or no number.
fn round(y: f64) -> i16
    ensures { result ≡ nearest y }
{
    if !inside(y) {
        0
    } else if y > 0.0 {
        half_up(y)
    } else if y < 0.0 {
        -half_up(-y)
    } else {
        0
    }
}

// The measured whole value: the whole number nearest to y, where there is one.
#[tactic(auto, unfolding(crate::specs::Filter::whole_of))]
pub fn whole_value(m: Measured) -> Option<i16>
    ensures value { result ≡ whole_of m }
    ensures near { Near m result }
{
    match m {
        Measured::NoReading | Measured::Over | Measured::Under => None,
        Measured::Value(y) => Some(round(y)),
    }
}

// Whether any y lies within -19,999 and 29,999.
#[tactic(auto, unfolding(crate::specs::Filter::sound_of))]
pub fn sound(m: Measured) -> bool
    ensures { result ≡ sound_of m }
{
    match m {
        Measured::NoReading | Measured::Over | Measured::Under => true,
        Measured::Value(y) => inside(y),
    }
}
