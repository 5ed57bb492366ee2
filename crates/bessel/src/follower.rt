// The follower: its parameters, its last inputs and outputs, and its step.
ghost use Rattle.std.specs.Prelude.{◌≡◌, ℕ, ◌+◌, ◌*◌, ◌^◌, ◌<◌, ◌≤◌, ℤ, pos};
ghost use Rattle.std.specs.Int.{int_wrap, w32};
ghost use Rattle.logexp.specs.Held.{◌⊗◌};
ghost use Rattle.bessel.specs.Follow.{standing, delayed, restarted, newest, inputs, weighed, smoothed, filtered};

use crate::parameters::{Parameters, iir_bessel2_get_parameters};

// A follower: its parameters, and its last two inputs and outputs, the newest first.
#[derive(Clone, Copy)]
pub struct IIRBessel2 {
    parameters: Parameters,
    x: [i32; 2],
    y: [i32; 2],
}

// The low 32 bits, signed.
fn low_bits(v: i64) -> i32
    ensures { result ≡ int_wrap w32 v }
{
    (v.rem_euclid(1 << 32) as u32).cast_signed()
}

// The inputs together: the newest, twice the one before, and the one before that.
fn inputs(x: i32, x0: i32, x1: i32) -> i64
    ensures { result ≡ inputs x x0 x1 }
{
    (x as i64)
        .saturating_add((x0 as i64).saturating_mul(2))
        .saturating_add(x1 as i64)
}

// A held product.
fn product(a: i32, b: i32) -> i64
    ensures { result ≡ a ⊗ b }
{
    (a as i64).saturating_mul(b as i64)
}

// The weighed sum of inputs and outputs in Q24, and a half.
fn weighed(parameters: Parameters, xs: i64, y0: i32, y1: i32) -> i64
    ensures { result ≡ weighed parameters xs y0 y1 }
{
    xs.saturating_mul(parameters.g as i64)
        .saturating_add(product(y0, parameters.c0))
        .saturating_add(product(y1, parameters.c1))
        .saturating_add(1 << 23)
}

impl IIRBessel2 {
    // A follower of a delay that has stood at a value for long. A delay below 4 counts as 4.
    pub fn new(delay: u32, value: i32) -> IIRBessel2
        ensures { result ≡ standing delay value }
    {
        IIRBessel2 {
            parameters: iir_bessel2_get_parameters(delay),
            x: [value, value],
            y: [value, value],
        }
    }

    // Takes the parameters of another delay and keeps what went in and came out.
    pub fn reinit(&mut self, delay: u32)
        ensures { self.new ≡ delayed self.old delay }
    {
        self.parameters = iir_bessel2_get_parameters(delay);
    }

    // Takes a value for all that went in and came out, and keeps the parameters.
    pub fn restart(&mut self, value: i32)
        ensures { self.new ≡ restarted self.old value }
    {
        self.x = [value, value];
        self.y = [value, value];
    }

    // The newest output.
    pub fn last(&self) -> i32
        ensures { result ≡ newest self.now }
    {
        let [newest, _] = self.y;
        newest
    }

    // The output at the next input.
    fn output(&self, x: i32) -> i32
        ensures { result ≡ smoothed self.now x }
    {
        let sum = weighed(
            self.parameters,
            inputs(x, self.x[0], self.x[1]),
            self.y[0],
            self.y[1],
        );
        low_bits(sum >> 24)
    }

    // Takes the next input, and answers the output, which keeps its low 32 bits, signed.
    pub fn update(&mut self, x: i32) -> i32
        ensures answer { result ≡ smoothed self.old x }
        ensures after { self.new ≡ filtered self.old x }
    {
        let ya = self.output(x);
        self.x = [x, self.x[0]];
        self.y = [ya, self.y[0]];
        ya
    }
}
