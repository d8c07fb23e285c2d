// IEEE 754 doubles: the leaves that add and compare. No other crate has a float operator.
#![tactic(auto)]

ghost use Rattle.std.specs.Prelude.{◌≡◌};
ghost use Rattle.doubles.specs.Double.{minus_ten, sum, less, is_finite, lower_of, of_pattern};
ghost use Rattle.doubles.specs.Units.{units};
ghost use Rattle.doubles.specs.Pattern.{Reads, Written};

// The sum, rounded once. It may be an infinity.
pub fn added(a: f64, s: f64) -> f64
    ensures { units result ≡ sum (units a) (units s) }
{
    a + s
}

// Whether a is strictly greater than b. No NaN is, and +0 is not greater than -0.
pub fn better(a: f64, b: f64) -> bool
    ensures { result ≡ less (units b) (units a) }
{
    a > b
}

// The lower of the two: b only where it is strictly less.
pub fn lower(a: f64, b: f64) -> f64
    ensures { units result ≡ lower_of (units a) (units b) }
{
    if b < a { b } else { a }
}

// "minus 10, rounded once"
pub fn minus_ten(x: f64) -> f64
    ensures { units result ≡ sum (units x) minus_ten }
{
    x - 10.0
}

// 2 ^ 1024 - 2 ^ 971
const LARGEST: f64 = 1.7976931348623157e308;

// Neither a NaN nor an infinity: every finite double lies between the largest and its negative.
pub fn is_finite(x: f64) -> bool
    ensures { result ≡ is_finite (units x) }
{
    if x < -LARGEST {
        return false;
    }
    x <= LARGEST
}

// The weights of a pattern's sign and of its exponent's field, and that field of an infinity or a NaN.
const SIGN: u64 = 9223372036854775808;

const LEAD: u64 = 4503599627370496;

const ALL_ONES: u64 = 2047;

// What a pattern stands for.
#[derive(Clone, Copy)]
pub enum Pattern {
    Finite(f64),
    // whether it is negative
    Infinite(bool),
    NotANumber,
}

// The double of a bit pattern. Every u64 has an answer: NaN and infinity patterns are named, and only a finite double comes as
// an f64.
pub fn from_bits(n: u64) -> Pattern
    ensures { Reads result (of_pattern n) }
{
    if n % SIGN / LEAD == ALL_ONES {
        if n % LEAD == 0 {
            return Pattern::Infinite(n >= SIGN);
        }
        return Pattern::NotANumber;
    }
    Pattern::Finite(f64::from_bits(n))
}

// The pattern that `from_bits` reads as x. A NaN has many, so none is given. Only a NaN differs from itself.
pub fn to_bits(x: f64) -> Option<u64>
    ensures { Written result (units x) }
{
    if x == x {
        return Some(f64::to_bits(x));
    }
    None
}
