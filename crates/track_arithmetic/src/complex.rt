// Complex whole numbers.
ghost use Rattle.std.specs.Prelude.{◌≡◌, ℕ, ◌+◌, ◌-◌, ◌*◌, ◌^◌, ◌≤◌, nat_abs, ◌+ℤ◌, ◌-ℤ◌, ◌*ℤ◌};
ghost use Rattle.track_arithmetic.specs.Laws.{IsWithin};
ghost use Rattle.track_arithmetic.specs.Numbers.{conjugate, minus, plus, power, scaled, times};

/// A complex whole number.
#[derive(Clone, Copy, Debug, Default, PartialEq, Eq)]
pub struct Complex {
    /// The real part.
    pub re: i64,
    /// The imaginary part.
    pub im: i64,
}

// The product of a number and a part of a direction.
fn product(x: i64, part: i64) -> i64
    requires x { nat_abs x ≤ 2 ^ 46 }
    requires part { nat_abs part ≤ 2 ^ 15 }
    ensures is { result ≡ x *ℤ part }
    ensures small { nat_abs result ≤ 2 ^ 61 }
{
    x * part
}

impl Complex {
    /// The product. The factor's parts are at most 2^15, as those of a direction and those of a cell are, and the
    /// number's at most 2^46.
    pub fn times(self, factor: Complex) -> Complex
        requires self_within { IsWithin (2 ^ 46) self }
        requires factor_within { IsWithin (2 ^ 15) factor }
        ensures is { result ≡ times self factor }
        ensures within { (a b : ℕ) → IsWithin a self → IsWithin b factor → IsWithin (2 * (a * b)) result }
    {
        Complex {
            re: product(self.re, factor.re) - product(self.im, factor.im),
            im: product(self.re, factor.im) + product(self.im, factor.re),
        }
    }

    /// The number with its imaginary part negated. Its parts are at most 2^62.
    pub fn conjugate(self) -> Complex
        requires { IsWithin (2 ^ 62) self }
        ensures is { result ≡ conjugate self }
        ensures within { (a : ℕ) → IsWithin a self → IsWithin a result }
    {
        Complex {
            re: self.re,
            im: -self.im,
        }
    }

    /// The sum of two numbers with parts of at most 2^61.
    pub fn plus(self, other: Complex) -> Complex
        requires self_within { IsWithin (2 ^ 61) self }
        requires other_within { IsWithin (2 ^ 61) other }
        ensures is { result ≡ plus self other }
        ensures within { (a b : ℕ) → IsWithin a self → IsWithin b other → IsWithin (a + b) result }
    {
        Complex {
            re: self.re + other.re,
            im: self.im + other.im,
        }
    }

    /// The difference of two numbers with parts of at most 2^61.
    pub fn minus(self, other: Complex) -> Complex
        requires self_within { IsWithin (2 ^ 61) self }
        requires other_within { IsWithin (2 ^ 61) other }
        ensures is { result ≡ minus self other }
        ensures within { (a b : ℕ) → IsWithin a self → IsWithin b other → IsWithin (a + b) result }
    {
        Complex {
            re: self.re - other.re,
            im: self.im - other.im,
        }
    }

    /// The number times a coefficient of at most 2^15. Its parts are at most 2^46.
    pub fn scaled(self, coefficient: i64) -> Complex
        requires self_within { IsWithin (2 ^ 46) self }
        requires coefficient { nat_abs coefficient ≤ 2 ^ 15 }
        ensures is { result ≡ scaled coefficient self }
        ensures within { (a b : ℕ) → IsWithin a self → nat_abs coefficient ≤ b → IsWithin (b * a) result }
    {
        Complex {
            re: product(self.re, coefficient),
            im: product(self.im, coefficient),
        }
    }

    /// The square of the amplitude. The parts are below 2^31.
    pub fn power(self) -> u64
        requires { IsWithin (2 ^ 31 - 1) self }
        ensures is { result ≡ power self }
        ensures within { (a : ℕ) → IsWithin a self → result ≤ 2 * (a * a) }
    {
        let (re, im) = (self.re.unsigned_abs(), self.im.unsigned_abs());
        re * re + im * im
    }
}
