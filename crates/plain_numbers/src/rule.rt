//! The kinds, and their rules on plain numbers.
ghost use Rattle.std.specs.Prelude.{◌≡◌, ℕ, ◌*◌, ◌/◌, ◌^◌, ◌<◌, ◌≤◌, nat_lt, slice_index};
ghost use Rattle.bits.specs.Bits.{top};
ghost use Rattle.polynomial_ring.specs.Polynomials.{reduce, product, Reduced};
ghost use Rattle.kinds.specs.Powers.{power};
ghost use Rattle.plain_numbers.specs.Plain.{limit, times, numbers, IsRule};

/// A kind, by its modulus if it has one.
#[derive(Clone, Copy, PartialEq, Eq, Debug)]
pub enum Rule {
    Sums,
    Residues(u64),
    Polynomials(u64),
}

// The degree of a polynomial; 0 for 0, which has none.
fn degree(f: u64) -> u32
    ensures value { result ≡ top f }
    ensures bound { result < 64 }
{
    f.checked_ilog2().unwrap_or(0)
}

// t times a polynomial below the degree of f, reduced modulo f.
fn shifted(f: u64, degree: u32, x: u64) -> u64
    requires { degree < 64 }
    ensures { 2 ≤ f → degree ≡ top f → Reduced f x → result ≡ reduce (top f) f (x * 2) }
{
    let y = x.wrapping_mul(2);
    if y < 1 << degree { y } else { y ^ f }
}

// The product of two polynomials modulo f, one bit of the second factor at a time.
fn polynomial_product(f: u64, a: u64, b: u64) -> u64
    ensures { 2 ≤ f → Reduced f a → result ≡ product f a b }
{
    let degree = degree(f);
    let mut product = 0u64;
    for i in (0..64u32).rev() {
        product = shifted(f, degree, product);
        if b >> i & 1 == 1 {
            product ^= a;
        }
    }
    product
}

/// The largest native count, 2^63 - 1; a sum beyond it is cut down to it.
pub const LARGEST_COUNT: u64 = 0x7fff_ffff_ffff_ffff;

impl Rule {
    /// The number from which on values of the kind are foreign.
    pub fn limit(self) -> u64
        ensures { result ≡ limit self }
    {
        match self {
            Rule::Sums => LARGEST_COUNT + 1,
            Rule::Residues(p) => p,
            Rule::Polynomials(f) => 1 << degree(f),
        }
    }

    /// Whether a number is a value of the kind.
    pub fn is_native(self, value: u64) -> bool
        ensures { result ≡ nat_lt value (limit self) }
    {
        value < self.limit()
    }

    /// The product of two values of the kind.
    pub fn product(self, a: u64, b: u64) -> u64
        ensures { IsRule self → a < limit self → b < limit self → result ≡ times self a b }
    {
        match self {
            Rule::Sums => a.saturating_add(b).min(LARGEST_COUNT),
            Rule::Residues(p) => a.wrapping_mul(b) % p.max(2),
            Rule::Polynomials(f) => polynomial_product(f, a, b),
        }
    }

    /// The powers of a value of the kind by repeated multiplication, each in the place of its number; place 0 holds the value itself.
    pub fn powers<const N: usize>(self, base: u64) -> [u64; N]
        ensures { IsRule self → base < limit self → (n : ℕ) → n < N → slice_index result n ≡ power (numbers self) base n }
    {
        let mut powers = [base; N];
        let mut last = base;
        for (n, power) in powers.iter_mut().enumerate() {
            if n > 1 {
                last = self.product(last, base);
            }
            *power = last;
        }
        powers
    }
}
