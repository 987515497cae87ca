//! The smallest divisor of a number.
ghost use Rattle.std.specs.Prelude.{◌≡◌, ◌≢◌, ℕ, ◌*◌, ◌%◌, ◌^◌, ◌<◌, ◌≤◌, ◌⊎◌, MatchOption};
ghost use Rattle.factor_plans.specs.Divisors.{Least, least_of};

// The first number from 2 up that divides n or is past its square root.
fn search_end(n: u64) -> Option<u64>
    ensures { MatchOption result ((k : ℕ) → 2 ≤ k → k < 2 ^ 32 → (k * k ≤ n) × (n % k ≢ 0)) (λ d. (2 ≤ d) × (d < 2 ^ 32) × ((n < d * d) ⊎ (n % d ≡ 0)) × ((k : ℕ) → 2 ≤ k → k < d → (k * k ≤ n) × (n % k ≢ 0))) }
{
    (2..1 << 32).find(|d| *d * *d > n || n % *d == 0)
}

/// The smallest divisor of n above 1; 0 and 1 are given none.
pub fn least_divisor(n: u64) -> Option<u64>
    ensures answer { result ≡ least_of n }
    ensures least { MatchOption result (n < 2) (λ p. Least n p) }
{
    if n < 2 {
        return None;
    }
    match search_end(n) {
        Some(d) if d * d <= n => Some(d),
        _ => Some(n),
    }
}
