//! The request that each method checks first: the exponent, the method's own limits, the table.
ghost use Rattle.std.specs.Prelude.{◌≡◌, ◌^◌, ◌<◌, ◌≤◌, true, OnOk};
ghost use Rattle.planning.specs.Planning.{exponent_request, request};

use plans::{MOST_STEPS, TOP_EXPONENT};
use refusals::Refusal;

/// Whether n is an exponent.
pub fn check_exponent(n: u64) -> Result<(), Refusal>
    ensures answer { result ≡ exponent_request n }
    ensures positive { OnOk result (1 ≤ n) }
    ensures bounded { OnOk result (n < 2 ^ 63) }
{
    if n == 0 || n > TOP_EXPONENT {
        return Err(Refusal::Exponent);
    }
    Ok(())
}

/// Whether a method can plan the exponent n into a table of so many places; `allowed` says that n and the width are within the method's own limits.
pub fn check_request(allowed: bool, n: u64, places: usize) -> Result<(), Refusal>
    ensures answer { result ≡ request allowed n places }
    ensures allowed { OnOk result (allowed ≡ true) }
    ensures positive { OnOk result (1 ≤ n) }
    ensures bounded { OnOk result (n < 2 ^ 63) }
    ensures places { OnOk result (128 ≤ places) }
{
    check_exponent(n)?;
    if !allowed {
        return Err(Refusal::Method);
    }
    if places < MOST_STEPS {
        return Err(Refusal::TableShort(MOST_STEPS as u64));
    }
    Ok(())
}
