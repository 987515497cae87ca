//! Checksums of steps.
ghost use Rattle.std.specs.Prelude.{◌≡◌};
ghost use Rattle.bench_exports.specs.Plans.{mixed, checksum_from};

use plans::Step;

// A checksum with one step more.
fn mix(sum: u64, step: Step) -> u64
    ensures { result ≡ mixed sum step }
{
    let citations = u64::from(step.j) * 65536 + u64::from(step.k);
    sum.wrapping_mul(1000003)
        .wrapping_add(step.value)
        .wrapping_add(citations)
}

/// The checksum of the steps.
pub(crate) fn checksum(steps: &[Step]) -> u64
    ensures value { result ≡ checksum_from 0 steps.now }
{
    steps.iter().fold(0, |sum, step| mix(sum, *step))
}
