//! What is linked. A refused call answers 2^64 - 1, which is no value of any kind.
ghost use Rattle.std.specs.Prelude.{◌≡◌};
ghost use Rattle.bench_exports.specs.Exports.{residue_chain, polynomial_chain, count_chain, polynomial_power, plan_checksum, place_longest};

use crate::chains::chain;
use crate::longest::place_within;
use crate::powers::raise;
use crate::sums::checksum;
use kinds::{Count, Counts, Residues};
use methods::Method;
use plans::{MOST_STEPS, NO_STEP, Step};
use polynomials::{Register, Word};
use power_tree::PARENTS;

const REFUSED: u64 = 0xffff_ffff_ffff_ffff;

/// The product of a and n times b modulo p.
#[unsafe(no_mangle)]
pub extern "C" fn residue_chain(p: u64, a: u32, b: u32, n: u64) -> u64
    ensures value { result ≡ residue_chain p a b n }
{
    let Ok(kind) = Residues::new(p) else {
        return REFUSED;
    };
    chain(&kind, a, b, n).map_or(REFUSED, u64::from)
}

/// The product of the polynomials a and n times b modulo f.
#[unsafe(no_mangle)]
pub extern "C" fn polynomial_chain(f: u64, a: u64, b: u64, n: u64) -> u64
    ensures value { result ≡ polynomial_chain f a b n }
{
    let Ok(kind) = Register::new(f) else {
        return REFUSED;
    };
    chain(&kind, Word::from(a), Word::from(b), n).map_or(REFUSED, u64::from)
}

/// The capped sum of the count a and n times b.
#[unsafe(no_mangle)]
pub extern "C" fn count_chain(a: u64, b: u64, n: u64) -> u64
    ensures value { result ≡ count_chain a b n }
{
    chain(&Counts, Count::from(a), Count::from(b), n).map_or(REFUSED, u64::from)
}

/// Power n of the polynomial x modulo f, by the plan from left to right.
#[unsafe(no_mangle)]
pub extern "C" fn polynomial_power(f: u64, x: u64, n: u64) -> u64
    ensures value { result ≡ polynomial_power f x n }
{
    let Ok(kind) = Register::new(f) else {
        return REFUSED;
    };
    raise(&kind, Word::from(x), n).map_or(REFUSED, u64::from)
}

/// The checksum of the plan of n by the method of this number and width.
#[unsafe(no_mangle)]
pub extern "C" fn plan_checksum(method: u64, width: u64, n: u64) -> u64
    ensures value { result ≡ plan_checksum method width n }
{
    let Some(chosen) = Method::numbered(method, width) else {
        return REFUSED;
    };
    let mut table = [NO_STEP; MOST_STEPS];
    let mut parents = [0u16; PARENTS];
    chosen
        .plan(n, &mut table, &mut parents)
        .map_or(REFUSED, |len| checksum(&table[..len]) / 2)
}

/// The need of a plan of 128 steps, of which the first `counted` add a_0, placed within so many cells.
#[unsafe(no_mangle)]
pub extern "C" fn place_longest(counted: u8, cells: u8) -> u64
    ensures value { result ≡ place_longest counted cells }
{
    place_within(counted, cells).map_or(REFUSED, u64::from)
}
