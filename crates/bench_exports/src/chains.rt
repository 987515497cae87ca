//! Chains of products, of any kind.
ghost use Rattle.std.specs.Prelude.{◌≡◌};
ghost use Rattle.bench_exports.specs.Chains.{chain_of};

use kinds::Kind;

/// The product of a and n times b, or nothing if either is not native.
pub(crate) fn chain<K: Kind>(kind: &K, a: K::Value, b: K::Value, n: u64) -> Option<K::Value>
    ensures value { result ≡ chain_of (K.kind kind.now) a b n }
{
    if !kind.is_native(a) || !kind.is_native(b) {
        return None;
    }
    let mut product = a;
    for _ in 0..n {
        product = kind.product(product, b).unwrap();
    }
    Some(product)
}
