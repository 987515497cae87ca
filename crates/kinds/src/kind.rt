//! The interface of a kind.
ghost use Rattle.std.specs.Prelude.{◌≡◌};
ghost use Rattle.kinds.specs.Kinds.{Meaning, Closed, Associates, product_of};

/// A kind of value: which values are native to it, and their product.
/// Its meaning is fixed for good, and whoever implements it shows two laws: a product of native values is native, and the product associates.
pub trait Kind {
    /// What is multiplied.
    type Value: Copy;

    ghost kind: { Self → Meaning Self.Value };

    /// Whether the value is native.
    fn is_native(&self, v: Self::Value) -> bool
        ensures value { result ≡ (kind self.now).native v };

    /// The product of two values, or nothing if either is not native.
    fn product(&self, a: Self::Value, b: Self::Value) -> Option<Self::Value>
        ensures value { result ≡ product_of (kind self.now) a b };

    ghost closed: { (k : Self) → Closed (kind k) };

    ghost assoc: { (k : Self) → Associates (kind k) };
}
