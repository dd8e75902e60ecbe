//! What `==` tells of two values.

ghost use Rattle.std.specs.Prelude.{Bool};

/// What an answer of `==` means. A derived `==` has no clause to say it, so this law does.
pub trait EqMeans: PartialEq {
    // what an answer says of two values
    ghost means: { Self → Self → Bool → Type 0 };

    // each answer of `==` says it
    ghost holds: { (a b : Self) → means a b (Self.eq a b) };
}
