//! A part of a value.
ghost use Rattle.std.specs.Prelude.{◌≡◌, Option, Some, IsSome, IsTrue, ◌↔◌};
ghost use Rattle.std.specs.Borrow.{Lends, sem};

/// Picks a part of a value, which may be absent: a `U` in a `T`.
pub trait Project<T, U> {
    /// The part of a value, if it is there.
    ghost part: { Self → T → Option U };

    /// The value with this as its part.
    ghost with_part: { Self → T → U → T };

    /// Is the part there?
    fn present(&self, t: &T) -> bool
        ensures { IsTrue result ↔ IsSome (part self.now t.now) };

    /// The part.
    fn get<'a>(&self, t: &'a T) -> &'a U
    where
        Self: 'a,
        requires { IsSome (part self.now t.now) }
        ensures { part self.now t.now ≡ Some result.now };

    /// The part, to be written. The value comes first: a call is proved to lend only from its first argument.
    fn get_mut<'a>(t: &'a mut T, p: &Self) -> &'a mut U
    where
        Self: 'a,
        requires { IsSome (part p.now t.old) }
        ensures* writes_back { sem 𝓛 (Lends T.row U.row t.entry result (with_part p.now t.old)) }
        ensures value { part p.now t.old ≡ Some result.now };

    /// A part that was written is there, and is what was written.
    ghost reads_back: { (p : Self) (t : T) (u : U) → IsSome (part p t) → part p (with_part p t u) ≡ Some u };
}

/// One whose part is there in every value.
pub trait TotalProject<T, U>: Project<T, U> {
    /// The part is there.
    ghost is_total: { (p : Self) (t : T) → IsSome (Self.part p t) };
}
