//! A part of a part.
ghost use Rattle.std.specs.Prelude.{◌≡◌};

use crate::{Project, TotalProject};
use std::marker::PhantomData;

/// The second part of the first: a `V` in the `U` that the first picks.
pub struct Then<P, U, Q> {
    /// Picks the first part.
    pub first: P,
    /// Picks the second in it.
    pub second: Q,
    of: PhantomData<U>,
}

impl<P, U, Q> Then<P, U, Q> {
    /// First the one, and then the other in it.
    pub fn new(first: P, second: Q) -> Then<P, U, Q>
        ensures first { result.first ≡ first }
        ensures second { result.second ≡ second }
    {
        Then {
            first,
            second,
            of: PhantomData,
        }
    }
}

impl<P: Drop, U, Q: Drop> Drop for Then<P, U, Q> {
    fn drop(self) {
        let Then {
            first: _,
            second: _,
            of: _,
        } = self;
    }
}

impl<T, U, V, P: Project<T, U>, Q: Project<U, V>> Project<T, V> for Then<P, U, Q> {
    ghost use Rattle.band_project.specs.Then.{part_of_part, with_part_of_part};
    ghost use Rattle.band_project.specs.PartLaws.{part_of_part-with};

    ghost part = { λ s. part_of_part (P.part s.first) (Q.part s.second) };

    ghost with_part = { λ s. with_part_of_part (P.part s.first) (P.with_part s.first) (Q.with_part s.second) };

    ghost reads_back = { λ s. part_of_part-with (P.part s.first) (Q.part s.second) (P.with_part s.first)
        (Q.with_part s.second) (P.reads_back s.first) (Q.reads_back s.second) };

    fn present(&self, t: &T) -> bool {
        self.first.present(t) && self.second.present(self.first.get(t))
    }

    fn get<'a>(&self, t: &'a T) -> &'a V
    where
        Self: 'a,
    {
        self.second.get(self.first.get(t))
    }

    fn get_mut<'a>(t: &'a mut T, p: &Self) -> &'a mut V
    where
        Self: 'a,
    {
        Q::get_mut(P::get_mut(t, &p.first), &p.second)
    }
}

impl<T, U, V, P: TotalProject<T, U>, Q: TotalProject<U, V>> TotalProject<T, V> for Then<P, U, Q> {
    ghost use Rattle.band_project.specs.PartLaws.{IsSome-part_of_part};

    ghost is_total = { λ s. IsSome-part_of_part (P.part s.first) (Q.part s.second) (P.is_total s.first)
        (Q.is_total s.second) };
}
