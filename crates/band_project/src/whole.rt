//! The value itself as its part.
ghost use Rattle.std.specs.Prelude.{◌≡◌, Some, true};

use crate::{Project, TotalProject};

/// The part that is the value itself.
#[derive(Clone, Copy)]
pub struct Whole;

impl<T> Project<T, T> for Whole {
    ghost use Rattle.std.specs.Prelude.{refl};

    ghost part = { λ _ t. Some t };

    ghost with_part = { λ _ _ u. u };

    ghost reads_back = { λ _ _ _ _. refl };

    fn present(&self, _t: &T) -> bool {
        true
    }

    fn get<'a>(&self, t: &'a T) -> &'a T
    where
        Self: 'a,
    {
        t
    }

    fn get_mut<'a>(t: &'a mut T, _p: &Self) -> &'a mut T
    where
        Self: 'a,
        ensures name { result.ghost_name ≡ t.entry.ghost_name }
        ensures value { result.now ≡ t.old }
    {
        t
    }
}

impl<T> TotalProject<T, T> for Whole {
    ghost use Rattle.std.specs.Prelude.{refl};

    ghost is_total = { λ _ _. refl };
}
