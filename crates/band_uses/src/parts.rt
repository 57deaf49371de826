//! Parts of values.
ghost use Rattle.std.specs.Prelude.{◌≡◌, ◌↔◌, Some, IsSome, IsTrue};
ghost use Rattle.std.specs.Bool.{OnTrue, OnFalse};

use band_project::Project;

/// What an option has.
#[derive(Clone, Copy)]
pub struct Inside;

impl<T> Project<Option<T>, T> for Inside {
    ghost use Rattle.std.specs.Prelude.{Some, refl};

    ghost part = { λ _ option. option };

    ghost with_part = { λ _ _ value. Some value };

    ghost reads_back = { λ _ _ _ _. refl };

    fn present(&self, option: &Option<T>) -> bool {
        option.is_some()
    }

    fn get<'a>(&self, option: &'a Option<T>) -> &'a T
    where
        Self: 'a,
    {
        option.as_ref().unwrap()
    }

    fn get_mut<'a>(option: &'a mut Option<T>, _p: &Self) -> &'a mut T
    where
        Self: 'a,
    {
        option.as_mut().unwrap()
    }
}

/// Writes the part, if it is there, and tells whether it was.
pub fn write<T, U: Drop, P: Project<T, U>>(value: &mut T, parts: &P, part: U) -> bool
    ensures there { IsTrue result ↔ IsSome (P.part parts.now value.old) }
    ensures written { OnTrue result (P.part parts.now value.new ≡ Some part) }
    ensures kept { OnFalse result (value.new ≡ value.old) }
{
    if !parts.present(value) {
        return false;
    }
    *P::get_mut(value, parts) = part;
    true
}
