//! Parts of a pair, and of an option.
ghost use Rattle.std.specs.Prelude.{◌≡◌, ◌↔◌, Some, IsSome, IsTrue};
ghost use Rattle.std.specs.Bool.{OnTrue, OnFalse};

use crate::{Project, Then, TotalProject, Whole};
use std::test::Fail;

/// The first of a pair.
#[derive(Clone, Copy)]
struct First;

impl Project<(Option<u8>, u8), Option<u8>> for First {
    ghost use Rattle.std.specs.Prelude.{refl};

    ghost part = { λ _ t. Some t.0 };

    ghost with_part = { λ _ t u. (u, t.1) };

    ghost reads_back = { λ _ _ _ _. refl };

    fn present(&self, _t: &(Option<u8>, u8)) -> bool {
        true
    }

    fn get<'a>(&self, t: &'a (Option<u8>, u8)) -> &'a Option<u8>
    where
        Self: 'a,
    {
        &t.0
    }

    fn get_mut<'a>(t: &'a mut (Option<u8>, u8), _p: &Self) -> &'a mut Option<u8>
    where
        Self: 'a,
    {
        &mut t.0
    }
}

/// What an option has.
#[derive(Clone, Copy)]
struct Inside;

impl Project<Option<u8>, u8> for Inside {
    ghost use Rattle.std.specs.Prelude.{refl};

    ghost part = { λ _ t. t };

    ghost with_part = { λ _ _ u. Some u };

    ghost reads_back = { λ _ _ _ _. refl };

    fn present(&self, t: &Option<u8>) -> bool {
        t.is_some()
    }

    fn get<'a>(&self, t: &'a Option<u8>) -> &'a u8
    where
        Self: 'a,
    {
        t.as_ref().unwrap()
    }

    fn get_mut<'a>(t: &'a mut Option<u8>, _p: &Self) -> &'a mut u8
    where
        Self: 'a,
    {
        t.as_mut().unwrap()
    }
}

/// Writes the part, if it is there.
fn write<T, P: Project<T, u8>>(t: &mut T, p: &P, value: u8) -> bool
    ensures there { IsTrue result ↔ IsSome (P.part p.now t.old) }
    ensures written { OnTrue result (P.part p.now t.new ≡ Some value) }
    ensures kept { OnFalse result (t.new ≡ t.old) }
{
    if !p.present(t) {
        return false;
    }
    *P::get_mut(t, p) = value;
    true
}

#[test]
fn a_part_of_a_part_is_written(rt: HostRuntime) -> Result<(), Fail> {
    let both = Then::new(First, Inside);
    let mut pair = (Some(3), 4);
    assert!(rt; both.present(&pair));
    assert_eq!(rt; *both.get(&pair), 3);
    assert!(rt; write(&mut pair, &both, 7));
    assert_eq!(rt; pair, (Some(7), 4));
    Ok(())
}

#[test]
fn where_one_part_is_absent_both_are(rt: HostRuntime) -> Result<(), Fail> {
    let both = Then::new(First, Inside);
    let mut pair = (None, 4);
    assert!(rt; !both.present(&pair));
    assert!(rt; !write(&mut pair, &both, 7));
    assert_eq!(rt; pair, (None, 4));
    Ok(())
}

/// Reads a part that is always there.
fn read<T, P: TotalProject<T, u8>>(t: &T, p: &P) -> u8
    ensures { P.part p.now t.now ≡ Some result }
{
    *p.get(t)
}

#[test]
fn the_whole_value_is_a_part(rt: HostRuntime) -> Result<(), Fail> {
    let twice = Then::new(Whole, Whole);
    let mut value = 3;
    assert_eq!(rt; read(&value, &twice), 3);
    assert!(rt; write(&mut value, &twice, 7));
    assert_eq!(rt; value, 7);
    Ok(())
}
