//! Links to slots, in few bytes.
ghost use Rattle.std.specs.Prelude.{◌≡◌, Some, None, IsSome, option_map};

use crate::SlotId;
use std::marker::Model;

/// A slot or none, in four bytes. An `Option<SlotId>` takes eight.
#[derive(Clone, Copy)]
pub(crate) struct Link {
    number: u32,
}

impl Model for Link {
    ghost use Rattle.std.specs.Prelude.{◌≡◌, ◌==◌, Option, Some, None, ℕ};
    ghost use Rattle.std.proofs.Common.{ap, sym, refl};
    ghost use Rattle.std.proofs.lemmas.Bool.{cond_both, eqb-true};
    ghost use Rattle.band_line.specs.Link.{nobody, link_of, number_of, IsLink};

    ghost Value = { Option ℕ };

    ghost view = { λ link. link_of link.number };

    ghost invariant = { λ link. IsLink link.number };

    ghost inverse = { λ slot. record { number = number_of slot } };

    ghost inverse_ok = { λ link h. ap (λ number. record { number = number })
        (cond_both (link.number == nobody) None (Some link.number) (λ slot. number_of slot ≡ link.number)
        (λ none. sym (eqb-true link.number nobody none)) (λ some. refl)) };
}

const _: () = prove!(size_of::<Link>() == 4);

impl Link {
    /// A link to no slot.
    pub(crate) fn none() -> Link
        ensures { result ≡ None }
    {
        Link { number: u32::MAX }
    }

    pub(crate) fn to(id: SlotId) -> Link
        ensures { result ≡ Some id }
    {
        Link {
            number: id.number(),
        }
    }

    pub(crate) fn get(self) -> Option<SlotId>
        ensures { result ≡ self }
    {
        if self.number == u32::MAX {
            None
        } else {
            Some(SlotId::at(self.number))
        }
    }
}

/// The slots that a linked node stands between.
#[derive(Clone, Copy)]
pub(crate) struct Between {
    pub(crate) prev: Link,
    pub(crate) next: Link,
}

/// The slots that a node stands between, if it is linked, in eight bytes. An `Option<Between>` takes twelve.
#[derive(Drop)]
pub(crate) struct Links {
    /// The number of a `Link`, or `DETACHED`.
    prev: u32,
    next: Link,
}

impl Model for Links {
    ghost use Rattle.std.specs.Prelude.{Option};
    ghost use Rattle.band_line.specs.declared.link.Between.{Between};

    ghost Value = { Option Between };

    ghost use Rattle.band_line.specs.Links.{links_of};

    ghost view = { λ links. links_of links.prev links.next };
}

const _: () = prove!(size_of::<Links>() == 8);

/// No `Link` has this number, since no slot has it.
const DETACHED: u32 = u32::MAX - 1;

impl Links {
    ghost use Rattle.band_line.specs.Links.{with_prev, with_next};

    pub(crate) fn detached() -> Links
        ensures { result ≡ None }
    {
        Links {
            prev: DETACHED,
            next: Link::none(),
        }
    }

    pub(crate) fn between(prev: Link, next: Link) -> Links
        ensures { result ≡ Some (record { prev = prev; next = next }) }
    {
        Links {
            prev: prev.number,
            next,
        }
    }

    pub(crate) fn get(&self) -> Option<Between>
        ensures { result ≡ self.now }
    {
        if self.prev == DETACHED {
            return None;
        }
        Some(Between {
            prev: Link { number: self.prev },
            next: self.next,
        })
    }

    pub(crate) fn set_prev(&mut self, prev: Link)
        requires { IsSome self.old }
        ensures { self.new ≡ option_map (with_prev prev) self.old }
    {
        self.prev = prev.number;
    }

    pub(crate) fn set_next(&mut self, next: Link)
        ensures { self.new ≡ option_map (with_next next) self.old }
    {
        self.next = next;
    }
}
