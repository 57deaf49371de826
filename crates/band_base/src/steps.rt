//! The counter of visits.
ghost use Rattle.std.specs.Prelude.{◌≡◌, ◌+◌, ◌<◌};

use std::marker::{Brand, Model};
use std::sync::ledger::{Blank, Book, Ledger, Share};

/// How often a slot of an arena was visited. It takes no bytes when it runs, and only `tick` changes it.
#[derive(Drop)]
pub struct Steps<L: Ledger> {
    book: Book<L>,
    share: Share<L>,
}

const _: () = prove!(size_of::<Steps<Brand>>() == 0);

impl<L: Ledger> Model for Steps<L> {
    ghost use Rattle.std.specs.Prelude.{ℕ, ◌<◌};

    ghost Value = { ℕ };

    ghost view = { λ s. s.book.total };

    ghost invariant = { λ s. 0 < s.share.parts };
}

impl<L: Ledger> Steps<L> {
    /// A counter at 0, of the ledger that `blank` opens.
    pub fn new(blank: Blank) -> Steps<L>
        requires name { blank.name ≡ L.name }
        requires parts { blank.parts ≡ L.parts }
        requires some { 0 < blank.parts }
        ensures { result ≡ 0 }
    {
        let (book, share) = blank.open();
        Steps { book, share }
    }

    /// One visit more.
    pub fn tick(&mut self)
        ensures { self.new ≡ self.old + 1 }
    {
        self.book.add(&mut self.share, 1);
    }
}
