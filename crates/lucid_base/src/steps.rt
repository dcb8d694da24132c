// A count of the steps that a call takes, for contracts alone: it takes no bytes and no time.
ghost use Rattle.std.specs.Prelude.{◌≡◌, ◌+◌, ◌<◌};

use std::marker::Model;
use std::sync::ledger::{Blank, Book, Ledger, Share};

/// How many ticks there were, which contracts see as that number. `L` names the one counter of its kind:
/// code that is generic in `L` can make no other and put it in the place of the one it is lent, so only `tick` changes the number.
#[derive(Drop)]
pub struct Steps<L: Ledger> {
    book: Book<L>,
    share: Share<L>,
}

impl<L: Ledger> Model for Steps<L> {
    ghost use Rattle.std.specs.Prelude.{ℕ, ◌<◌};

    ghost Value = { ℕ };

    ghost view = { λ s. s.book.total };

    ghost invariant = { λ s. 0 < s.share.parts };
}

/// Returns the start of a counter. A caller that counts nothing passes `uncounted()` with `Brand` for `L` to a function over `L: Ledger`,
/// which makes a counter of it by `Steps::new`: `f::<Brand>(.., uncounted())`.
pub fn uncounted() -> Blank
    ensures { result.parts ≡ 1 }
{
    Blank::new(1)
}

impl<L: Ledger> Steps<L> {
    /// Makes a counter at 0 from the blank ledger of `L`.
    pub fn new(blank: Blank) -> Steps<L>
        requires name { blank.name ≡ L.name }
        requires parts { blank.parts ≡ L.parts }
        requires cut { 0 < L.parts }
        ensures { result ≡ 0 }
    {
        let (book, share) = blank.open();
        Steps { book, share }
    }

    /// Counts one step.
    pub fn tick(&mut self)
        ensures { self.new ≡ self.old + 1 }
    {
        self.book.add(&mut self.share, 1);
    }
}
