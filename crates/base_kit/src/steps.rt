// Counted steps: contracts alone see the count, which costs nothing when the program runs.
ghost use Rattle.std.specs.Prelude.{◌≡◌, ℕ, ◌+◌, ◌<◌};

use std::marker::Model;
use std::sync::ledger;
use std::sync::ledger::{Blank, Book, Share};

/// Keeps a whole number that contracts alone see.
pub trait Ledger {
    ghost number: { Self → ℕ };

    /// Raises the number by one.
    fn note(&mut self)
        ensures { number self.new ≡ number self.old + 1 };
}

/// The ledger of the program. It is zero bytes long; `P` names it for contracts.
#[derive(Drop)]
pub struct Tally<P: ledger::Ledger> {
    book: Book<P>,
    share: Share<P>,
}

impl<P: ledger::Ledger> Model for Tally<P> {
    ghost Value = { ℕ };

    ghost view = { λ tally. tally.book.total };

    ghost invariant = { λ tally. 0 < tally.share.parts };
}

impl<P: ledger::Ledger> Tally<P> {
    /// A tally of nothing yet.
    pub fn new(blank: Blank) -> Self
        requires name { blank.name ≡ P.name }
        requires parts { blank.parts ≡ P.parts }
        requires some { 0 < blank.parts }
        ensures { result ≡ 0 }
    {
        let (book, share) = blank.open::<P>();
        Tally { book, share }
    }
}

impl<P: ledger::Ledger> Ledger for Tally<P> {
    ghost number = { λ tally. tally };

    fn note(&mut self) {
        self.book.add(&mut self.share, 1);
    }
}

/// How many steps were taken, by the ledger that it keeps. Only `tick` moves the count.
#[derive(Drop)]
pub struct Steps<L: Ledger> {
    ledger: L,
}

impl<L: Ledger> Model for Steps<L> {
    ghost Value = { ℕ };

    ghost view = { λ steps. L.number steps.ledger };
}

impl<L: Ledger> Steps<L> {
    /// Steps that go on from the ledger's number. It takes no memory.
    pub fn new(ledger: L) -> Self
        ensures { result ≡ L.number ledger }
    {
        Steps { ledger }
    }

    /// Takes one step. It takes no memory.
    pub fn tick(&mut self)
        ensures { self.new ≡ self.old + 1 }
    {
        self.ledger.note();
    }
}
