//! The history of what was put, which only proofs read, and the beginnings of it that were seen.
ghost use Rattle.std.specs.Prelude.{◌≡◌, ◌≤◌, ◌↔◌, ◌⊎◌, [], ◌∷◌, ◌++◌, length, IsTrue, IfSome};
ghost use Rattle.cw_board.specs.Records.{IsFirstPart};
ghost use Rattle.cw_board.specs.Books.{head_of};

use crate::posted::Posted;
use logbook::{Gain, Offer, Plain, Play, Rule, Seen, Start, Word};
use std::marker::{Brand, Model};

/// More is never put.
const MOST: u64 = 1 << 60;

/// Which board it is. Each call of a program picks it: the history that was opened there, and the number of workers.
pub trait BoardNaming {
    ghost use Rattle.std.specs.Prelude.{ℕ};
    ghost use Rattle.logbook.specs.Pages.{Book};

    /// The name of its history.
    ghost book: { Book };

    /// How many workers it has.
    ghost workers: { ℕ };
}

impl BoardNaming for Brand {
    ghost use Rattle.cw_board.specs.Books.{no_book};

    ghost book = { no_book };

    ghost workers = { 0 };
}

/// The rule of the history.
pub struct Kept;

impl Rule<Posted, u64> for Kept {
    ghost use Rattle.std.specs.Prelude.{[]};
    ghost use base.Fml.{ftrue};
    ghost use Rattle.cw_board.specs.Books.{IsKept};

    ghost holds = { λ cells log. IsKept cells log };

    ghost first = { [] };

    ghost hinted = { λ n log. Unit {0} };

    ghost shows = { λ log. [] };

    ghost keeps = { λ names log. ftrue };

    ghost moves = { λ ask before after answer. Unit {0} };
}

/// Nothing is traded.
pub struct Nothing;

impl Gain<Posted, u64> for Nothing {
    ghost use base.Fml.{ftrue};

    ghost after = { λ names about answer. ftrue };
}

/// A step that adds a record.
pub struct Add;

impl Play<Posted, u64> for Add {
    ghost use Rattle.cw_board.specs.Books.{Adds};

    ghost then = { Adds };
}

/// What it asks for: the record.
impl Plain<Posted, Posted, u64> for Add {
    ghost use Rattle.std.specs.Prelude.{None};

    ghost ask = { λ posted. posted };

    ghost state = { λ posted. None };
}

/// A history with no record, which no board has yet.
pub struct History {
    head: Word<Posted, u64, Kept>,
    pub seen: Seen<Posted, u64, Kept>,
    pub ghost empty: { seen.log ≡ [] },
    pub ghost head_is: { head ≡ head_of seen.book },
}

impl History {
    /// Opens one.
    pub fn new() -> History {
        let (seen, mut first, _second) = Seen::open(Start::alone(), 0, 0);
        History {
            head: Word::tracked(0, &mut first),
            seen,
        }
    }

    // Its word, and the beginning in which nothing was put.
    pub(crate) fn begin(self) -> (Head, Front)
        ensures head { result.0 ≡ head_of self.seen.book }
        ensures front { result.1 ≡ record { book = self.seen.book; log = [] } }
    {
        let History { head, seen } = self;
        (head, Front { count: 0, seen })
    }
}

/// The right to go on with a history.
pub type Head = Word<Posted, u64, Kept>;

/// A beginning of a history that was seen. Contracts see its records.
#[derive(Drop)]
pub struct Front {
    count: u64,
    seen: Seen<Posted, u64, Kept>,
}

impl Model for Front {
    ghost use Rattle.std.specs.Prelude.{◌≡◌, length};
    ghost use Rattle.cw_board.specs.Books.{Begun};

    ghost Value = { Begun };

    ghost view = { λ f. record { book = f.seen.book; log = f.seen.log } };

    ghost invariant = { λ f. f.count ≡ length f.seen.log };
}

impl Front {
    /// A copy.
    pub fn again(&self) -> Front
        ensures { result ≡ self.now }
    {
        Front {
            count: self.count,
            seen: self.seen.again(),
        }
    }

    /// Whether it has all records of another, and maybe more.
    pub fn goes_on_from(&self, earlier: &Front) -> bool
        requires { earlier.now.book ≡ self.now.book }
        ensures begins { IsTrue result → IsFirstPart earlier.now.log self.now.log }
        ensures longer { IsTrue result ↔ (length earlier.now.log ≤ length self.now.log) }
    {
        let mut both = self.seen.again();
        both.learn(&earlier.seen);
        earlier.count <= self.count
    }

    /// The longer of two, which has all records of both.
    pub fn longer(&self, other: &Front) -> Front
        requires { other.now.book ≡ self.now.book }
        ensures one { (result ≡ self.now) ⊎ (result ≡ other.now) }
        ensures this { IsFirstPart self.now.log result.log }
        ensures that { IsFirstPart other.now.log result.log }
    {
        if self.goes_on_from(other) {
            return self.again();
        }
        let _longer = other.goes_on_from(self);
        other.again()
    }

    /// With one record more. There is none where too many were put.
    pub fn with(&self, head: &Head, posted: &Posted) -> Option<Front>
        requires { head.now ≡ head_of self.now.book }
        ensures book { IfSome result (λ front. front.book ≡ self.now.book) }
        ensures log { IfSome result (λ front. front.log ≡ self.now.log ++ posted.now ∷ []) }
    {
        if self.count >= MOST {
            return None;
        }
        let mut offer: Offer<Posted, u64, Kept, Nothing> = self
            .seen
            .plain::<Nothing, Posted, Add>(posted);
        let mut pen = self.seen.no_pen();
        let count = self.count;
        let mut seen = self.seen.again();
        let found = head.compare_exchange::<Add, Nothing>(
            count,
            count + 1,
            &mut seen,
            &mut offer,
            &mut pen,
        );
        if found != count {
            return None;
        }
        Some(Front {
            count: count + 1,
            seen,
        })
    }
}
