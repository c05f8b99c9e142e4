// A tally of users: the references to each row, counted up to 2.
ghost use Rattle.std.specs.Prelude.{◌≡◌, ◌<◌, ◌≤◌, ◌+◌, ◌&&◌, ℕ, cond, eqb, get_or, replicate};
ghost use Rattle.meaning.specs.Tests.{every, total};
ghost use Rattle.meaning.specs.Shape.{hit, hits};
ghost use Rattle.sheet.specs.Laid.{cells_of};
ghost use Rattle.shape_kinds.specs.Told.{use_of, uses_in};
ghost use Rattle.shape_users.specs.Tally.{UpToTwo, Added, refers, counted};

use shape_kinds::{Use, Uses};
use sheet::{Procedure, Row};

// The words of a row that count: those that refer to a row of its own table, or those that refer to a query.
#[derive(Clone, Copy)]
pub(crate) enum Counted {
    Own,
    Queries,
}

impl Counted {
    #[tactic(auto, unfolding(meaning::specs::Shape::own, meaning::specs::Shape::asking))]
    fn has(self, u: Use) -> bool
        ensures { result ≡ counted self (use_of u) }
    {
        match self {
            Counted::Own => matches!(u, Use::Part | Use::Link),
            Counted::Queries => matches!(u, Use::Query),
        }
    }

    // The row to which a word of this use refers.
    fn row(self, u: Use, w: usize) -> Option<usize>
        ensures { (r : ℕ) → refers result r ≡ cond (counted self (use_of u) && eqb w r) 1 0 }
    {
        self.has(u).then_some(w)
    }
}

// A place for each of the rows 1 to 2,048, and for 0.
#[derive(Drop)]
pub struct Tally {
    pub counts: [u8; 2049],
    ghost small: { UpToTwo counts },
}

impl Tally {
    pub fn new() -> Tally
        ensures { result.counts ≡ replicate 2049 0 }
    {
        Tally { counts: [0; 2049] }
    }

    // One more user of a row, if there is one.
    pub fn refer(&mut self, row: Option<usize>)
        ensures { Added self.old.counts self.new.counts (refers row) }
    {
        let Some(w) = row else {
            return;
        };
        if w <= 2048 && self.counts[w] < 2 {
            self.counts[w] += 1;
        }
    }

    // The words of a row, those that count.
    #[inline(always)]
    #[tactic(auto, unfolding(meaning::specs::Shape::own, meaning::specs::Shape::asking))]
    pub(crate) fn refer_row(&mut self, which: Counted, k: Option<Uses>, c: Row)
        ensures { Added self.old.counts self.new.counts (λ r. hits (counted which) r (uses_in k) (cells_of c)) }
    {
        let Some(u) = k else {
            return;
        };
        self.refer(which.row(u.p, c.p));
        self.refer(which.row(u.q, c.q));
        self.refer(which.row(u.r, c.r));
    }

    // A procedure's two parameters, its input and its output.
    pub(crate) fn refer_procedure(&mut self, c: Procedure)
        ensures { Added self.old.counts self.new.counts
            (λ r. hit r c.first + hit r c.second + hit r c.input + hit r c.output) }
    {
        self.refer(Some(c.first));
        self.refer(Some(c.second));
        self.refer(Some(c.input));
        self.refer(Some(c.output));
    }

    // What each of the rows 1 to `n` refers to.
    #[inline(always)]
    pub(crate) fn each<F: Fn(&mut Tally, usize)>(&mut self, n: usize, count: F)
        requires few { n < 65536 }
        requires called { F.IsAlwaysCallable count }
        ensures { (amount : ℕ → ℕ → ℕ)
            → ((i : ℕ) (t u : _) → F.post count t i tt u → Added t.now.counts u.now.counts (λ r. amount r i))
            → Added self.old.counts self.new.counts (λ r. total (amount r) n) }
    {
        for i in 0..n {
            count(self, i + 1);
        }
    }
}

// Each of the rows 1 to `n` has one user.
pub fn all_one(counts: &[u8; 2049], n: usize) -> bool
    requires { n ≤ 2048 }
    ensures { result ≡ every (λ i. eqb (get_or counts.now i 0) 1) n }
{
    (1..n + 1).all(|i| counts[i] == 1)
}
