// What both walks carry: the purse, by value, and the scope of sixteen places.
#![tactic(auto)]

ghost use Rattle.std.specs.Prelude.{◌≡◌, ◌+◌, ◌<◌, ◌≤◌};
ghost use Rattle.walk.specs.Concern.{concern_of};
ghost use Rattle.walk.specs.Purse.{Paid};
ghost use Rattle.walk.specs.Scope.{Fresh, More, value_of};
ghost use Rattle.walk.specs.declared.Stop.TheVariants.{Fuel};

// Units that are left.
#[derive(Clone, Copy, Debug, PartialEq, Eq)]
pub struct Purse {
    pub left: usize,
}

// A purse that holds too few units.
#[derive(Clone, Copy, Debug, PartialEq, Eq)]
pub struct Spent;

impl Purse {
    // The purse with one unit less, or Spent.
    pub fn take(self) -> Result<Purse, Spent>
        ensures { Paid self.left 1 result }
    {
        self.pay(1)
    }

    // `n` units, one at a time: Spent where they exceed the purse.
    pub fn pay(self, n: usize) -> Result<Purse, Spent>
        ensures { Paid self.left n result }
    {
        let left = self.left.checked_sub(n).ok_or(Spent)?;
        Ok(Purse { left })
    }

    // The units that it no longer holds, of `fuel`.
    pub fn spent(self, fuel: usize) -> usize
        requires { self.left ≤ fuel }
        ensures { result + self.left ≡ fuel }
    {
        fuel - self.left
    }
}

// A place of the scope: 1 for a forest variable, 2 for a tree variable; its value is a row.
// The kind stays a number: `with` promises `More` for every kind, and an enum of the two would ask more of its callers.
#[derive(Clone, Copy)]
pub struct Place {
    pub kind: u8,
    pub value: u16,
}

#[derive(Clone, Copy)]
pub struct Scope {
    pub places: [Place; 16],
    pub count: usize,
}

impl Scope {
    // No places.
    pub fn new() -> Scope
        ensures { Fresh result }
    {
        Scope {
            places: [Place { kind: 0, value: 0 }; 16],
            count: 0,
        }
    }

    // One place more. A row's number is a word: `as u16` loses nothing, and `try_from` would have an error that cannot be.
    pub fn with(self, kind: u8, value: usize) -> Scope
        requires { (self.count < 16) × (value < 65536) }
        ensures { More self result kind value }
    {
        let mut next = self;
        next.places[self.count] = Place {
            kind,
            value: value as u16,
        };
        next.count += 1;
        next
    }

    // The value of variable `v`: of none, the empty forest's row.
    pub fn value(self, v: usize) -> usize
        requires { self.count ≤ 16 }
        ensures { result ≡ value_of self v }
    {
        if self.count <= v {
            return 0;
        }
        usize::from(self.places[v].value)
    }
}

// The row whose rule asks: a query, a statement, or the declared output, which has none.
#[derive(Clone, Copy, Debug, PartialEq, Eq)]
pub enum Concern {
    Output,
    Query(usize),
    Statement(usize),
}

impl Concern {
    pub fn row(self) -> usize
        ensures { result ≡ (concern_of self).row }
    {
        match self {
            Concern::Output => 0,
            Concern::Query(row) => row,
            Concern::Statement(row) => row,
        }
    }

    // 1 for a query, 2 for a statement.
    pub fn flag(self) -> usize
        ensures { result ≡ (concern_of self).flag }
    {
        match self {
            Concern::Output => 0,
            Concern::Query(_) => 1,
            Concern::Statement(_) => 2,
        }
    }
}

// Where a walk stands: how many rows are in use, and the units that are left.
#[derive(Clone, Copy, Debug, PartialEq, Eq)]
pub struct Left {
    pub used: usize,
    pub purse: Purse,
}

// What a walk gives: the row of its value, and where it left off.
#[derive(Clone, Copy, Debug, PartialEq, Eq)]
pub struct Got {
    pub root: usize,
    pub left: Left,
}

// What ends a run's walk besides a forest; the purse is what was left.
#[derive(Clone, Copy, Debug, PartialEq, Eq)]
pub enum Stop {
    Fuel,
    Depth(Purse),
    Stuck(Concern, Purse),
}

impl From<Spent> for Stop {
    ghost from_gives = { λ _ e. e ≡ Fuel };

    fn from(_spent: Spent) -> Stop {
        Stop::Fuel
    }
}
