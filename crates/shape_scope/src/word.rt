// A scope as one word: how many places in its low five bits, and above them a bit for each place, 1 where it holds a tree. A row hands
// one to each of its parts.
ghost use Rattle.std.specs.Prelude.{◌≡◌, true, ◌&&◌, ◌≤◌, [], ◌∷◌, ◌++◌, ◌%◌, length, get_or, replicate};
ghost use Rattle.meaning.specs.Shape.{has_place, in_scope, holds_tree, a_forest};
ghost use Rattle.shape_scope.specs.Held.{held_of};
ghost use Rattle.shape_scope.specs.Scopes.{Neat, scope_of, with_forest, with_tree, hand_of, Handed, Bound};

use bits::ROWS;
use std::marker::Model;

// ---- any word, also one that is not neat. These four stay functions of a u64: `has_place` and `sees` promise their answer of every word,
// and as methods of ScopeWord they would ask for a neat one.

// How many places there are: of `x % 32` the cast loses nothing, and std has no `From` for it.
#[tactic(auto, using(crate::specs::Places::count_is))]
fn count(x: u64) -> usize
    ensures { (result ≡ length (scope_of x)) × (result ≡ x % 32) }
{
    (x % 32) as usize
}

// Whether a binder finds a place that is free: there are sixteen.
pub fn has_place(x: u64) -> bool
    ensures { result ≡ has_place (scope_of x) }
{
    count(x) < 16
}

// A variable that is in scope.
pub fn sees(x: u64, v: usize) -> bool
    ensures { result ≡ in_scope (scope_of x) v }
{
    v < count(x)
}

// A variable that is in scope and holds a tree.
#[tactic(auto, using(crate::specs::Places::seen_tree))]
pub fn sees_tree(x: u64, v: usize) -> bool
    ensures { result ≡ in_scope (scope_of x) v && holds_tree (get_or (scope_of x) v a_forest) }
{
    v < count(x) && ((x / 32) >> v) % 2 == 1
}

// ---- a scope

// What a place holds.
#[derive(Clone, Copy)]
pub enum Place {
    Forest,
    Tree,
}

// A word that is neat: at most sixteen places, and no bit past the last.
#[derive(Clone, Copy)]
pub struct ScopeWord {
    pub word: u64,
    ghost neat: { Neat word },
}

impl ScopeWord {
    // A scope with one place more, for a forest.
    pub fn add_forest(self) -> ScopeWord
        requires { has_place (scope_of self.word) ≡ true }
        ensures { scope_of result.word ≡ with_forest (scope_of self.word) }
    {
        ScopeWord {
            word: self.word + 1,
        }
    }

    // And for a tree.
    pub fn add_tree(self) -> ScopeWord
        requires { has_place (scope_of self.word) ≡ true }
        ensures { scope_of result.word ≡ with_tree (scope_of self.word) }
    {
        ScopeWord {
            word: self.word + 1 + 32 * bits::power(count(self.word)),
        }
    }

    // The one or the other.
    fn with(self, place: Place) -> ScopeWord
        requires { has_place (scope_of self.word) ≡ true }
        ensures { scope_of result.word ≡ scope_of self.word ++ held_of place ∷ [] }
    {
        match place {
            Place::Forest => self.add_forest(),
            Place::Tree => self.add_tree(),
        }
    }
}

// ---- the scopes of a table's rows, 1 to 512

#[derive(Drop)]
pub struct Scopes {
    pub words: [u64; ROWS],
}

impl Model for Scopes {
    ghost use Rattle.std.specs.Prelude.{List, ℕ};
    ghost use Rattle.shape_scope.specs.Scopes.{Words};

    ghost Value = { List ℕ };

    ghost view = { λ s. s.words };

    ghost invariant = { λ s. Words s.words };
}

impl Scopes {
    // Each without places.
    pub fn new() -> Scopes
        ensures { result ≡ replicate 513 0 }
    {
        Scopes {
            words: [0u64; ROWS],
        }
    }

    // The scope of row `r`.
    pub fn row(&self, r: usize) -> ScopeWord
        requires { r ≤ 512 }
        ensures { result.word ≡ get_or self.now r 0 }
    {
        ScopeWord {
            word: self.words[r],
        }
    }

    // A row gets a scope.
    pub fn hand(&mut self, r: usize, x: ScopeWord)
        ensures { Handed self.old self.new (hand_of r (scope_of x.word) ∷ []) }
    {
        if r < ROWS {
            self.words[r] = x.word;
        }
    }

    // Two rows get a scope each.
    #[tactic(auto, using(crate::specs::Hands::handed_more))]
    pub fn hand_two(&mut self, p: usize, x: ScopeWord, q: usize, y: ScopeWord)
        ensures { Handed self.old self.new (hand_of p (scope_of x.word) ∷ hand_of q (scope_of y.word) ∷ []) }
    {
        self.hand(p, x);
        self.hand(q, y);
    }

    // The body `r` of a binder sees one place more, if there is one that is free.
    pub fn bind(&mut self, r: usize, x: ScopeWord, place: Place) -> bool
        ensures { Bound (scope_of x.word) (hand_of r (scope_of x.word ++ held_of place ∷ []) ∷ []) self.old self.new result }
    {
        let free = has_place(x.word);
        if free {
            self.hand(r, x.with(place));
        }
        free
    }

    // A binder of queries: its value `p` sees what the row sees, its body `q` one place more.
    #[tactic(auto, using(crate::specs::Hands::handed_more))]
    pub fn bind_value(&mut self, p: usize, q: usize, x: ScopeWord, place: Place) -> bool
        ensures { Bound (scope_of x.word)
            (hand_of p (scope_of x.word) ∷ hand_of q (scope_of x.word ++ held_of place ∷ []) ∷ []) self.old self.new result }
    {
        self.hand(p, x);
        self.bind(q, x, place)
    }
}
