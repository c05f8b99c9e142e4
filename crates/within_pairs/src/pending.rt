// Pairs of places, a found one and a wanted one: those still to be looked at, and those that are done.
ghost use Rattle.std.specs.Prelude.{◌≡◌, true, false, ℕ, ◌≤◌, ◌<◌, IfSome, IsNone};
ghost use Rattle.bits.specs.Sets.{in_set, LowestBoth};
ghost use Rattle.within_pairs.specs.Queue.{Pairs as PairsOf, zeros, Idle, Marked, Unflagged, Taken};
ghost use Rattle.within_pairs.specs.Meet.{Facing, Outcome};

use bits::{PLACES, Sets, WORDS};
use std::marker::Model;
use type_heads::kin::Kin;

// What may stand at one point: a set of a table.
#[derive(Clone, Copy)]
pub struct Point<'a> {
    pub sets: &'a Sets,
    pub set: usize,
}

impl<'a> Point<'a> {
    // Whether no place need stand there: End is place 0.
    fn may_end(self) -> bool
        requires { self.set ≤ 512 }
        ensures { result ≡ in_set self.entry.sets.now self.entry.set 0 }
    {
        bits::has(self.sets, self.set, 0)
    }
}

// Pending pairs are bits, set a of `pending` for found place a; set 0 has the places with pending pairs. So are done ones, of `done`.
#[derive(Drop)]
pub struct Pairs {
    pending: Sets,
    done: Sets,
}

impl Model for Pairs {
    ghost use Rattle.within_pairs.specs.Queue.{Pairs as PairsOf, Queue};

    ghost Value = { PairsOf };

    ghost view = { λ q. record { pending = q.pending; done = q.done } };

    ghost invariant = { λ q. Queue q.pending q.done };
}

// Place `a` is off set 0 if it has no pending pair.
fn unflag(a: usize, pending: &mut Sets)
    requires le_a { (1 ≤ a) × (a ≤ 512) }
    requires a_value { in_set pending.old 0 a ≡ true }
    ensures { Unflagged pending.old pending.new a }
{
    if PLACES <= bits::lowest_both(pending, a, pending, a, 1) {
        bits::remove(pending, 0, a);
    }
}

impl Pairs {
    // None yet.
    pub fn new() -> Pairs
        ensures { result ≡ record { pending = zeros; done = zeros } }
    {
        let pending = [0u64; WORDS];
        let done = [0u64; WORDS];
        Pairs { pending, done }
    }

    // No pair is done any longer.
    pub fn forget(&mut self)
        ensures { self.new ≡ record { pending = self.old.pending; done = zeros } }
    {
        self.done.fill(0);
    }

    // A pair that is not done is pending.
    pub fn mark(&mut self, a: usize, b: usize)
        requires { (1 ≤ a) × (a ≤ 512) × (1 ≤ b) × (b < 576) }
        ensures marked { Marked self.old.pending self.new.pending self.old.done a b }
        ensures kept { self.new.done ≡ self.old.done }
    {
        if !bits::has(&self.done, a, b) {
            bits::add(&mut self.pending, a, b);
            bits::add(&mut self.pending, 0, a);
        }
    }

    // Takes the lowest pending pair of place `a`: it is done.
    pub fn take_of(&mut self, a: usize) -> usize
        requires { (a < 576) × (in_set self.old.pending 0 a ≡ true) }
        ensures { Taken self.old.pending self.new.pending self.old.done self.new.done a result }
    {
        let b = bits::lowest_both(&self.pending, a, &self.pending, a, 1);
        bits::remove(&mut self.pending, a, b);
        unflag(a, &mut self.pending);
        bits::add(&mut self.done, a, b);
        b
    }

    // Takes the lowest pending pair: it is done. None where no pair is pending.
    pub fn take(&mut self) -> Option<(usize, usize)>
        ensures lowest { IfSome result (λ x. LowestBoth self.old.pending 0 self.old.pending 0 1 x.0) }
        ensures taken { IfSome result (λ x. Taken self.old.pending self.new.pending self.old.done self.new.done x.0 x.1) }
        ensures none { IsNone result → (self.new ≡ self.old) × Idle self.old.pending }
    {
        let a = bits::lowest_both(&self.pending, 0, &self.pending, 0, 1);
        if PLACES <= a {
            return None;
        }
        Some((a, self.take_of(a)))
    }

    // Whether a found point and a wanted one go together: each place of the first has a rival in the second, a place of set kin[a] of
    // `same`, and the two are marked; End needs End.
    pub fn meet(&mut self, found: Point, wanted: Point, kin: &Kin, same: &Sets) -> bool
        requires { Facing found.sets.now found.set wanted.sets.now wanted.set kin.now }
        ensures outcome { Outcome found.entry.sets.now found.entry.set wanted.entry.sets.now wanted.entry.set kin.now same.now
            self.old.pending self.new.pending self.old.done result }
        ensures kept { self.new.done ≡ self.old.done }
    {
        if found.may_end() && !wanted.may_end() {
            return false;
        }
        // The members of a set, lowest first: no index is counted.
        let mut a = bits::lowest_both(found.sets, found.set, found.sets, found.set, 1);
        while a < PLACES {
            let like = usize::from(kin[a]);
            let b = bits::lowest_both(wanted.sets, wanted.set, same, like, 1);
            if PLACES <= b {
                return false;
            }
            self.mark(a, b);
            a = bits::lowest_both(found.sets, found.set, found.sets, found.set, a + 1);
        }
        true
    }
}
