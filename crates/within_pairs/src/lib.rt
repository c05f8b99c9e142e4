// The pairs of places, one of a table of found rows and one of the sheet's, that one tree can reach, walked until none is pending.
#![tactic(auto)]

pub mod pending;

ghost use Rattle.std.specs.Prelude.{◌≡◌, true, ◌<◌, get_or};
ghost use Rattle.bits.specs.Sets.{in_set};
ghost use Rattle.sheet.specs.Table.{rows_in};
ghost use Rattle.within_pairs.specs.Sides.{TabledBy, LikeBy, TurnBy, WalkedBy};
ghost use Rattle.within_pairs.specs.Reach.{Placed};

use crate::pending::{Pairs, Point};
use bits::Sets;
use sheet::forms::Ty;
use sheet::{Sheet, TypeTable};
use type_heads::kin::Kin;

// A table of found places: its rows, what may stand first at each row and behind each, and the kin of each place.
#[derive(Clone, Copy)]
pub struct Found<'a> {
    pub rows: &'a TypeTable<'a>,
    pub first: &'a Sets,
    pub behind: &'a Sets,
    pub kin: &'a Kin,
}

// The sheet's places: what may stand first at each row and behind each, and the places of each head.
#[derive(Clone, Copy)]
pub struct Wanted<'a> {
    pub sheet: &'a Sheet<'a>,
    pub first: &'a Sets,
    pub behind: &'a Sets,
    pub same: &'a Sets,
}

// What is behind the pair (a, b), and what is inside: a name's content is the sheet's, and goes to `fresh`.
fn turn(
    found: &Found,
    wanted: &Wanted,
    a: usize,
    b: usize,
    queue: &mut Pairs,
    fresh: &mut Pairs,
) -> bool
    requires tabled { TabledBy found.now wanted.now }
    requires placed { Placed (rows_in found.now.rows.now) found.now.behind.now a
        × (b < 576) × (in_set wanted.now.same.now (get_or found.now.kin.now a 0) b ≡ true) }
    ensures turn { TurnBy found.now wanted.now queue.old queue.new fresh.old fresh.new a b result }
    ensures kept { (queue.new.done ≡ queue.old.done) × (fresh.new.done ≡ fresh.old.done) }
{
    let found_behind = Point {
        sets: found.behind,
        set: a,
    };
    let wanted_behind = Point {
        sets: wanted.behind,
        set: b,
    };
    if !queue.meet(found_behind, wanted_behind, found.kin, wanted.same) {
        return false;
    }
    let c = found.rows.row(a);
    match c.as_type() {
        Ty::Label(_, inside) => {
            let held = type_heads::acting(wanted.sheet, b).q;
            let found_inside = Point {
                sets: found.first,
                set: inside,
            };
            let wanted_inside = Point {
                sets: wanted.first,
                set: held,
            };
            queue.meet(found_inside, wanted_inside, found.kin, wanted.same)
        }
        Ty::Name(_) => {
            let inside = type_heads::stands_for(wanted.sheet, c).q;
            let held = type_heads::acting(wanted.sheet, b).q;
            fresh.mark(inside, held);
            true
        }
        _ => true,
    }
}

// Walks the pending pairs until there is none; false at the first place without a rival.
pub fn walk(found: &Found, wanted: &Wanted, queue: &mut Pairs, fresh: &mut Pairs) -> bool
    requires tabled { TabledBy found.now wanted.now }
    requires like { LikeBy found.now wanted.now queue.old.pending }
    ensures walked { WalkedBy found.now wanted.now queue.old queue.new fresh.old fresh.new result }
    ensures kept { fresh.new.done ≡ fresh.old.done }
{
    while let Some((a, b)) = queue.take() {
        if !turn(found, wanted, a, b, queue, fresh) {
            return false;
        }
    }
    true
}
