// Ties, and whether a well shaped sheet is sound: refusals 3 and 4. Ones count the places of a head at a point; trailing zeros find the
// lowest and its lowest rival.
// `shapely s.now` stays a clause, here and above: the meaning's word for what Shape has seen, which stands above a lent sheet's own type.
#![tactic(auto)]

ghost use Rattle.std.specs.Prelude.{◌≡◌, true, false, List, Bool, ℕ, ◌+◌, ◌<◌, ◌≤◌, replicate};
ghost use Rattle.meaning.specs.Sheet.{script_of};
ghost use Rattle.meaning.specs.Shape.{shapely};
ghost use Rattle.meaning.specs.Reply.{Loads};
ghost use Rattle.bits.specs.Sets.{in_set, Clear};
ghost use Rattle.type_barren.specs.Flags.{flag};
ghost use Rattle.type_places.specs.Tables.{set_of};
ghost use Rattle.type_heads.specs.Classes.{Classes};
ghost use Rattle.type_ties.specs.Points.{PointTie, OfPlace, Least, Lower, AtStart, AtPlace, Upto};
ghost use Rattle.type_ties.specs.Sound.{Empty, Made, SaysTie, sound_of};

use bits::{Flags, PLACES, ROWS, Sets, WORDS};
use sheet::Sheet;
use type_heads::kin::Kin;
use type_heads::{HEADS, Leads};

// The tables of a sheet's types: what may stand where each row begins (`first`) and behind each place (`behind`), End as place 0; the
// lowest place of each head (`class`), the set of all that have it (`same`), and for each place the number of that set (`kin`).
#[derive(Drop)]
pub struct Tables {
    pub first: Sets,
    pub behind: Sets,
    pub class: Leads,
    pub same: Sets,
    pub kin: Kin,
}

impl Tables {
    // Nothing stands anywhere.
    pub fn new() -> Tables
        ensures { Empty result }
    {
        Tables {
            first: [0; WORDS],
            behind: [0; WORDS],
            class: [0; HEADS],
            same: [0; WORDS],
            kin: [0; PLACES],
        }
    }
}

// Two tied rows. They are ordered by the row, then by the rival.
#[derive(Clone, Copy, PartialEq, Eq, PartialOrd, Ord)]
pub struct Tied {
    pub row: usize,
    pub rival: usize,
}

// The lower of two, where there are two.
fn lower(best: Option<Tied>, found: Option<Tied>) -> Option<Tied>
    ensures { Lower best found result }
{
    match (best, found) {
        (Some(old), Some(new)) => Some(old.min(new)),
        (one, None) | (None, one) => one,
    }
}

// The lowest place with the head of place `i` at one point, set `k` of `t`, with its lowest rival.
#[tactic(auto, using(type_heads::specs::Classes::classes_low))]
fn of_place(s: &Sheet, t: &Sets, k: usize, i: usize, tables: &Tables) -> Option<Tied>
    requires s_value { shapely s.now ≡ true }
    requires k_bound { (k ≤ 512) × (i < 576) }
    requires i_value { in_set t.now k i ≡ true }
    requires classes { Classes s.now tables.now.class tables.now.same }
    ensures { OfPlace s.now (set_of t.now k) i result }
{
    let h = type_heads::head(s, i);
    if HEADS <= h {
        return None;
    }
    let c = usize::from(tables.class[h]);
    if !bits::several_both(t, k, &tables.same, c) {
        return None;
    }
    let row = bits::lowest_both(t, k, &tables.same, c, 0);
    let rival = bits::lowest_both(t, k, &tables.same, c, row + 1);
    Some(Tied { row, rival })
}

// The lowest tie at one point. The next member of a set is found by trailing zeros: no range or chain of std's steps so, and a `for` over
// all places would test each of the 576.
fn at_point(s: &Sheet, t: &Sets, k: usize, tables: &Tables) -> Option<Tied>
    requires s_value { shapely s.now ≡ true }
    requires k_bound { k ≤ 512 }
    requires classes { Classes s.now tables.now.class tables.now.same }
    ensures { Least (PointTie s.now (set_of t.now k)) result }
{
    let mut i = bits::lowest_both(t, k, t, k, 1);
    while i < PLACES {
        if let Some(tied) = of_place(s, t, k, i, tables) {
            return Some(tied);
        }
        i = bits::lowest_both(t, k, t, k, i + 1);
    }
    None
}

// The lowest tie where row `i` begins, if that is a root.
fn at_start(s: &Sheet, i: usize, root: &Flags, tables: &Tables) -> Option<Tied>
    requires s_value { shapely s.now ≡ true }
    requires i_bound { i ≤ 512 }
    requires classes { Classes s.now tables.now.class tables.now.same }
    ensures { Least (AtStart s.now root.now tables.now.first i) result }
{
    if root[i] {
        return at_point(s, &tables.first, i, tables);
    }
    None
}

// The lowest tie behind row `i`, if that is a place.
fn at_place(s: &Sheet, i: usize, tables: &Tables) -> Option<Tied>
    requires s_value { shapely s.now ≡ true }
    requires i_bound { i ≤ 512 }
    requires classes { Classes s.now tables.now.class tables.now.same }
    ensures { Least (AtPlace s.now tables.now.behind i) result }
{
    if type_heads::head(s, i) < HEADS {
        return at_point(s, &tables.behind, i, tables);
    }
    None
}

// The lowest row concerned with its lowest rival, over all points: where a model begins, and behind each place.
#[tactic(auto, using(meaning::specs::Laws::Shaped::few_types))]
fn tie(s: &Sheet, root: &Flags, tables: &Tables) -> Option<Tied>
    requires s_value { shapely s.now ≡ true }
    requires classes { Classes s.now tables.now.class tables.now.same }
    ensures { Least (Upto s.now root.now tables.now.first tables.now.behind (script_of s.now).types) result }
{
    let mut best = None;
    for i in 0..s.types() {
        best = lower(best, at_start(s, i + 1, root, tables));
        best = lower(best, at_place(s, i + 1, tables));
    }
    best
}

// Makes the tables of a sheet but for the kin: what may stand first at each row and behind each, and the places of each head; and on the
// way which rows may be empty, and which are models.
pub fn make(s: &Sheet, null: &mut Flags, root: &mut Flags, tables: &mut Tables)
    requires s_value { shapely s.now ≡ true }
    requires root_value { (y : ℕ) → flag root.old y ≡ false }
    requires clear { Clear tables.old.first × Clear tables.old.behind × Clear tables.old.same }
    requires class_value { tables.old.class ≡ replicate 1026 0 }
    ensures made { Made s.now null.new root.new tables.new }
    ensures kin { tables.new.kin ≡ tables.old.kin }
{
    let rows = s.type_table();
    type_places::firsts(&rows, 0, null, &mut tables.first);
    type_models::roots(s, root);
    type_places::behinds(
        &rows,
        0,
        rows.rows(),
        root,
        null,
        &tables.first,
        &mut tables.behind,
    );
    type_heads::classes(s, &mut tables.class, &mut tables.same);
}

// The lowest tie of a sheet by its tables. Where no two places have one head there is none, and no point is looked at.
pub fn tie_in(s: &Sheet, root: &Flags, tables: &Tables) -> Option<Tied>
    requires s_value { shapely s.now ≡ true }
    requires by_index { (null : List Bool) × Made s.now null root.now tables.now }
    ensures { SaysTie s.now result }
{
    if type_heads::apart(s) {
        return None;
    }
    tie(s, root, tables)
}

// The lowest tie of a sheet by tables of its own: these, then all points. Not inlined: the tables would lie in the frame of a whole run
// (docs/STACK.md).
#[inline(never)]
fn by_tables(s: &Sheet) -> Option<Tied>
    requires { shapely s.now ≡ true }
    ensures { SaysTie s.now result }
{
    let mut null = [false; ROWS];
    let mut root = [false; ROWS];
    let mut tables = Tables::new();
    make(s, &mut null, &mut root, &mut tables);
    tie(s, &root, &tables)
}

// The lowest tie of a sheet. Where no two places have one head there is none, and the tables are not made.
fn lowest_tie(s: &Sheet) -> Option<Tied>
    requires { shapely s.now ≡ true }
    ensures { SaysTie s.now result }
{
    if type_heads::apart(s) {
        return None;
    }
    by_tables(s)
}

// Refusals 3 and 4, of a sheet that is well shaped.
#[derive(Clone, Copy)]
pub enum Unsound {
    Barren(usize),
    Tie(Tied),
}

// In the document's order, Barren before Tie: where a name is barren no tie is looked for.
pub fn sound(s: &Sheet) -> Result<(), Unsound>
    requires { shapely s.now ≡ true }
    ensures { Loads s.now (sound_of result) }
{
    if let Some(x) = type_barren::barren(s) {
        return Err(Unsound::Barren(x));
    }
    match lowest_tie(s) {
        Some(t) => Err(Unsound::Tie(t)),
        None => Ok(()),
    }
}
