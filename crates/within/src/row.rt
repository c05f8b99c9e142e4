// Whether a type written out lies within a declared type or a content of the sheet, exact: the pairs of places that one tree can reach
// are walked, a found place and a wanted one, until none is left or one has no rival.
ghost use Rattle.std.specs.Prelude.{◌≡◌, true, List, ℕ};
ghost use Rattle.meaning.specs.Tests.{in_table};
ghost use Rattle.meaning.specs.Sheet.{script_of};
ghost use Rattle.meaning.specs.Reply.{done, Loads};
ghost use Rattle.type_models.specs.Roots.{is_root};
ghost use Rattle.within_pairs.specs.Queue.{zeros};
ghost use Rattle.type_tables.specs.Lent.{LentTables};
ghost use Rattle.within.specs.Matched.{Standing, Setting};
ghost use Rattle.within.specs.Lies.{Lies};
ghost use Rattle.within.specs.Steps.{own_table, OwnWalked};

use crate::own::Own;
use bits::{PLACES, WORDS};
use sheet::{Sheet, TypeTable};
use type_tables::Tables;
use within_pairs::pending::{Pairs, Point};
use within_pairs::{Found, Wanted};

// The own places against those of row `w`, from no pairs.
fn own_walk(own: &Found, wanted: &Wanted, w: usize, queue: &mut Pairs, fresh: &mut Pairs) -> bool
    requires none { (queue.old ≡ record { pending = zeros; done = zeros }) × (fresh.old ≡ record { pending = zeros; done = zeros }) }
    requires rows { own.now.rows.now ≡ own_table own.now.rows.now.bytes }
    requires by_index { (class : List ℕ) × ((kin : List ℕ) × Setting wanted.now.sheet.now own.now.rows.now.bytes
        wanted.now.first.now wanted.now.behind.now own.now.first.now own.now.behind.now class wanted.now.same.now own.now.kin.now kin) }
    requires w_value { (in_table (script_of wanted.now.sheet.now).types w ≡ true) × (is_root wanted.now.sheet.now w ≡ true) }
    ensures walked { OwnWalked wanted.now.sheet.now own.now.rows.now.bytes wanted.now.first.now wanted.now.behind.now
        own.now.first.now own.now.behind.now wanted.now.same.now own.now.kin.now w
        queue.new.pending queue.new.done fresh.new.pending result }
    ensures kept { fresh.new.done ≡ fresh.old.done }
{
    let begin = Point {
        sets: own.first,
        set: 512,
    };
    let sought = Point {
        sets: wanted.first,
        set: w,
    };
    if !queue.meet(begin, sought, own.kin, wanted.same) {
        return false;
    }
    within_pairs::walk(own, wanted, queue, fresh)
}

// The own places against those of row `w`; then, as names lead to them, contents of the sheet against contents, each pair once.
fn walks(own: &Found, s: &Sheet, w: usize, tables: &Tables) -> bool
    requires loads { Loads s.now done }
    requires rows { own.now.rows.now ≡ own_table own.now.rows.now.bytes }
    requires setting { Setting s.now own.now.rows.now.bytes tables.now.first tables.now.behind own.now.first.now own.now.behind.now
        tables.now.class tables.now.same own.now.kin.now tables.now.kin }
    requires w_value { (in_table (script_of s.now).types w ≡ true) × (is_root s.now w ≡ true) }
    ensures { Lies s.now own.now.rows.now.bytes w result }
{
    let types = s.type_table();
    let first = &tables.first;
    let behind = &tables.behind;
    let found = Found {
        rows: &types,
        first,
        behind,
        kin: &tables.kin,
    };
    let wanted = Wanted {
        sheet: s,
        first,
        behind,
        same: &tables.same,
    };
    let mut queue = Pairs::new();
    let mut fresh = Pairs::new();
    if !own_walk(own, &wanted, w, &mut queue, &mut fresh) {
        return false;
    }
    queue.forget();
    while let Some((q, r)) = fresh.take() {
        let inside = Point {
            sets: first,
            set: q,
        };
        let sought = Point {
            sets: first,
            set: r,
        };
        if !queue.meet(inside, sought, found.kin, wanted.same) {
            return false;
        }
        if !within_pairs::walk(&found, &wanted, &mut queue, &mut fresh) {
            return false;
        }
    }
    true
}

// Whether the type written out lies within the sheet's type at row `w`, by the sheet's tables.
pub fn in_row(s: &Sheet, own: &Own, w: usize, tables: &Tables) -> bool
    requires loads { Loads s.now done }
    requires standing { Standing s.now own.now.bytes }
    requires w_value { (in_table (script_of s.now).types w ≡ true) × (is_root s.now w ≡ true) }
    requires lent { LentTables s.now tables.now }
    ensures { Lies s.now own.now.bytes w result }
{
    let rows = TypeTable::of(&own.bytes, 0, 512);
    let mut first = [0u64; WORDS];
    let mut behind = [0u64; WORDS];
    let mut kin = [0u16; PLACES];
    type_tables::points::of_own(&own.bytes, own.low, &mut first, &mut behind);
    type_heads::kin::kins(s, &rows, own.low, &tables.class, &mut kin);
    let found = Found {
        rows: &rows,
        first: &first,
        behind: &behind,
        kin: &kin,
    };
    walks(&found, s, w, tables)
}
