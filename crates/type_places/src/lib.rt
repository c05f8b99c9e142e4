// The places of type rows: which rows may be empty, what may stand first at each, and what may stand next behind each. End is place 0.
// A table of type rows is lent: a sheet's own, or a type written out. The rows up to `low` are blank and are not looked at.
#![tactic(auto)]

ghost use Rattle.std.specs.Prelude.{◌≡◌, true, ℕ, ◌+◌, ◌<◌, ◌≤◌};
ghost use Rattle.meaning.specs.Places.{nullable};
ghost use Rattle.sheet.specs.Table.{rows_in};
ghost use Rattle.type_barren.specs.Flags.{flag};
ghost use Rattle.type_places.specs.Tables.{Rows, row_model, Nulls, Firsts, Tables, Passed, Ready, Fell, Ended, Free, Wires};
ghost use Rattle.bits.specs.Sets.{Clear};

use bits::{Flags, Sets};
use sheet::TypeTable;
use sheet::forms::Ty;

// Whether row `i` may be empty, from the flags of the rows below it.
fn may_be_empty(t: &TypeTable, i: usize, null: &Flags) -> bool
    requires rows { Rows (rows_in t.now) t.now.rows }
    requires le_i { (1 ≤ i) × (i ≤ t.now.rows) }
    requires nulls { Nulls (rows_in t.now) null.now i }
    ensures { result ≡ nullable (row_model (rows_in t.now) i) }
{
    match t.row(i).as_type() {
        Ty::Text | Ty::Bool | Ty::Label(_, _) | Ty::Name(_) => false,
        Ty::Sequence(p, q) => null[p] && null[q],
        Ty::Choice(p, q) => null[p] || null[q],
        Ty::Nothing | Ty::Empty | Ty::Star(_) => true,
    }
}

// What may stand first at row `i`, from the rows below it.
fn begin(t: &TypeTable, i: usize, null: &Flags, first: &mut Sets)
    requires rows { Rows (rows_in t.now) t.now.rows }
    requires le_i { (1 ≤ i) × (i ≤ t.now.rows) }
    requires nulls { Nulls (rows_in t.now) null.now i }
    requires firsts { Firsts (rows_in t.now) first.old i }
    ensures { Firsts (rows_in t.now) first.new (i + 1) }
{
    match t.row(i).as_type() {
        Ty::Text | Ty::Bool | Ty::Label(_, _) | Ty::Name(_) => bits::add(first, i, i),
        Ty::Sequence(p, q) => {
            bits::unite_in(first, i, p);
            if null[p] {
                bits::unite_in(first, i, q);
            }
        }
        Ty::Choice(p, q) => {
            bits::unite_in(first, i, p);
            bits::unite_in(first, i, q);
        }
        Ty::Star(p) => bits::unite_in(first, i, p),
        Ty::Nothing | Ty::Empty => {}
    }
}

// Both tables, row by row from below: from row `low` + 1, since the rows up to there are blank, flagged already as what may be empty.
// They stay two parameters: `first` is kept, as one of the tables that fit and inclusion borrow, and `null` is not. Not `..=t.rows()`: that
// is left by two paths, and the second's goal has no name that lasts.
pub fn firsts(t: &TypeTable, low: usize, null: &mut Flags, first: &mut Sets)
    requires rows { Rows (rows_in t.now) t.now.rows }
    requires low_le_n { (low ≤ t.now.rows) × ((i : ℕ) → 1 ≤ i → i ≤ low → ((rows_in t.now i).kind ≡ 0) × (flag null.old i ≡ true)) }
    requires clear { Clear first.old }
    ensures { Tables (rows_in t.now) t.now.rows null.new first.new }
{
    for i in low + 1..t.rows() + 1 {
        begin(t, i, null, first);
        null[i] = may_be_empty(t, i, null);
    }
}

// Behind the first side of a sequence: what stands first at the second, and what stands behind the whole if the second may be empty.
fn pass(behind: &mut Sets, p: usize, i: usize, null: &Flags, first: &Sets, q: usize)
    requires { (p < i) × (i ≤ 512) × (q ≤ 512) }
    ensures { Passed behind.old behind.new p i null.now first.now q }
{
    bits::unite(behind, p, first, q);
    if null[q] {
        bits::unite_in(behind, p, i);
    }
}

// What stands behind the sides of row `i`, from what stands behind it.
fn fall(t: &TypeTable, i: usize, null: &Flags, first: &Sets, behind: &mut Sets)
    requires rows { Rows (rows_in t.now) t.now.rows }
    requires le_i { (1 ≤ i) × (i ≤ t.now.rows) }
    requires tables { Tables (rows_in t.now) t.now.rows null.now first.now }
    requires ready { Ready (rows_in t.now) behind.old i }
    ensures { Fell (rows_in t.now) behind.old behind.new i }
{
    match t.row(i).as_type() {
        Ty::Sequence(p, q) => {
            pass(behind, p, i, null, first, q);
            bits::unite_in(behind, q, i);
        }
        Ty::Choice(p, q) => {
            bits::unite_in(behind, p, i);
            bits::unite_in(behind, q, i);
        }
        Ty::Star(p) => {
            bits::unite(behind, p, first, p);
            bits::unite_in(behind, p, i);
        }
        _ => {}
    }
}

// End stands behind row `i`, if that is a root.
pub fn end(root: &Flags, i: usize, behind: &mut Sets)
    requires { i ≤ 512 }
    ensures { Ended behind.old behind.new root.now i }
{
    if root[i] {
        bits::add(behind, i, 0);
    }
}

// What stands behind each row, from row `top` down to the lowest that is not blank; End stands behind a root. `low` may be any number, so
// rows are counted from 0 here: `low + 1` may not fit.
pub fn behinds(
    t: &TypeTable,
    low: usize,
    top: usize,
    root: &Flags,
    null: &Flags,
    first: &Sets,
    behind: &mut Sets,
)
    requires rows { Rows (rows_in t.now) t.now.rows }
    requires top_le_n { (top ≤ t.now.rows) × ((i : ℕ) → 1 ≤ i → i ≤ low → (rows_in t.now i).kind ≡ 0) }
    requires tables { Tables (rows_in t.now) t.now.rows null.now first.now }
    requires free { Free (rows_in t.now) root.now top × Clear behind.old }
    ensures { Wires (rows_in t.now) root.now behind.new top }
{
    for i in (low..top).rev() {
        end(root, i + 1, behind);
        fall(t, i + 1, null, first, behind);
    }
}
