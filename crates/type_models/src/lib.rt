// Which type rows are models of their own: the declared types and the contents of label rows, as flags.
// Loops go from 0 and read row x + 1: their invariants count from 0, as the meaning's own counts do.
#![tactic(auto)]

ghost use Rattle.std.specs.Prelude.{◌≡◌, false, ℕ, ◌≤◌, eqb};
ghost use Rattle.meaning.specs.Tests.{some};
ghost use Rattle.meaning.specs.Sheet.{script_of};
ghost use Rattle.sheet.specs.Table.{rows_in};
ghost use Rattle.type_barren.specs.Flags.{flag};
ghost use Rattle.type_models.specs.Roots.{Marked, Rooted, named_root, signed_root, held_root};

use bits::{Flags, ROWS};
use sheet::forms::Ty;
use sheet::{Sheet, TypeTable};

// Sets the flag of row `r`.
fn mark(root: &mut Flags, r: usize)
    ensures { Marked root.old root.new (λ y. eqb r y) }
{
    if r < ROWS {
        root[r] = true;
    }
}

// The rows of the names.
fn name_roots(s: &Sheet, root: &mut Flags)
    ensures { Marked root.old root.new (λ y. some (named_root s.now y) (script_of s.now).names) }
{
    for x in 0..s.names() {
        mark(root, s.name_row(x + 1));
    }
}

// The types of the parameters, the input and the output of procedure `c`.
fn signature(s: &Sheet, c: usize, root: &mut Flags)
    ensures { Marked root.old root.new (λ y. signed_root s.now y c) }
{
    let row = s.procedure_row(c);
    mark(root, row.first);
    mark(root, row.second);
    mark(root, row.input);
    mark(root, row.output);
}

fn procedure_roots(s: &Sheet, root: &mut Flags)
    ensures { Marked root.old root.new (λ y. some (signed_root s.now y) (script_of s.now).procedures) }
{
    for c in 0..s.procedures() {
        signature(s, c + 1, root);
    }
}

// The content of row `i`, if that is a label.
fn content(t: &TypeTable, i: usize, root: &mut Flags)
    ensures { Marked root.old root.new (λ y. held_root (rows_in t.now) y i) }
{
    if let Ty::Label(_, q) = t.row(i).as_type() {
        mark(root, q);
    }
}

// The contents of a table whose rows up to `low` are blank, and are not looked at.
pub fn content_roots(t: &TypeTable, low: usize, root: &mut Flags)
    requires { (low ≤ t.now.rows) × ((i : ℕ) → 1 ≤ i → i ≤ low → (rows_in t.now i).kind ≡ 0) }
    ensures { Marked root.old root.new (λ y. some (held_root (rows_in t.now) y) t.now.rows) }
{
    for i in low..t.rows() {
        content(t, i + 1, root);
    }
}

// The models of a sheet: its declared types and the contents of its label rows.
pub fn roots(s: &Sheet, root: &mut Flags)
    requires by_index { (y : ℕ) → flag root.old y ≡ false }
    ensures { Rooted s.now root.new }
{
    mark(root, s.a());
    mark(root, s.b());
    name_roots(s, root);
    procedure_roots(s, root);
    content_roots(&s.type_table(), 0, root);
}
