// Shape, refusal 2: every rule and limit under "Tables" in document 01, without recursion and in time linear in the rows.
#![tactic(auto, unfolding(meaning::specs::Sheet::script_of, meaning::specs::Sheet::grove_of, meaning::specs::Sheet::sheet_of))]

ghost use Rattle.std.specs.Prelude.{◌≡◌, true, false, IfSome, IsNone};
ghost use Rattle.meaning.specs.Sheet.{sheet_of};
ghost use Rattle.meaning.specs.Shape.{limits_ok, names_ok, procedure_ok, procedures_ok, roots_ok};
ghost use Rattle.meaning.specs.Shape as meaning;
ghost use Rattle.sheet.specs.Laid.{procedure_of};
ghost use Rattle.shape.specs.Tables.{tables_ok, name_ok, paired};

use shape_kinds::in_table;
use sheet::forms::Ty;
use sheet::{Procedure, Sheet};

#[tactic(auto, unfolding(meaning::specs::Sheet::sheet_of, meaning::specs::Shape::limits_ok))]
fn limits_ok(s: &Sheet) -> bool
    ensures { result ≡ limits_ok (sheet_of s.now) }
{
    s.names() <= 32
        && s.types() <= 512
        && s.queries() <= 512
        && s.statements() <= 512
        && s.procedures() <= 16
        && s.rows() <= 2048
        && s.pool() <= 16384
        && s.check_fuel() <= 4096
        && s.run_fuel() <= 4096
}

// A name stands for a label's row.
fn is_named(s: &Sheet, x: usize) -> bool
    ensures { result ≡ name_ok (sheet_of s.now) x }
{
    let row = s.name_row(x);
    in_table(s.types(), row) && matches!(s.type_row(row).as_type(), Ty::Label(_, _))
}

fn names_ok(s: &Sheet) -> bool
    ensures { result ≡ names_ok (sheet_of s.now) }
{
    (1..s.names() + 1).all(|x| is_named(s, x))
}

// The first parameter may be 0 only if the second is.
fn in_order(first: usize, second: usize) -> bool
    ensures { result ≡ paired first second }
{
    first != 0 || second == 0
}

// Parameters may be absent; input, output and body are there.
fn is_procedure(s: &Sheet, c: Procedure) -> bool
    ensures { result ≡ procedure_ok (sheet_of s.now) (procedure_of c) }
{
    let types = s.types();
    c.first <= types
        && c.second <= types
        && in_order(c.first, c.second)
        && in_table(types, c.input)
        && in_table(types, c.output)
        && in_table(s.statements(), c.body)
}

fn procedures_ok(s: &Sheet) -> bool
    ensures { result ≡ procedures_ok (sheet_of s.now) }
{
    (1..s.procedures() + 1).all(|c| is_procedure(s, s.procedure_row(c)))
}

// A, B and main are there; the forest's root may be 0.
#[tactic(auto, unfolding(meaning::specs::Sheet::sheet_of, meaning::specs::Shape::roots_ok))]
fn roots_ok(s: &Sheet) -> bool
    ensures { result ≡ roots_ok (sheet_of s.now) }
{
    in_table(s.types(), s.a())
        && in_table(s.types(), s.b())
        && in_table(s.statements(), s.main())
        && s.root() <= s.rows()
}

// Every rule but those of scope.
fn tables_ok(s: &Sheet) -> bool
    ensures { result ≡ tables_ok (sheet_of s.now) }
{
    limits_ok(s)
        && shape_kinds::types_ok(s)
        && shape_kinds::queries_ok(s)
        && shape_kinds::statements_ok(s)
        && shape_kinds::rows_ok(s)
        && names_ok(s)
        && procedures_ok(s)
        && roots_ok(s)
        && shape_users::users_ok(s)
}

// Every rule under "Tables".
fn is_shaped(s: &Sheet) -> bool
    ensures { result ≡ meaning.shaped (sheet_of s.now) }
{
    tables_ok(s) && shape_scope::scope_ok(s)
}

// The sheet that lies in the bytes: none where it isn't as "Tables" asks, or the bytes are fewer than its counts ask.
#[tactic(auto, using(crate::proofs::Rules::short, crate::proofs::Rules::long))]
pub fn shaped<'a>(bytes: &'a [u8]) -> Option<Sheet<'a>>
    ensures some { IfSome result (λ s. (s ≡ bytes.now) × (meaning.shapely bytes.now ≡ true)) }
    ensures none { IsNone result → meaning.shapely bytes.now ≡ false }
{
    let s = Sheet::of(bytes)?;
    is_shaped(&s).then_some(s)
}

// Whether there is one.
pub fn shapely(s: &[u8]) -> bool
    ensures { result ≡ meaning.shapely s.now }
{
    shaped(s).is_some()
}
