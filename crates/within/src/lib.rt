// Inclusion of types, exact: the found type is written out. In (), text and bool the sums of its rows settle it; in a declared type or
// a content, the pairs of places that one tree can reach.
#![tactic(auto)]

pub mod own;
pub mod row;

ghost use Rattle.std.specs.Prelude.{◌≡◌, true, ℕ, ◌+◌, ◌≤◌, ◌<◌};
ghost use Rattle.meaning.specs.Tests.{in_table};
ghost use Rattle.meaning.specs.Sheet.{script_of};
ghost use Rattle.meaning.specs.Types.{declared as declaredTy};
ghost use Rattle.meaning.specs.Reply.{done, Loads};
ghost use Rattle.meaning.specs.Laws.Apart.{Lower};
ghost use Rattle.type_models.specs.Roots.{is_root};
ghost use Rattle.type_tables.specs.Lent.{LentTables};
ghost use Rattle.type_rows.specs.Grown.{ty_in, Grows};
ghost use Rattle.type_rows.specs.Writing.{own_row};
ghost use Rattle.within.specs.Answers.{Answers, plain_kind, plain_ty};
ghost use Rattle.within.specs.Sums.{both as bothSum, alike as alikeSum, one as oneSum, sum_of, plain_sum};
ghost use Rattle.within.specs.Plain.{own_type, Summed};

use crate::own::Own;
use bits::ROWS;
use sheet::forms::Ty;
use sheet::{Sheet, TypeTable};
use type_tables::Tables;

// A type of more than 512 rows written out.
#[derive(Clone, Copy, Debug, PartialEq, Eq)]
pub struct Wide;

// The types that a question may want besides a sheet's own: (), text and bool.
#[derive(Clone, Copy, PartialEq)]
pub enum PlainType {
    Empty,
    Text,
    Bool,
}

// The sum of a forest, where trees of one kind are wanted: such a tree counts 1, any other tree 2, and 2 is as far as it counts. So a sum
// is a number, and added as one; an enum of the three would need a table of sums.
// A type's sum is that of its forests where all have one, and else 2: 0 if they are empty, 1 if each is one tree of the kind. No type
// is without forests, so the sums of the parts settle it.
// Of one type behind another.
fn both(a: u8, b: u8) -> u8
    requires { (a ≤ 2) × (b ≤ 2) }
    ensures { result ≡ bothSum a b }
{
    (a + b).min(2)
}

// Of one type or another.
fn alike(a: u8, b: u8) -> u8
    ensures { result ≡ alikeSum a b }
{
    if a == b { a } else { 2 }
}

// Of a text or a bool, type `of`.
fn one(of: PlainType, wanted: PlainType) -> u8
    ensures { result ≡ oneSum (plain_kind of) (plain_kind wanted) }
{
    if of == wanted { 1 } else { 2 }
}

// The sum of the type at row `i`, from the sums of the rows below.
fn sum_of(own: &Own, i: usize, wanted: PlainType, sums: &[u8; ROWS]) -> u8
    requires lower { Lower (own_row own.now.bytes) }
    requires i_bound { i ≤ 512 }
    requires summed { Summed own.now.bytes (plain_kind wanted) sums.now i }
    ensures { result ≡ sum_of (plain_kind wanted) (own_type own.now.bytes i) }
{
    match TypeTable::of(&own.bytes, 0, 512).row(i).as_type() {
        Ty::Nothing | Ty::Empty => 0,
        Ty::Text => one(PlainType::Text, wanted),
        Ty::Bool => one(PlainType::Bool, wanted),
        Ty::Label(_, _) | Ty::Name(_) => 2,
        Ty::Sequence(p, q) => both(sums[p], sums[q]),
        Ty::Choice(p, q) => alike(sums[p], sums[q]),
        Ty::Star(p) => both(sums[p], sums[p]),
    }
}

// The sum of the type written out, row by row from below. The blank rows have the sum of (), 0.
fn sum_up(own: &Own, wanted: PlainType) -> u8
    requires { Lower (own_row own.now.bytes) }
    ensures { result ≡ sum_of (plain_kind wanted) (own_type own.now.bytes 512) }
{
    let mut sums = [0u8; ROWS];
    for i in own.low + 1..=512 {
        sums[i] = sum_of(own, i, wanted, &sums);
    }
    sums[512]
}

// The sum of each forest of the wanted type.
fn plain_sum(wanted: PlainType) -> u8
    ensures { result ≡ plain_sum (plain_kind wanted) }
{
    match wanted {
        PlainType::Empty => 0,
        PlainType::Text | PlainType::Bool => 1,
    }
}

// Is the type at row `found`, of which `used` lent rows count, in (), text or bool. Wide first.
pub fn plain(
    s: &Sheet,
    work: &[u8],
    used: usize,
    found: usize,
    wanted: PlainType,
) -> Result<bool, Wide>
    requires loads { Loads s.now done }
    requires grows { Grows s.now work.now used × (found ≤ (script_of s.now).types + used) × (found < 65536) }
    ensures { Answers s.now (ty_in s.now work.now used found) (plain_ty wanted) result }
{
    let mut own = Own::new();
    own.write(s, work, used, found)?;
    Ok(sum_up(&own, wanted) == plain_sum(wanted))
}

// Whether the type at row `wanted`, written out, has the rows of `own`: then they are one type.
fn is_own(s: &Sheet, work: &[u8], used: usize, wanted: usize, own: &Own) -> bool
    requires { Grows s.now work.now used × (wanted ≤ (script_of s.now).types + used) × (wanted < 65536) }
    ensures { result ≡ true → own_type own.now.bytes 512 ≡ ty_in s.now work.now used wanted }
{
    let mut other = Own::new();
    let Ok(()) = other.write(s, work, used, wanted) else {
        return false;
    };
    let from = 6 * own.low;
    other.low == own.low && own.bytes[from..] == other.bytes[from..]
}

// Is it in the sheet's type at row `wanted`, a declared type or a content, by the sheet's tables. Wide first; but a declared type,
// which is never Wide, lies in itself, and () in what may be empty.
// A type with the same rows lies in it too; only then are places looked at.
pub fn declared(
    s: &Sheet,
    work: &[u8],
    used: usize,
    found: usize,
    wanted: usize,
    tables: &Tables,
) -> Result<bool, Wide>
    requires loads { Loads s.now done }
    requires grows { Grows s.now work.now used × (found ≤ (script_of s.now).types + used) × (found < 65536) }
    requires wanted_value { (in_table (script_of s.now).types wanted ≡ true) × (is_root s.now wanted ≡ true) }
    requires lent { LentTables s.now tables.now }
    ensures { Answers s.now (ty_in s.now work.now used found)
        (declaredTy (script_of s.now) wanted) result }
{
    if found == wanted {
        return Ok(true);
    }
    if let Ty::Nothing | Ty::Empty = type_rows::row(s, work, found).as_type() {
        return Ok(bits::has(&tables.first, wanted, 0));
    }
    let mut own = Own::new();
    own.write(s, work, used, found)?;
    if is_own(s, work, used, wanted, &own) {
        return Ok(true);
    }
    Ok(crate::row::in_row(s, &own, wanted, tables))
}
