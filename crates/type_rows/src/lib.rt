// Types as a check keeps them: a value is a row of the sheet's table or, past its last, one written to the lent rows. 0 is (). Rows
// refer to lower rows, so old values stay true.
#![tactic(auto)]

pub mod parts;
pub mod written;

ghost use Rattle.std.specs.Prelude.{◌≡◌, true, ℕ, ◌+◌, ◌<◌, ◌≤◌};
ghost use Rattle.meaning.specs.Sheet.{script_of};
ghost use Rattle.meaning.specs.Shape.{shapely};
ghost use Rattle.meaning.specs.Kinds.{type_form};
ghost use Rattle.meaning.specs.Types.{ty_form};
ghost use Rattle.meaning.specs.Check.{written};
ghost use Rattle.sheet.specs.Laid.{cells_of};
ghost use Rattle.type_rows.specs.Grown.{type_in, ty_in, Grows};
ghost use Rattle.type_rows.specs.Finds.{WriteAsks, Finds, Acts};
ghost use Rattle.type_rows.specs.declared.Halt.TheVariants.{Fuel};

use sheet::forms::Ty;
use sheet::{Row, Sheet};
use walk::{Concern, Got, Left, Purse, Spent};

// What ends a check's walk besides a type; the purse is what was left.
#[derive(Clone, Copy, Debug, PartialEq, Eq)]
pub enum Halt {
    Fuel,
    Depth(Purse),
    Wide(Concern, Purse),
    Mismatch(Concern, Purse),
    Outside(Concern, Purse),
}

impl From<Spent> for Halt {
    ghost from_gives = { λ _ e. e ≡ Fuel };

    fn from(_spent: Spent) -> Halt {
        Halt::Fuel
    }
}

// Type row `r`.
pub fn row(s: &Sheet, work: &[u8], r: usize) -> Row
    requires { r < 65536 }
    ensures { (n : ℕ) → r ≤ (script_of s.now).types + n → cells_of result ≡ type_in s.now work.now n r }
{
    let types = s.types();
    if r <= types {
        return s.type_row(r);
    }
    forest_rows::any_row(work, r - types)
}

// A row is written: one unit. Its kind is the number that stands in the row: a name for it would be turned into that number here.
pub fn write(
    s: &Sheet,
    work: &mut [u8],
    kind: usize,
    p: usize,
    q: usize,
    left: Left,
) -> Result<Got, Halt>
    requires { WriteAsks s.now work.old left.used kind p q left.purse.left }
    ensures { Finds (written (ty_form (type_form (record { kind = kind; p = p; q = q; r = 0 }))
        (ty_in s.now work.old left.used))) s.now left.purse.left left.used work.old work.new
        result }
{
    let purse = left.purse.take()?;
    let last = forest_rows::push(work, left.used, kind, p, q, 0);
    Ok(Got {
        root: s.types() + last,
        left: Left { used: last, purse },
    })
}

// An atom as written: its head, and the content of a labelled one; a name acts as its label row.
#[derive(Clone, Copy, Debug, PartialEq, Eq)]
pub enum Atom {
    Other,
    Text,
    Bool,
    Label(usize, usize),
}

pub fn atom_of(s: &Sheet, work: &[u8], r: usize) -> Atom
    requires { (shapely s.now ≡ true) × (r < 65536) }
    ensures { (n : ℕ) → Grows s.now work.now n → r ≤ (script_of s.now).types + n
        → Acts s.now work.now n r result }
{
    match row(s, work, r).as_type() {
        Ty::Text => Atom::Text,
        Ty::Bool => Atom::Bool,
        Ty::Label(label, content) => Atom::Label(label, content),
        Ty::Name(x) => {
            let named = s.type_row(s.name_row(x));
            Atom::Label(named.p, named.q)
        }
        _ => Atom::Other,
    }
}
