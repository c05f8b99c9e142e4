// The kin of a place: the sheet's places that have its head, for the places of the sheet and of a type written out.
ghost use Rattle.std.specs.Prelude.{◌≡◌, ℕ, ◌≤◌, replicate};
ghost use Rattle.sheet.specs.Laid.{cells_of};
ghost use Rattle.sheet.specs.Table.{rows_in};
ghost use Rattle.type_heads.specs.Kin.{own_no, kin_no, Kins};

use crate::{HEADS, Leads};
use bits::PLACES;
use sheet::forms::Ty;
use sheet::{Row, Sheet, TypeTable};

// For each place the number of the set of its kin, 0 for none, as in `Leads`.
pub type Kin = [u16; PLACES];

// The head by number, 1026 for a label that no sheet has: a written row's label may be any word.
#[tactic(auto, using(crate::specs::Kin::own_said))]
fn number(c: Row) -> usize
    ensures { result ≡ own_no (cells_of c) }
{
    match c.as_type() {
        Ty::Label(l, _) if 1023 < l => HEADS,
        _ => crate::head_of(c),
    }
}

// The set of `same` that has the sheet's places with the head of row `c`: the lowest of them, 0 where there is none.
fn kin_of(s: &Sheet, c: Row, class: &Leads) -> u16
    ensures { result ≡ kin_no s.now class.now (cells_of c) }
{
    let h = number(crate::stands_for(s, c));
    if h < HEADS {
        return class[h];
    }
    0
}

// That of each place of a table. The rows up to `low` are blank: no places, and not looked at.
pub fn kins(s: &Sheet, t: &TypeTable, low: usize, class: &Leads, kin: &mut Kin)
    requires few { t.now.rows ≤ 512 }
    requires low_le_n { (low ≤ t.now.rows) × ((i : ℕ) → 1 ≤ i → i ≤ low → (rows_in t.now i).kind ≡ 0) }
    requires kin_value { kin.old ≡ replicate 576 0 }
    ensures { Kins (rows_in t.now) t.now.rows s.now class.now kin.new }
{
    for i in low..t.rows() {
        kin[i + 1] = kin_of(s, t.row(i + 1), class);
    }
}
