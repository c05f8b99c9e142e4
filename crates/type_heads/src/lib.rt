// Heads of places: text, bool or a label, by number, and the places of each head as sets.
// Loops go from 0 and read row i + 1: their invariants count from 0, as the meaning's own counts do.
#![tactic(auto)]

pub mod kin;

ghost use Rattle.std.specs.Prelude.{◌≡◌, true, ◌+◌, ◌<◌, replicate};
ghost use Rattle.meaning.specs.Sheet.{script_of};
ghost use Rattle.meaning.specs.Shape.{shapely};
ghost use Rattle.sheet.specs.Laid.{cells_of};
ghost use Rattle.bits.specs.Sets.{Clear};
ghost use Rattle.type_heads.specs.Heads.{stands_for, acting_at, head_no, head_number};
ghost use Rattle.type_heads.specs.Classes.{Led, Classed, Classes};
ghost use Rattle.type_heads.specs.Apart.{SaysApart};

use bits::Sets;
use sheet::forms::Ty;
use sheet::{Row, Sheet};

// A number for each head: the labels, text and bool.
pub const HEADS: usize = 1026;

// For each head the lowest place with it, 0 for none. No Option: set 0 has no member, so who looks into a head's set makes no test.
pub type Leads = [u16; HEADS];

// The row that an atom's row stands for: a name's label row, and else itself.
#[tactic(auto, using(crate::specs::Heads::stands_said))]
pub fn stands_for(s: &Sheet, c: Row) -> Row
    ensures { cells_of result ≡ stands_for s.now (cells_of c) }
{
    match c.as_type() {
        Ty::Name(x) => s.type_row(s.name_row(x)),
        _ => c,
    }
}

// The row that a place of the sheet acts as.
pub fn acting(s: &Sheet, a: usize) -> Row
    ensures { cells_of result ≡ acting_at s.now a }
{
    stands_for(s, s.type_row(a))
}

// The head of such a row by number: a label, 1024 text, 1025 bool; 1026 for what is no atom. No Option: `head_no` numbers every row, a
// label past 1025 too, so the test of the index into `Leads` would stand beside the Option's.
#[tactic(auto, using(crate::specs::Heads::head_said))]
pub fn head_of(c: Row) -> usize
    ensures { result ≡ head_no (cells_of c) }
{
    match c.as_type() {
        Ty::Text => 1024,
        Ty::Bool => 1025,
        Ty::Label(l, _) => l,
        _ => HEADS,
    }
}

// The head of a place of the sheet.
pub fn head(s: &Sheet, a: usize) -> usize
    ensures { result ≡ head_number s.now a }
{
    head_of(acting(s, a))
}

// Whether no two places of the sheet have one head: then nothing is tied, and no set need be made.
pub fn apart(s: &Sheet) -> bool
    ensures { SaysApart s.now result }
{
    let mut seen = [false; HEADS];
    for i in 0..s.types() {
        let h = head(s, i + 1);
        if h < HEADS {
            if seen[h] {
                return false;
            }
            seen[h] = true;
        }
    }
    true
}

// The lowest place of head `h`, which is `i` where there was none.
fn lead(h: usize, i: usize, class: &mut Leads) -> usize
    requires { (h < 1026) × (i < 65536) }
    ensures { Led class.old class.new h i result }
{
    let c = class[h];
    if c != 0 {
        return usize::from(c);
    }
    // A row's number is a word: the cast loses nothing, and `try_from` would have an error that cannot be.
    class[h] = i as u16;
    i
}

// Puts row `i + 1` into the class of its head.
#[tactic(auto, using(crate::specs::Classes::one_more))]
fn classify(s: &Sheet, i: usize, class: &mut Leads, same: &mut Sets)
    requires s_value { shapely s.now ≡ true }
    requires i_lt_types { i < (script_of s.now).types }
    requires classed { Classed s.now class.old same.old i }
    ensures { Classed s.now class.new same.new (i + 1) }
{
    let h = head(s, i + 1);
    if h < HEADS {
        let c = lead(h, i + 1, class);
        bits::add(same, c, i + 1);
    }
}

// The places of each head: `class` has for each head the lowest place with it (0: none), and that set of `same` holds them all.
pub fn classes(s: &Sheet, class: &mut Leads, same: &mut Sets)
    requires s_value { shapely s.now ≡ true }
    requires class_value { class.old ≡ replicate 1026 0 }
    requires clear { Clear same.old }
    ensures { Classes s.now class.new same.new }
{
    for i in 0..s.types() {
        classify(s, i, class, same);
    }
}
