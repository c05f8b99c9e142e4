// A type worked through part by part (iter, for and pick): what a row's type consists of; and pick, which keeps the atoms that have a
// label.
ghost use Rattle.std.specs.Prelude.{ℕ, ◌+◌, ◌<◌, ◌≤◌};
ghost use Rattle.meaning.specs.Sheet.{script_of};
ghost use Rattle.meaning.specs.Check.{parts};
ghost use Rattle.type_rows.specs.Grown.{ty_in, Grows};
ghost use Rattle.type_rows.specs.Finds.{Finds};
ghost use Rattle.type_rows.specs.Parts.{Consists};
ghost use Rattle.type_rows.specs.Picked.{Picks, pick_of};

use crate::{Atom, Halt, write};
use sheet::Sheet;
use sheet::forms::Ty;
use walk::{Got, Left};

// (), an atom, a sequence or choice (its kind, 5 or 6, and two rows), or a star.
#[derive(Clone, Copy, Debug, PartialEq, Eq)]
pub enum Part {
    Nothing,
    Atom,
    Pair(usize, usize, usize),
    Star(usize),
}

// What the type at row `r` consists of.
pub fn part_of(s: &Sheet, work: &[u8], r: usize) -> Part
    requires { r < 65536 }
    ensures { (n : ℕ) → Grows s.now work.now n → r ≤ (script_of s.now).types + n
        → Consists s.now work.now n r result }
{
    match crate::row(s, work, r).as_type() {
        Ty::Text => Part::Atom,
        Ty::Bool => Part::Atom,
        Ty::Label(_, _) => Part::Atom,
        Ty::Name(_) => Part::Atom,
        Ty::Sequence(p, q) => Part::Pair(5, p, q),
        Ty::Choice(p, q) => Part::Pair(6, p, q),
        Ty::Star(p) => Part::Star(p),
        Ty::Nothing => Part::Nothing,
        Ty::Empty => Part::Nothing,
    }
}

// An atom under pick: kept, or picked away for one unit.
fn kept(s: &Sheet, work: &mut [u8], label: usize, of: usize, left: Left) -> Result<Got, Halt>
    requires { Picks s.now work.old left.used of left.purse.left }
    ensures { Finds (pick_of s.now label (ty_in s.now work.old left.used of)) s.now
        left.purse.left left.used work.old work.new result }
{
    let stays = Got { root: of, left };
    match crate::atom_of(s, work, of) {
        Atom::Other => Ok(stays),
        Atom::Label(n, _) if n == label => Ok(stays),
        Atom::Label(_, _) => write(s, work, 1, 0, 0, left),
        Atom::Text => write(s, work, 1, 0, 0, left),
        Atom::Bool => write(s, work, 1, 0, 0, left),
    }
}

// Pick: a unit on arrival at each row, each atom kept or picked away, and each sequence, choice and star rebuilt.
pub fn picked(s: &Sheet, work: &mut [u8], label: usize, of: usize, left: Left) -> Result<Got, Halt>
    requires { Picks s.now work.old left.used of left.purse.left }
    ensures { Finds (parts (pick_of s.now label) (ty_in s.now work.old left.used of)) s.now
        left.purse.left left.used work.old work.new result }
{
    let purse = left.purse.take()?;
    let left = Left { purse, ..left };
    match part_of(s, work, of) {
        Part::Nothing => Ok(Got { root: 0, left }),
        Part::Atom => kept(s, work, label, of, left),
        Part::Star(p) => {
            let x = picked(s, work, label, p, left)?;
            write(s, work, 7, x.root, 0, x.left)
        }
        Part::Pair(kind, p, q) => {
            let x = picked(s, work, label, p, left)?;
            let y = picked(s, work, label, q, x.left)?;
            write(s, work, kind, x.root, y.root, y.left)
        }
    }
}
