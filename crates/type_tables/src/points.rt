// The points of types: what may stand where each row begins, and what behind each place, End as place 0; of a type written out.
ghost use Rattle.std.specs.Prelude.{◌≤◌};
ghost use Rattle.sheet.specs.Whole.{Lies};
ghost use Rattle.type_places.specs.Tables.{Rows};
ghost use Rattle.bits.specs.Sets.{Clear};
ghost use Rattle.type_rows.specs.Writing.{own_row, Blank};
ghost use Rattle.type_tables.specs.Points.{Started, OwnPoints, Apart};

use bits::{Flags, ROWS, Sets};
use sheet::TypeTable;

// End stands where each row above `low`, up to row `n`, that may be empty begins.
pub fn starts(low: usize, n: usize, null: &Flags, first: &mut Sets)
    requires { (low ≤ n) × (n ≤ 512) }
    ensures { Started null.now first.old first.new low n }
{
    for i in low..n {
        type_places::end(null, i + 1, first);
    }
}

// The points of the type at row 512 of a table written out, and of its contents. Its rows up to `low` are blank: flagged at once as
// what may be empty and passed over, so that a type costs what its own rows cost.
pub fn of_own(own: &[u8], low: usize, first: &mut Sets, behind: &mut Sets)
    requires rows { Rows (own_row own.now) 512 × Apart (own_row own.now) × Lies own.now 0 3 512 }
    requires blank { Blank own.now low }
    requires clear { Clear first.old × Clear behind.old }
    ensures { OwnPoints own.now first.new behind.new }
{
    let rows = TypeTable::of(own, 0, 512);
    let mut null = [true; ROWS];
    let mut root = [false; ROWS];
    root[512] = true;
    type_models::content_roots(&rows, low, &mut root);
    type_places::firsts(&rows, low, &mut null, first);
    type_places::behinds(&rows, low, 512, &root, &null, first, behind);
    starts(low, 512, &null, first);
}
