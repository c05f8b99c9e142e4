// The tables of a sheet's types, made once for a question; 3 and 4 are judged on the way. Fit, inclusion and the check borrow them.
#![tactic(auto)]

pub mod points;

ghost use Rattle.std.specs.Prelude.{◌≡◌, true};
ghost use Rattle.meaning.specs.Shape.{shapely};
ghost use Rattle.type_ties.specs.Sound.{Empty};
ghost use Rattle.type_tables.specs.Lent.{Judged};

use bits::ROWS;
use sheet::Sheet;
pub use type_ties::Tables;
use type_ties::Unsound;

// Barren, then Tie; else the tables.
pub fn judge(s: &Sheet, tables: &mut Tables) -> Result<(), Unsound>
    requires s_value { shapely s.now ≡ true }
    requires empty { Empty tables.old }
    ensures { Judged s.now tables.new result }
{
    if let Some(x) = type_barren::barren(s) {
        return Err(Unsound::Barren(x));
    }
    let mut null = [false; ROWS];
    let mut root = [false; ROWS];
    type_ties::make(s, &mut null, &mut root, tables);
    if let Some(t) = type_ties::tie_in(s, &root, tables) {
        return Err(Unsound::Tie(t));
    }
    crate::points::starts(0, s.types(), &null, &mut tables.first);
    type_heads::kin::kins(s, &s.type_table(), 0, &tables.class, &mut tables.kin);
    Ok(())
}
