// The questions check, run and apply, whole: the order of refusals, and the rows left behind. Working rows are zeroed in one place,
// after the answer is known.
#![tactic(auto)]

ghost use Rattle.std.specs.Prelude.{◌≡◌, true, List, ℕ, ◌+◌, ◌*◌, ◌≤◌, ◌<◌, length, Err};
ghost use Rattle.meaning.specs.Words.{zeroed};
ghost use Rattle.meaning.specs.Sheet.{script_of, grove_of, sheet_of};
ghost use Rattle.meaning.specs.Shape.{shapely};
ghost use Rattle.meaning.specs.Run.{run_walk};
ghost use Rattle.meaning.specs.Check.{check_walk};
ghost use Rattle.meaning.specs.Reply.{Loads, done, RunReply, CheckReply, ApplyReply};
ghost use Rattle.type_rows.specs.Finds.{Halted};
ghost use Rattle.type_tables.specs.Lent.{LentTables};
ghost use Rattle.walk.specs.Meets.{Stopped};
ghost use Rattle.desk.specs.Said.{ran_reply, Says, run_unsound};
ghost use Rattle.desk.specs.Load.{Loaded};
ghost use Rattle.desk.specs.Ends.{MainEnds, left_of, Begun};
ghost use Rattle.desk.specs.Checking.{checked_reply, left_in_halt, CheckBegun, Concludes, check_unsound};
ghost use Rattle.desk.specs.Applying.{applied_reply, Applies, apply_unchecked, apply_unsound};

use sheet::Sheet;
use type_rows::Halt;
use type_tables::Tables;
use type_ties::{Tied, Unsound};
use walk::{Concern, Got, Left, Purse, Scope, Stop};

// A run that is done: its units, and the root of its result.
#[derive(Clone, Copy)]
pub struct Ran {
    pub units: usize,
    pub root: usize,
}

// Why a run gives no forest; with its units where its walk began.
#[derive(Clone, Copy)]
pub enum RunRefusal {
    Shape,
    Barren(usize),
    Tie(Tied),
    Fuel(usize),
    Depth(usize),
    Stuck(Concern, usize),
    Scratch,
    Room(usize),
}

// Each question, and fit, has its refusals in an enum of its own, and so this `From`: one enum of all would let a run say Wide.
impl From<Unsound> for RunRefusal {
    ghost from_gives = { λ u r. r ≡ run_unsound u };

    fn from(u: Unsound) -> RunRefusal {
        match u {
            Unsound::Barren(x) => RunRefusal::Barren(x),
            Unsound::Tie(t) => RunRefusal::Tie(t),
        }
    }
}

// The forest's rows, copied to the front of the working rows.
fn load(s: &Sheet, work: &mut [u8])
    requires { (shapely s.now ≡ true) × (8 * (grove_of s.now).rows ≤ length work.old) }
    ensures { Loaded s.now work.new }
{
    let rows = s.row_bytes();
    work[..rows.len()].copy_from_slice(rows);
}

// Main, walked on the sheet's forest.
fn walk_main(s: &Sheet, work: &mut [u8]) -> Result<Got, Stop>
    requires { (shapely s.now ≡ true) × (8 * ((grove_of s.now).rows + (sheet_of s.now).run_fuel) ≤ length work.old) }
    ensures { MainEnds s.now work.new result }
{
    load(s, work);
    let left = Left {
        used: s.rows(),
        purse: Purse { left: s.run_fuel() },
    };
    run_statement::statement(s, work, Scope::new(), s.main(), s.root(), 200, left)
}

// How an end that is no forest is called.
fn stopped(why: Stop, fuel: usize) -> RunRefusal
    requires { left_of why ≤ fuel }
    ensures { (s lent rows : List ℕ) → Begun s lent → fuel ≡ (sheet_of s).run_fuel
        → Stopped (run_walk (sheet_of s)) (sheet_of s).run_fuel why → Says s lent rows (Err result) rows }
{
    match why {
        Stop::Fuel => RunRefusal::Fuel(fuel),
        Stop::Depth(purse) => RunRefusal::Depth(purse.spent(fuel)),
        Stop::Stuck(at, purse) => RunRefusal::Stuck(at, purse.spent(fuel)),
    }
}

// A sound sheet's run: Scratch first, then the walk; Room last.
fn walked(s: &Sheet, work: &mut [u8], res: &mut [u8]) -> Result<Ran, RunRefusal>
    requires { (shapely s.now ≡ true) × (Loads s.now done) }
    ensures { Says s.now work.old res.old result res.new }
{
    let fuel = s.run_fuel();
    if run_result::handed::rows_lent(work) < s.rows() + fuel {
        return Err(RunRefusal::Scratch);
    }
    match walk_main(s, work) {
        Err(why) => Err(stopped(why, fuel)),
        Ok(got) => {
            let units = got.left.purse.spent(fuel);
            let Some(root) = run_result::handed::hand_out(work, got.root, res) else {
                return Err(RunRefusal::Room(units));
            };
            Ok(Ran { units, root })
        }
    }
}

// Refusals 2, 3 and 4, then the run.
fn judged(s: &[u8], work: &mut [u8], res: &mut [u8]) -> Result<Ran, RunRefusal>
    ensures { Says s.now work.old res.old result res.new }
{
    let Some(sheet) = shape::shaped(s) else {
        return Err(RunRefusal::Shape);
    };
    type_ties::sound(&sheet)?;
    walked(&sheet, work, res)
}

// The edited forest, in the result rows. Every call ends like this one: the working rows are all zero after it.
pub fn run(s: &[u8], work: &mut [u8], res: &mut [u8]) -> Result<Ran, RunRefusal>
    ensures { RunReply s.now work.old res.old
        (ran_reply result res.new work.new) }
{
    let answer = judged(s, work, res);
    words::zero(work);
    answer
}

// Why a check does not pass; with its units where its walk began.
#[derive(Clone, Copy)]
pub enum CheckRefusal {
    Shape,
    Barren(usize),
    Tie(Tied),
    Fuel(usize),
    Depth(usize),
    Wide(Concern, usize),
    Mismatch(Concern, usize),
    Outside(Concern, usize),
    Scratch,
}

impl From<Unsound> for CheckRefusal {
    ghost from_gives = { λ u r. r ≡ check_unsound u };

    fn from(u: Unsound) -> CheckRefusal {
        match u {
            Unsound::Barren(x) => CheckRefusal::Barren(x),
            Unsound::Tie(t) => CheckRefusal::Tie(t),
        }
    }
}

// How an end that is no type is called.
fn halted(why: Halt, fuel: usize) -> CheckRefusal
    requires { left_in_halt why ≤ fuel }
    ensures { (s lent : List ℕ) → CheckBegun s lent → fuel ≡ (sheet_of s).check_fuel
        → Halted (check_walk (script_of s)) s (sheet_of s).check_fuel why → Concludes s lent (Err result) }
{
    match why {
        Halt::Fuel => CheckRefusal::Fuel(fuel),
        Halt::Depth(purse) => CheckRefusal::Depth(purse.spent(fuel)),
        Halt::Wide(at, purse) => CheckRefusal::Wide(at, purse.spent(fuel)),
        Halt::Mismatch(at, purse) => CheckRefusal::Mismatch(at, purse.spent(fuel)),
        Halt::Outside(at, purse) => CheckRefusal::Outside(at, purse.spent(fuel)),
    }
}

// A sound sheet's check, by its tables: Scratch first, then the walk. Its units.
fn typed(s: &Sheet, work: &mut [u8], tables: &Tables) -> Result<usize, CheckRefusal>
    requires s_value { (shapely s.now ≡ true) × (Loads s.now done) }
    requires lent { LentTables s.now tables.now }
    ensures { Concludes s.now work.old result }
{
    let fuel = s.check_fuel();
    if run_result::handed::rows_lent(work) < fuel {
        return Err(CheckRefusal::Scratch);
    }
    match check_statement::check(s, work, tables, Purse { left: fuel }) {
        Err(why) => Err(halted(why, fuel)),
        Ok(got) => Ok(got.left.purse.spent(fuel)),
    }
}

// Refusals 2, 3 and 4, then the check.
fn check_judged(s: &[u8], work: &mut [u8]) -> Result<usize, CheckRefusal>
    ensures { Concludes s.now work.old result }
{
    let Some(sheet) = shape::shaped(s) else {
        return Err(CheckRefusal::Shape);
    };
    let mut tables = Tables::new();
    type_tables::judge(&sheet, &mut tables)?;
    typed(&sheet, work, &tables)
}

// Does the script take A into B: the units of the check that says so.
pub fn check(s: &[u8], work: &mut [u8]) -> Result<usize, CheckRefusal>
    ensures { CheckReply s.now work.old (checked_reply result work.new) }
{
    let answer = check_judged(s, work);
    words::zero(work);
    answer
}

// An apply that is done: the units of its check, and its run.
#[derive(Clone, Copy)]
pub struct Applied {
    pub units: usize,
    pub ran: Ran,
}

// The check's refusal; beside the check's units, Unfit with the row of the first fault, or the run's refusal.
#[derive(Clone, Copy)]
pub enum ApplyRefusal {
    Check(CheckRefusal),
    Unfit { row: usize, units: usize },
    Run(usize, RunRefusal),
}

impl From<CheckRefusal> for ApplyRefusal {
    ghost from_gives = { λ c r. r ≡ apply_unchecked c };

    fn from(c: CheckRefusal) -> ApplyRefusal {
        ApplyRefusal::Check(c)
    }
}

impl From<Unsound> for ApplyRefusal {
    ghost from_gives = { λ u r. r ≡ apply_unsound u };

    fn from(u: Unsound) -> ApplyRefusal {
        ApplyRefusal::Check(CheckRefusal::from(u))
    }
}

// A sound sheet's apply, by its tables: the check, the forest against A, the run; the first refusal ends it.
fn in_turn(
    s: &Sheet,
    work: &mut [u8],
    res: &mut [u8],
    tables: &Tables,
) -> Result<Applied, ApplyRefusal>
    requires s_value { (shapely s.now ≡ true) × (Loads s.now done) }
    requires lent { LentTables s.now tables.now }
    ensures { Applies s.now work.old res.old result res.new }
{
    let units = typed(s, work, tables)?;
    match fit::of_type(s, s.a(), &tables.behind, tables) {
        Err(fault) => Err(ApplyRefusal::Unfit {
            row: fault.row,
            units,
        }),
        Ok(()) => match walked(s, work, res) {
            Err(why) => Err(ApplyRefusal::Run(units, why)),
            Ok(ran) => Ok(Applied { units, ran }),
        },
    }
}

// Refusals 2, 3 and 4, once; then the three questions.
fn apply_judged(s: &[u8], work: &mut [u8], res: &mut [u8]) -> Result<Applied, ApplyRefusal>
    ensures { Applies s.now work.old res.old result res.new }
{
    let Some(sheet) = shape::shaped(s) else {
        return Err(ApplyRefusal::Check(CheckRefusal::Shape));
    };
    let mut tables = Tables::new();
    type_tables::judge(&sheet, &mut tables)?;
    in_turn(&sheet, work, res, &tables)
}

// The edited forest of a script that the check passes, on a forest of A.
pub fn apply(s: &[u8], work: &mut [u8], res: &mut [u8]) -> Result<Applied, ApplyRefusal>
    ensures { ApplyReply s.now work.old res.old
        (applied_reply result res.new work.new) }
{
    let answer = apply_judged(s, work, res);
    words::zero(work);
    answer
}
