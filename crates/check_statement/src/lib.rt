// How a check types statements (figure 4), bodies and a whole script: a cycle of evaluators in which the remaining depth falls and,
// where a type is worked through part by part, its row. A statement has a focus, the row of the type that it edits.
// What is alike in `check_query` and `run_statement` stays twice, and the parameters stay apart, as said in `run_query`. `LentTables`
// stays a clause: a type that held the sheet and its tables would say no more, and would be made where the clause is.
#![tactic(auto)]

ghost use Rattle.std.specs.Prelude.{◌≡◌, true, ◌*◌, ◌+◌, ◌<◌, ◌≤◌, length};
ghost use Rattle.meaning.specs.Tests.{in_table};
ghost use Rattle.meaning.specs.Sheet.{script_of};
ghost use Rattle.meaning.specs.Types.{declared};
ghost use Rattle.meaning.specs.Kinds.{Statement, present};
ghost use Rattle.meaning.specs.Reply.{done, Loads};
ghost use Rattle.meaning.specs.Shape.{shapely};
ghost use Rattle.meaning.specs.Check.{is_in, nine, check_walk};
ghost use Rattle.sheet.specs.Forms.{test_said};
ghost use Rattle.walk.specs.Concern.{concern_of};
ghost use Rattle.type_rows.specs.Grown.{ty_in};
ghost use Rattle.type_rows.specs.Finds.{top, Room, Finds};
ghost use Rattle.run_statement.specs.Edit.{fits, fits_row};
ghost use Rattle.type_tables.specs.Lent.{LentTables};
ghost use Rattle.check_query.specs.Infer.{Asks};
ghost use Rattle.check_query.specs.Questions.{Passes};
ghost use Rattle.check_statement.specs.Typing.{Checks, Gives, RowGives, EitherGives, PartsGive, RenameGives, Tested, fate_told};
ghost use Rattle.check_statement.specs.Calls.{Called, Wanted, ArgumentsGive, LiesGives};
ghost use Rattle.check_statement.specs.Bodies.{BodyGives, ProcedureGives};

use check_query::{must_be, query};
use sheet::forms::Test;
use sheet::{Sheet, forms};
use type_rows::parts::Part;
use type_rows::{Atom, Halt, write};
use type_tables::Tables;
use walk::{Concern, Got, Left, Purse, Scope};
use within::{PlainType, Wide};

// A query's type where the focus is (), else Mismatch.
fn insert(
    s: &Sheet,
    work: &mut [u8],
    scope: Scope,
    at: usize,
    p: usize,
    focus: usize,
    depth: usize,
    left: Left,
) -> Result<Got, Halt>
    requires { Checks s.now work.old scope left.used focus left.purse.left (fits_row s.now depth scope (Statement.insert p)) }
    ensures { RowGives s.now work.old work.new scope left.used depth at
        (Statement.insert p) focus left.purse.left result }
{
    must_be(
        s,
        work,
        focus,
        PlainType::Empty,
        Concern::Statement(at),
        left,
    )?;
    query(s, work, scope, p, depth, left)
}

// Another label for a labelled atom, else Mismatch.
fn rename(
    s: &Sheet,
    work: &mut [u8],
    at: usize,
    label: usize,
    focus: usize,
    left: Left,
) -> Result<Got, Halt>
    requires { (Loads s.now done) × (Room s.now work.old left.used left.purse.left) × (focus ≤ top s.now + left.used) × (label < 65536) }
    ensures { RenameGives s.now work.old work.new left.used at label focus left.purse.left result }
{
    let Atom::Label(_, content) = type_rows::atom_of(s, work, focus) else {
        return Err(Halt::Mismatch(Concern::Statement(at), left.purse));
    };
    write(s, work, 4, label, content, left)
}

// What a test says of the focus: no atom, a match, or none.
#[derive(Clone, Copy)]
enum Fate {
    Misfit,
    Matched,
    Passed,
}

fn verdict(atom: Atom, what: Test) -> Fate
    ensures { result ≡ fate_told atom what }
{
    match (atom, what) {
        (Atom::Other, _) => Fate::Misfit,
        (_, Test::Any) | (Atom::Text, Test::Text) => Fate::Matched,
        (Atom::Label(label, _), Test::Label(wanted)) if label == wanted => Fate::Matched,
        _ => Fate::Passed,
    }
}

fn judge(s: &Sheet, work: &[u8], what: Test, focus: usize) -> Fate
    requires { (shapely s.now ≡ true) × (focus < 65536) }
    ensures { Tested s.now work.now what focus result }
{
    verdict(type_rows::atom_of(s, work, focus), what)
}

// A rule's question, at its row: is the type at row `found` in the declared type at row `wanted`, of an argument or of a declared
// output. Wide first, then Not included.
fn must_lie(
    s: &Sheet,
    work: &[u8],
    tables: &Tables,
    found: usize,
    wanted: usize,
    at: Concern,
    left: Left,
) -> Result<(), Halt>
    requires loads { (Loads s.now done) × (Room s.now work.now left.used left.purse.left) × (found ≤ top s.now + left.used) ×
        (Wanted s.now wanted) }
    requires lent { LentTables s.now tables.now }
    ensures { Passes s.now (is_in (ty_in s.now work.now left.used found) (declared (script_of s.now) wanted) nine
        (concern_of at)) left.purse.left result }
{
    match within::declared(s, work, left.used, found, wanted, tables) {
        Ok(true) => Ok(()),
        Ok(false) => Err(Halt::Outside(at, left.purse)),
        Err(Wide) => Err(Halt::Wide(at, left.purse)),
    }
}

// The given type where the found one lies in the declared one.
fn lies(
    s: &Sheet,
    work: &[u8],
    tables: &Tables,
    found: usize,
    wanted: usize,
    given: usize,
    at: Concern,
    left: Left,
) -> Result<Got, Halt>
    requires loads { (Loads s.now done) × (Room s.now work.now left.used left.purse.left) × (found ≤ top s.now + left.used) ×
        (given ≤ top s.now + left.used) × (Wanted s.now wanted) }
    requires lent { LentTables s.now tables.now }
    ensures { LiesGives s.now work.now left.used at found wanted given left.purse.left result }
{
    must_lie(s, work, tables, found, wanted, at, left)?;
    Ok(Got { root: given, left })
}

// A call's queries, in order; then what they gave against the declared types, in order. It gives the declared output.
fn arguments(
    s: &Sheet,
    work: &mut [u8],
    tables: &Tables,
    scope: Scope,
    at: usize,
    c: usize,
    q: usize,
    r: usize,
    depth: usize,
    left: Left,
) -> Result<Got, Halt>
    requires asks { (Asks s.now work.old scope left.used left.purse.left (fits_row s.now depth scope (Statement.call c (present q r)))) ×
        (Called s.now c q r) }
    requires lent { LentTables s.now tables.now }
    ensures { ArgumentsGive s.now work.old work.new scope left.used depth at c q r left.purse.left result }
{
    let one = s.procedure_row(c);
    let here = Concern::Statement(at);
    if q == 0 {
        return Ok(Got {
            root: one.output,
            left,
        });
    }
    let x = query(s, work, scope, q, depth, left)?;
    if r == 0 {
        return lies(s, work, tables, x.root, one.first, one.output, here, x.left);
    }
    let y = query(s, work, scope, r, depth, x.left)?;
    must_lie(s, work, tables, x.root, one.first, here, y.left)?;
    lies(
        s, work, tables, y.root, one.second, one.output, here, y.left,
    )
}

// A call: its focus against the declared input, then its arguments.
fn call(
    s: &Sheet,
    work: &mut [u8],
    tables: &Tables,
    scope: Scope,
    at: usize,
    c: usize,
    q: usize,
    r: usize,
    focus: usize,
    depth: usize,
    left: Left,
) -> Result<Got, Halt>
    requires checks { (Checks s.now work.old scope left.used focus left.purse.left (fits_row s.now depth scope
        (Statement.call c (present q r)))) × (Called s.now c q r) }
    requires lent { LentTables s.now tables.now }
    ensures { RowGives s.now work.old work.new scope left.used depth at
        (Statement.call c (present q r)) focus left.purse.left result }
{
    let input = s.procedure_row(c).input;
    let here = Concern::Statement(at);
    must_lie(s, work, tables, focus, input, here, left)?;
    arguments(s, work, tables, scope, at, c, q, r, depth, left)
}

// Statement row `at` on a focus of the type at `focus`.
#[cycle(statements)]
pub fn statement(
    s: &Sheet,
    work: &mut [u8],
    tables: &Tables,
    scope: Scope,
    at: usize,
    focus: usize,
    depth: usize,
    left: Left,
) -> Result<Got, Halt>
    requires checks { Checks s.now work.old scope left.used focus left.purse.left (fits s.now depth scope at) }
    requires lent { LentTables s.now tables.now }
    ensures { Gives s.now work.old work.new scope left.used depth at focus left.purse.left result }
{
    if depth == 0 {
        return Err(Halt::Depth(left.purse));
    }
    let below = depth - 1;
    let purse = left.purse.take()?;
    let left = Left { purse, ..left };
    match s.statement_row(at).as_statement() {
        forms::Statement::Skip => Ok(Got { root: focus, left }),
        forms::Statement::Then(p, q) => pair(s, work, tables, scope, p, q, focus, below, left),
        forms::Statement::If(p, q, r) => choose(
            s, work, tables, scope, at, p, q, r, focus, below, left,
        ),
        forms::Statement::Insert(p) => insert(s, work, scope, at, p, focus, below, left),
        forms::Statement::Delete => write(s, work, 1, 0, 0, left),
        forms::Statement::Rename(label) => rename(s, work, at, label, focus, left),
        forms::Statement::Let(p, q) => let_in(s, work, tables, scope, p, q, focus, below, left),
        forms::Statement::Snapshot(p) => snapshot(s, work, tables, scope, p, focus, below, left),
        forms::Statement::Test(what, r) => test(
            s, work, tables, scope, at, what, r, focus, below, left,
        ),
        forms::Statement::Children(p) => children(
            s, work, tables, scope, at, p, focus, below, left,
        ),
        forms::Statement::Left(p) => put_left(s, work, tables, scope, p, focus, below, left),
        forms::Statement::Right(p) => put_right(s, work, tables, scope, p, focus, below, left),
        forms::Statement::Iter(p) => parts(s, work, tables, scope, p, focus, below, left),
        forms::Statement::Call(c, q, r) => call(
            s, work, tables, scope, at, c, q, r, focus, below, left,
        ),
        forms::Statement::Nothing => Err(Halt::Mismatch(Concern::Statement(at), left.purse)),
    }
}

// One statement, then another on what it gave.
#[cycle(statements)]
fn pair(
    s: &Sheet,
    work: &mut [u8],
    tables: &Tables,
    scope: Scope,
    p: usize,
    q: usize,
    focus: usize,
    depth: usize,
    left: Left,
) -> Result<Got, Halt>
    requires checks { Checks s.now work.old scope left.used focus left.purse.left (fits_row s.now depth scope (Statement.then p q)) }
    requires lent { LentTables s.now tables.now }
    ensures { RowGives s.now work.old work.new scope left.used depth 0
        (Statement.then p q) focus left.purse.left result }
{
    let x = statement(s, work, tables, scope, p, focus, depth, left)?;
    statement(s, work, tables, scope, q, x.root, depth, x.left)
}

// A condition is a bool, else Mismatch at the if; then both statements.
#[cycle(statements)]
fn choose(
    s: &Sheet,
    work: &mut [u8],
    tables: &Tables,
    scope: Scope,
    at: usize,
    p: usize,
    q: usize,
    r: usize,
    focus: usize,
    depth: usize,
    left: Left,
) -> Result<Got, Halt>
    requires checks { Checks s.now work.old scope left.used focus left.purse.left (fits_row s.now depth scope (Statement.if p q r)) }
    requires lent { LentTables s.now tables.now }
    ensures { RowGives s.now work.old work.new scope left.used depth at
        (Statement.if p q r) focus left.purse.left result }
{
    let x = query(s, work, scope, p, depth, left)?;
    must_be(
        s,
        work,
        x.root,
        PlainType::Bool,
        Concern::Statement(at),
        x.left,
    )?;
    either(s, work, tables, scope, q, r, focus, depth, x.left)
}

// The choice of what two statements give.
#[cycle(statements)]
fn either(
    s: &Sheet,
    work: &mut [u8],
    tables: &Tables,
    scope: Scope,
    q: usize,
    r: usize,
    focus: usize,
    depth: usize,
    left: Left,
) -> Result<Got, Halt>
    requires checks { Checks s.now work.old scope left.used focus left.purse.left (fits_row s.now depth scope (Statement.then q r)) }
    requires lent { LentTables s.now tables.now }
    ensures { EitherGives s.now work.old work.new scope left.used depth q r focus left.purse.left result }
{
    let x = statement(s, work, tables, scope, q, focus, depth, left)?;
    let y = statement(s, work, tables, scope, r, focus, depth, x.left)?;
    write(s, work, 6, x.root, y.root, y.left)
}

// A statement with a forest variable more.
#[cycle(statements)]
fn let_in(
    s: &Sheet,
    work: &mut [u8],
    tables: &Tables,
    scope: Scope,
    p: usize,
    q: usize,
    focus: usize,
    depth: usize,
    left: Left,
) -> Result<Got, Halt>
    requires checks { Checks s.now work.old scope left.used focus left.purse.left (fits_row s.now depth scope (Statement.letin p q)) }
    requires lent { LentTables s.now tables.now }
    ensures { RowGives s.now work.old work.new scope left.used depth 0
        (Statement.letin p q) focus left.purse.left result }
{
    let x = query(s, work, scope, p, depth, left)?;
    let scope = scope.with(1, x.root);
    statement(s, work, tables, scope, q, focus, depth, x.left)
}

// A statement with the focus as a forest variable.
#[cycle(statements)]
fn snapshot(
    s: &Sheet,
    work: &mut [u8],
    tables: &Tables,
    scope: Scope,
    p: usize,
    focus: usize,
    depth: usize,
    left: Left,
) -> Result<Got, Halt>
    requires checks { Checks s.now work.old scope left.used focus left.purse.left (fits_row s.now depth scope (Statement.snapshot p)) }
    requires lent { LentTables s.now tables.now }
    ensures { RowGives s.now work.old work.new scope left.used depth 0
        (Statement.snapshot p) focus left.purse.left result }
{
    let scope = scope.with(1, focus);
    statement(s, work, tables, scope, p, focus, depth, left)
}

// A statement on an atom that matches; another stays as it is.
#[cycle(statements)]
fn test(
    s: &Sheet,
    work: &mut [u8],
    tables: &Tables,
    scope: Scope,
    at: usize,
    what: Test,
    r: usize,
    focus: usize,
    depth: usize,
    left: Left,
) -> Result<Got, Halt>
    requires checks { Checks s.now work.old scope left.used focus left.purse.left (fits_row s.now depth scope
        (Statement.test (test_said what) r)) }
    requires lent { LentTables s.now tables.now }
    ensures { RowGives s.now work.old work.new scope left.used depth at
        (Statement.test (test_said what) r) focus left.purse.left result }
{
    match judge(s, work, what, focus) {
        Fate::Misfit => Err(Halt::Mismatch(Concern::Statement(at), left.purse)),
        Fate::Matched => statement(s, work, tables, scope, r, focus, depth, left),
        Fate::Passed => Ok(Got { root: focus, left }),
    }
}

// A statement on the content of a labelled atom, else Mismatch.
#[cycle(statements)]
fn children(
    s: &Sheet,
    work: &mut [u8],
    tables: &Tables,
    scope: Scope,
    at: usize,
    p: usize,
    focus: usize,
    depth: usize,
    left: Left,
) -> Result<Got, Halt>
    requires checks { Checks s.now work.old scope left.used focus left.purse.left (fits_row s.now depth scope (Statement.children p)) }
    requires lent { LentTables s.now tables.now }
    ensures { RowGives s.now work.old work.new scope left.used depth at
        (Statement.children p) focus left.purse.left result }
{
    let Atom::Label(label, content) = type_rows::atom_of(s, work, focus) else {
        return Err(Halt::Mismatch(Concern::Statement(at), left.purse));
    };
    let x = statement(s, work, tables, scope, p, content, depth, left)?;
    write(s, work, 4, label, x.root, x.left)
}

// What the statement gives on (), set before the focus.
#[cycle(statements)]
fn put_left(
    s: &Sheet,
    work: &mut [u8],
    tables: &Tables,
    scope: Scope,
    p: usize,
    focus: usize,
    depth: usize,
    left: Left,
) -> Result<Got, Halt>
    requires checks { Checks s.now work.old scope left.used focus left.purse.left (fits_row s.now depth scope (Statement.left p)) }
    requires lent { LentTables s.now tables.now }
    ensures { RowGives s.now work.old work.new scope left.used depth 0
        (Statement.left p) focus left.purse.left result }
{
    let x = statement(s, work, tables, scope, p, 0, depth, left)?;
    write(s, work, 5, x.root, focus, x.left)
}

// And behind it.
#[cycle(statements)]
fn put_right(
    s: &Sheet,
    work: &mut [u8],
    tables: &Tables,
    scope: Scope,
    p: usize,
    focus: usize,
    depth: usize,
    left: Left,
) -> Result<Got, Halt>
    requires checks { Checks s.now work.old scope left.used focus left.purse.left (fits_row s.now depth scope (Statement.right p)) }
    requires lent { LentTables s.now tables.now }
    ensures { RowGives s.now work.old work.new scope left.used depth 0
        (Statement.right p) focus left.purse.left result }
{
    let x = statement(s, work, tables, scope, p, 0, depth, left)?;
    write(s, work, 5, focus, x.root, x.left)
}

// A type part by part: the statement at each atom. A type row visited is a frame, and thousands may be visited at once.
#[cycle(statements)]
fn parts(
    s: &Sheet,
    work: &mut [u8],
    tables: &Tables,
    scope: Scope,
    body: usize,
    of: usize,
    depth: usize,
    left: Left,
) -> Result<Got, Halt>
    requires checks { Checks s.now work.old scope left.used of left.purse.left (fits s.now depth scope body) }
    requires lent { LentTables s.now tables.now }
    ensures { PartsGive s.now work.old work.new scope left.used depth body of left.purse.left result }
{
    let purse = left.purse.take()?;
    let left = Left { purse, ..left };
    match type_rows::parts::part_of(s, work, of) {
        Part::Nothing => Ok(Got { root: 0, left }),
        Part::Atom => statement(s, work, tables, scope, body, of, depth, left),
        Part::Star(p) => {
            let x = parts(s, work, tables, scope, body, p, depth, left)?;
            write(s, work, 7, x.root, 0, x.left)
        }
        Part::Pair(kind, p, q) => {
            let x = parts(s, work, tables, scope, body, p, depth, left)?;
            let y = parts(s, work, tables, scope, body, q, depth, x.left)?;
            write(s, work, kind, x.root, y.root, y.left)
        }
    }
}

// A body, or main, against its declared output.
fn body(
    s: &Sheet,
    work: &mut [u8],
    tables: &Tables,
    scope: Scope,
    at: usize,
    input: usize,
    output: usize,
    left: Left,
) -> Result<Got, Halt>
    requires checks { (Checks s.now work.old scope left.used input left.purse.left (fits s.now 200 scope at)) × (Wanted s.now output) }
    requires lent { LentTables s.now tables.now }
    ensures { BodyGives s.now work.old work.new scope left.used at input output left.purse.left result }
{
    let x = statement(s, work, tables, scope, at, input, 200, left)?;
    lies(
        s,
        work,
        tables,
        x.root,
        output,
        x.root,
        Concern::Output,
        x.left,
    )
}

// A procedure's body, with its parameters as its only variables.
fn procedure(s: &Sheet, work: &mut [u8], tables: &Tables, c: usize, left: Left) -> Result<Got, Halt>
    requires loads { (Loads s.now done) × (Room s.now work.old left.used left.purse.left)
        × (in_table (script_of s.now).procedures c ≡ true) }
    requires lent { LentTables s.now tables.now }
    ensures { ProcedureGives s.now work.old work.new left.used c left.purse.left result }
{
    let one = s.procedure_row(c);
    let none = Scope::new();
    if one.first == 0 {
        return body(s, work, tables, none, one.body, one.input, one.output, left);
    }
    let scope = none.with(1, one.first);
    if one.second == 0 {
        return body(
            s, work, tables, scope, one.body, one.input, one.output, left,
        );
    }
    let scope = scope.with(1, one.second);
    body(
        s, work, tables, scope, one.body, one.input, one.output, left,
    )
}

// Every procedure in number order, then main from A to B, for one purse.
pub fn check(s: &Sheet, work: &mut [u8], tables: &Tables, purse: Purse) -> Result<Got, Halt>
    requires loads { (Loads s.now done) × (8 * purse.left ≤ length work.old) × (purse.left ≤ 4096) }
    requires lent { LentTables s.now tables.now }
    ensures { Finds (check_walk (script_of s.now))
        s.now purse.left 0 work.old work.new result }
{
    let mut left = Left { used: 0, purse };
    for c in 0..s.procedures() {
        left = procedure(s, work, tables, c + 1, left)?.left;
    }
    body(s, work, tables, Scope::new(), s.main(), s.a(), s.b(), left)
}
