// How a run's statements go (figure 3): a cycle of evaluators in which the remaining depth falls. A statement has a focus, the row of
// the forest that it edits.
// The sheet, the rows, the scope, the focus and the depth stay parameters of their own, as in run_query: a part changes one of them.
// What is alike in `run_query` stays twice, as said there; `Fate` stands in `check_statement` too, where a type has it and not a forest.
#![tactic(auto)]

ghost use Rattle.std.specs.Prelude.{◌≡◌, ℕ, ◌+◌, ◌<◌, ◌≤◌};
ghost use Rattle.meaning.specs.Kinds.{Statement, present};
ghost use Rattle.meaning.specs.Forest.{count, forest_at};
ghost use Rattle.meaning.specs.Walk.{of_statement};
ghost use Rattle.meaning.specs.Run.{seen, tested, rename_of, each};
ghost use Rattle.meaning.specs.Theorems.ReadBack.{lent_row};
ghost use Rattle.sheet.specs.Forms.{test_said};
ghost use Rattle.walk.specs.Meets.{Roomy, Meets, Ran};
ghost use Rattle.walk.specs.Loop.{Links, Turns, alone, gathered, turn_of};
ghost use Rattle.forest_rows.specs.Rows.{Readable};
ghost use Rattle.run_query.specs.Ask.{pool};
ghost use Rattle.run_query.specs.Ask as ask;
ghost use Rattle.run_statement.specs.Edit.{Edits, fits, fits_row, fits_called, on, went, row_went, body_went, fate_of, fate_told};

use forest_rows::{Seen, front, keep, look, make};
use run_query::query;
use sheet::forms::Test;
use sheet::{Sheet, forms};
use walk::{Concern, Got, Left, Scope, Stop};

// Insert on an empty focus, else Stuck.
fn insert(
    s: &Sheet,
    rows: &mut [u8],
    scope: Scope,
    at: usize,
    p: usize,
    focus: usize,
    depth: usize,
    left: Left,
) -> Result<Got, Stop>
    requires { Edits s.now rows.old scope left.used focus left.purse.left (fits_row s.now depth scope (Statement.insert p)) }
    ensures { Meets (row_went s.now rows.old scope depth at (Statement.insert p) focus)
        (pool s.now) left.purse.left left.used rows.old rows.new result }
{
    if focus != 0 {
        return Err(Stop::Stuck(Concern::Statement(at), left.purse));
    }
    query(s, rows, scope, p, depth, left)
}

// Another label for one labelled tree, else Stuck.
fn rename(rows: &mut [u8], at: usize, label: usize, focus: usize, left: Left) -> Result<Got, Stop>
    requires { (Roomy rows.old left.used left.purse.left) × (focus ≤ left.used) × (label < 65536) }
    ensures { (byte : ℕ → ℕ) → Meets (rename_of (of_statement at) label
        (seen (forest_at byte (lent_row rows.old) focus))) byte left.purse.left left.used rows.old rows.new result }
{
    let Some((_, c)) = look(rows, focus).node() else {
        return Err(Stop::Stuck(Concern::Statement(at), left.purse));
    };
    make(rows, 4, label, c, left)
}

// What a test says of the focus: no one tree, a match, or none.
#[derive(Clone, Copy)]
enum Fate {
    Misfit,
    Matched,
    Passed,
}

// Of what is seen.
fn verdict(seen: Seen, what: Test) -> Fate
    ensures { result ≡ fate_told seen what }
{
    match (seen, what) {
        (Seen::Nothing | Seen::Many, _) => Fate::Misfit,
        (_, Test::Any) | (Seen::Text(_, _), Test::Text) => Fate::Matched,
        (Seen::Node(label, _), Test::Label(wanted)) if label == wanted => Fate::Matched,
        _ => Fate::Passed,
    }
}

// Of the focus.
fn judge(rows: &[u8], what: Test, focus: usize) -> Fate
    requires { Readable rows.now focus }
    ensures { (byte : ℕ → ℕ) → fate_of result ≡ tested (test_said what) (seen (forest_at byte (lent_row rows.now) focus)) }
{
    verdict(look(rows, focus), what)
}

// Statement row `at` on the forest at `focus`.
#[cycle(statements)]
pub fn statement(
    s: &Sheet,
    rows: &mut [u8],
    scope: Scope,
    at: usize,
    focus: usize,
    depth: usize,
    left: Left,
) -> Result<Got, Stop>
    requires { Edits s.now rows.old scope left.used focus left.purse.left (fits s.now depth scope at) }
    ensures { Ran (went s.now rows.old scope depth at focus) (pool s.now) left.purse.left left.used
        rows.old rows.new result }
{
    if depth == 0 {
        return Err(Stop::Depth(left.purse));
    }
    let purse = left.purse.take()?;
    let left = Left { purse, ..left };
    let below = depth - 1;
    match s.statement_row(at).as_statement() {
        forms::Statement::Skip => Ok(Got { root: focus, left }),
        forms::Statement::Then(p, q) => pair(s, rows, scope, p, q, focus, below, left),
        forms::Statement::If(p, q, r) => choose(s, rows, scope, at, p, q, r, focus, below, left),
        forms::Statement::Insert(p) => insert(s, rows, scope, at, p, focus, below, left),
        forms::Statement::Delete => Ok(Got { root: 0, left }),
        forms::Statement::Rename(label) => rename(rows, at, label, focus, left),
        forms::Statement::Let(p, q) => let_in(s, rows, scope, p, q, focus, below, left),
        forms::Statement::Snapshot(p) => snapshot(s, rows, scope, p, focus, below, left),
        forms::Statement::Test(what, r) => test(s, rows, scope, at, what, r, focus, below, left),
        forms::Statement::Children(p) => children(s, rows, scope, at, p, focus, below, left),
        forms::Statement::Left(p) => put_left(s, rows, scope, p, focus, below, left),
        forms::Statement::Right(p) => put_right(s, rows, scope, p, focus, below, left),
        forms::Statement::Iter(p) => iter(s, rows, scope, p, focus, below, left),
        forms::Statement::Call(to, q, r) => call(s, rows, scope, to, q, r, focus, below, left),
        forms::Statement::Nothing => Err(Stop::Stuck(Concern::Statement(at), left.purse)),
    }
}

// One statement, then another on what it gave.
#[cycle(statements)]
fn pair(
    s: &Sheet,
    rows: &mut [u8],
    scope: Scope,
    p: usize,
    q: usize,
    focus: usize,
    depth: usize,
    left: Left,
) -> Result<Got, Stop>
    requires { Edits s.now rows.old scope left.used focus left.purse.left (fits_row s.now depth scope (Statement.then p q)) }
    ensures { Meets (row_went s.now rows.old scope depth 0 (Statement.then p q) focus)
        (pool s.now) left.purse.left left.used rows.old rows.new result }
{
    let x = statement(s, rows, scope, p, focus, depth, left)?;
    statement(s, rows, scope, q, x.root, depth, x.left)
}

// A condition is one bool, else Stuck at the if.
#[cycle(statements)]
fn choose(
    s: &Sheet,
    rows: &mut [u8],
    scope: Scope,
    at: usize,
    p: usize,
    q: usize,
    r: usize,
    focus: usize,
    depth: usize,
    left: Left,
) -> Result<Got, Stop>
    requires { Edits s.now rows.old scope left.used focus left.purse.left
        (fits_row s.now depth scope (Statement.if p q r)) }
    ensures { Meets (row_went s.now rows.old scope depth at (Statement.if p q r) focus)
        (pool s.now) left.purse.left left.used rows.old rows.new result }
{
    let x = query(s, rows, scope, p, depth, left)?;
    let Some(yes) = look(rows, x.root).bool() else {
        return Err(Stop::Stuck(Concern::Statement(at), x.left.purse));
    };
    let arm = if yes { q } else { r };
    statement(s, rows, scope, arm, focus, depth, x.left)
}

// A statement with a forest variable more.
#[cycle(statements)]
fn let_in(
    s: &Sheet,
    rows: &mut [u8],
    scope: Scope,
    p: usize,
    q: usize,
    focus: usize,
    depth: usize,
    left: Left,
) -> Result<Got, Stop>
    requires { Edits s.now rows.old scope left.used focus left.purse.left (fits_row s.now depth scope (Statement.letin p q)) }
    ensures { Meets (row_went s.now rows.old scope depth 0 (Statement.letin p q) focus)
        (pool s.now) left.purse.left left.used rows.old rows.new result }
{
    let x = query(s, rows, scope, p, depth, left)?;
    statement(s, rows, scope.with(1, x.root), q, focus, depth, x.left)
}

// A statement with the focus as a forest variable.
#[cycle(statements)]
fn snapshot(
    s: &Sheet,
    rows: &mut [u8],
    scope: Scope,
    p: usize,
    focus: usize,
    depth: usize,
    left: Left,
) -> Result<Got, Stop>
    requires { Edits s.now rows.old scope left.used focus left.purse.left (fits_row s.now depth scope (Statement.snapshot p)) }
    ensures { Meets (row_went s.now rows.old scope depth 0 (Statement.snapshot p) focus)
        (pool s.now) left.purse.left left.used rows.old rows.new result }
{
    statement(s, rows, scope.with(1, focus), p, focus, depth, left)
}

// A statement on a tree that matches; another stays as it is.
#[cycle(statements)]
fn test(
    s: &Sheet,
    rows: &mut [u8],
    scope: Scope,
    at: usize,
    what: Test,
    r: usize,
    tree: usize,
    depth: usize,
    left: Left,
) -> Result<Got, Stop>
    requires { Edits s.now rows.old scope left.used tree left.purse.left
        (fits_row s.now depth scope (Statement.test (test_said what) r)) }
    ensures { Meets (row_went s.now rows.old scope depth at
        (Statement.test (test_said what) r) tree) (pool s.now) left.purse.left left.used rows.old
        rows.new result }
{
    match judge(rows, what, tree) {
        Fate::Misfit => Err(Stop::Stuck(Concern::Statement(at), left.purse)),
        Fate::Matched => statement(s, rows, scope, r, tree, depth, left),
        Fate::Passed => Ok(Got { root: tree, left }),
    }
}

// A statement on the children of one labelled tree, else Stuck.
#[cycle(statements)]
fn children(
    s: &Sheet,
    rows: &mut [u8],
    scope: Scope,
    at: usize,
    p: usize,
    focus: usize,
    depth: usize,
    left: Left,
) -> Result<Got, Stop>
    requires { Edits s.now rows.old scope left.used focus left.purse.left (fits_row s.now depth scope (Statement.children p)) }
    ensures { Meets (row_went s.now rows.old scope depth at (Statement.children p) focus)
        (pool s.now) left.purse.left left.used rows.old rows.new result }
{
    let Some((label, c)) = look(rows, focus).node() else {
        return Err(Stop::Stuck(Concern::Statement(at), left.purse));
    };
    let x = statement(s, rows, scope, p, c, depth, left)?;
    make(rows, 4, label, x.root, x.left)
}

// What the statement gives on (), set before the focus.
#[cycle(statements)]
fn put_left(
    s: &Sheet,
    rows: &mut [u8],
    scope: Scope,
    p: usize,
    focus: usize,
    depth: usize,
    left: Left,
) -> Result<Got, Stop>
    requires { Edits s.now rows.old scope left.used focus left.purse.left (fits_row s.now depth scope (Statement.left p)) }
    ensures { Meets (row_went s.now rows.old scope depth 0 (Statement.left p) focus)
        (pool s.now) left.purse.left left.used rows.old rows.new result }
{
    let x = statement(s, rows, scope, p, 0, depth, left)?;
    front(rows, x.root, focus, x.left)
}

// And behind it.
#[cycle(statements)]
fn put_right(
    s: &Sheet,
    rows: &mut [u8],
    scope: Scope,
    p: usize,
    focus: usize,
    depth: usize,
    left: Left,
) -> Result<Got, Stop>
    requires { Edits s.now rows.old scope left.used focus left.purse.left (fits_row s.now depth scope (Statement.right p)) }
    ensures { Meets (row_went s.now rows.old scope depth 0 (Statement.right p) focus)
        (pool s.now) left.purse.left left.used rows.old rows.new result }
{
    let x = statement(s, rows, scope, p, 0, depth, left)?;
    front(rows, focus, x.root, x.left)
}

// A turn for each tree of the focus as it was; then what the turns gave.
#[cycle(statements)]
fn iter(
    s: &Sheet,
    rows: &mut [u8],
    scope: Scope,
    body: usize,
    focus: usize,
    depth: usize,
    left: Left,
) -> Result<Got, Stop>
    requires { Edits s.now rows.old scope left.used focus left.purse.left (fits s.now depth scope body) }
    ensures { Meets (each (body_went s.now rows.old scope depth body)
        (on s.now rows.old focus)) (pool s.now) left.purse.left left.used rows.old
        rows.new result }
{
    let mut at = focus;
    let mut links = Got { root: 0, left };
    while at != 0 {
        let next = forest_rows::row(rows, at).r;
        links = turn(s, rows, scope, body, at, links.root, depth, links.left)?;
        at = next;
    }
    let g = forest_rows::gather(rows, links.left.used, links.root);
    Ok(Got {
        root: g.root,
        left: Left {
            used: g.used,
            purse: links.left.purse,
        },
    })
}

// The body on one tree, alone; its result as a link in front of the links before.
#[cycle(statements)]
fn turn(
    s: &Sheet,
    rows: &mut [u8],
    scope: Scope,
    body: usize,
    at: usize,
    link: usize,
    depth: usize,
    left: Left,
) -> Result<Got, Stop>
    requires { (Edits s.now rows.old scope left.used at left.purse.left (fits s.now depth scope body)) × (0 < at) × (link ≤ left.used)
        × (Links (on s.now rows.old link)) }
    ensures { Turns (turn_of (body_went s.now rows.old scope depth body)
        (alone (on s.now rows.old at)) (on s.now rows.old link)) (pool s.now)
        left.purse.left left.used (left.used + left.purse.left + count (gathered (on s.now rows.old link))) rows.old
        rows.new result }
{
    let purse = left.purse.take()?;
    let t = forest_rows::row(rows, at);
    let one = forest_rows::push(rows, left.used, usize::from(t.kind), t.p, t.q, 0);
    let x = statement(s, rows, scope, body, one, depth, Left { used: one, purse })?;
    keep(rows, x.root, link, x.left)
}

// A call's queries, in order; then the procedure's body with what they gave as its only variables.
#[cycle(statements)]
fn call(
    s: &Sheet,
    rows: &mut [u8],
    scope: Scope,
    to: usize,
    q: usize,
    r: usize,
    focus: usize,
    depth: usize,
    left: Left,
) -> Result<Got, Stop>
    requires { (Edits s.now rows.old scope left.used focus left.purse.left
        (fits_row s.now depth scope (Statement.call to (present q r))))
        × (fits_called s.now depth to q r) }
    ensures { Meets (row_went s.now rows.old scope depth 0 (Statement.call to (present q r))
        focus) (pool s.now) left.purse.left left.used rows.old rows.new result }
{
    let body = s.procedure_row(to).body;
    let none = Scope::new();
    if q == 0 {
        return statement(s, rows, none, body, focus, depth, left);
    }
    let x = query(s, rows, scope, q, depth, left)?;
    let one = none.with(1, x.root);
    if r == 0 {
        return statement(s, rows, one, body, focus, depth, x.left);
    }
    let y = query(s, rows, scope, r, depth, x.left)?;
    statement(s, rows, one.with(1, y.root), body, focus, depth, y.left)
}
