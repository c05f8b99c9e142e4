// How a run's queries go (figure 12): a cycle of evaluators in which the remaining depth falls. Values are rows of the lent ones; each
// unit buys at most one row.
// The sheet, the rows, the scope and the depth stay parameters of their own: a part changes one of them and keeps the rest (the scope at
// let and for, the depth at each row), so a struct of the four would be taken apart and made anew at each call, and is no plainer.
// What is alike in `run_statement` (`each` and `turn` there, `choose`, `let_in`) stays twice: each calls its own cycle, and a closure that
// calls a cycle gets no proof. `each` walks along rows, each of which names the next: no index is counted.
#![tactic(auto)]

ghost use Rattle.std.specs.Prelude.{◌≡◌, ℕ, ◌+◌, ◌<◌, ◌≤◌};
ghost use Rattle.meaning.specs.Kinds.{Query};
ghost use Rattle.meaning.specs.Forest.{count, forest_at, bool_kind};
ghost use Rattle.meaning.specs.Walk.{of_query};
ghost use Rattle.meaning.specs.Run.{seen, inside, same_texts, each};
ghost use Rattle.meaning.specs.Theorems.ReadBack.{lent_row};
ghost use Rattle.walk.specs.Meets.{Roomy, Meets, Ran};
ghost use Rattle.walk.specs.Loop.{Links, Turns, alone, gathered, turn_of};
ghost use Rattle.forest_rows.specs.Rows.{Readable};
ghost use Rattle.walk.specs.Fits.{fits, fits_row, fits_body};
ghost use Rattle.run_query.specs.Ask.{Asks, pool, asked, row_asked, body_asked};

use forest_rows::{front, keep, look, make, picked};
use sheet::{Sheet, forms};
use walk::{Concern, Got, Left, Scope, Stop};

// The kind of a bool's row.
fn kind_of(b: bool) -> usize
    ensures { result ≡ bool_kind b }
{
    if b { 3 } else { 2 }
}

// Both sides are single texts, else Stuck.
fn same_texts(
    s: &Sheet,
    rows: &mut [u8],
    at: usize,
    x: usize,
    y: usize,
    left: Left,
) -> Result<Got, Stop>
    requires { (Roomy rows.old left.used left.purse.left) × (x ≤ left.used) × (y ≤ left.used) }
    ensures { Meets (same_texts (of_query at) (seen (forest_at (pool s.now) (lent_row rows.old) x))
        (seen (forest_at (pool s.now) (lent_row rows.old) y))) (pool s.now) left.purse.left left.used
        rows.old rows.new result }
{
    let stuck = Stop::Stuck(Concern::Query(at), left.purse);
    let Some((o, n)) = look(rows, x).text() else {
        return Err(stuck);
    };
    let Some((p, m)) = look(rows, y).text() else {
        return Err(stuck);
    };
    let same = forest_rows::texts::same_bytes(s.bytes(), o, n, p, m);
    make(rows, kind_of(same), 0, 0, left)
}

// The children of a variable's tree; of a text or a bool none.
fn children(rows: &[u8], root: usize) -> usize
    requires { Readable rows.now root }
    ensures is { (byte : ℕ → ℕ) → forest_at byte (lent_row rows.now) result ≡ inside
        (seen (forest_at byte (lent_row rows.now) root)) }
    ensures down { result ≤ root }
{
    match look(rows, root).node() {
        Some((_, c)) => c,
        None => 0,
    }
}

// Query row `at`.
#[cycle(queries)]
pub fn query(
    s: &Sheet,
    rows: &mut [u8],
    scope: Scope,
    at: usize,
    depth: usize,
    left: Left,
) -> Result<Got, Stop>
    requires { Asks s.now rows.old scope left.used 0 left.purse.left (fits s.now depth scope at) }
    ensures { Ran (asked s.now rows.old scope depth at) (pool s.now) left.purse.left left.used
        rows.old rows.new result }
{
    if depth == 0 {
        return Err(Stop::Depth(left.purse));
    }
    let purse = left.purse.take()?;
    let left = Left { purse, ..left };
    let below = depth - 1;
    match s.query_row(at).as_query() {
        forms::Query::Empty => Ok(Got { root: 0, left }),
        forms::Query::Join(p, q) => join(s, rows, scope, p, q, below, left),
        forms::Query::Tree(label, q) => tree(s, rows, scope, label, q, below, left),
        forms::Query::Text(o, n) => make(rows, 1, o, n, left),
        forms::Query::Bool(b) => make(rows, kind_of(b), 0, 0, left),
        forms::Query::Variable(v) => Ok(Got {
            root: scope.value(v),
            left,
        }),
        forms::Query::Let(p, q) => let_in(s, rows, scope, p, q, below, left),
        forms::Query::If(p, q, r) => choose(s, rows, scope, at, p, q, r, below, left),
        forms::Query::Same(p, q) => same(s, rows, scope, at, p, q, below, left),
        forms::Query::Children(v) => Ok(Got {
            root: children(rows, scope.value(v)),
            left,
        }),
        forms::Query::Pick(p, label) => pick(s, rows, scope, p, label, below, left),
        forms::Query::For(p, q) => for_each(s, rows, scope, p, q, below, left),
        forms::Query::Nothing => Err(Stop::Stuck(Concern::Query(at), left.purse)),
    }
}

// One forest, copied, in front of another.
#[cycle(queries)]
fn join(
    s: &Sheet,
    rows: &mut [u8],
    scope: Scope,
    p: usize,
    q: usize,
    depth: usize,
    left: Left,
) -> Result<Got, Stop>
    requires { Asks s.now rows.old scope left.used 0 left.purse.left (fits_row s.now depth scope (Query.join p q)) }
    ensures { Meets (row_asked s.now rows.old scope depth 0 (Query.join p q)) (pool s.now)
        left.purse.left left.used rows.old rows.new result }
{
    let x = query(s, rows, scope, p, depth, left)?;
    let y = query(s, rows, scope, q, depth, x.left)?;
    front(rows, x.root, y.root, y.left)
}

// A labelled tree.
#[cycle(queries)]
fn tree(
    s: &Sheet,
    rows: &mut [u8],
    scope: Scope,
    label: usize,
    q: usize,
    depth: usize,
    left: Left,
) -> Result<Got, Stop>
    requires { (Asks s.now rows.old scope left.used 0 left.purse.left (fits_row s.now depth scope (Query.tree label q)))
        × (label < 65536) }
    ensures { Meets (row_asked s.now rows.old scope depth 0 (Query.tree label q)) (pool s.now)
        left.purse.left left.used rows.old rows.new result }
{
    let x = query(s, rows, scope, q, depth, left)?;
    make(rows, 4, label, x.root, x.left)
}

// A query with a forest variable more.
#[cycle(queries)]
fn let_in(
    s: &Sheet,
    rows: &mut [u8],
    scope: Scope,
    p: usize,
    q: usize,
    depth: usize,
    left: Left,
) -> Result<Got, Stop>
    requires { Asks s.now rows.old scope left.used 0 left.purse.left (fits_row s.now depth scope (Query.letin p q)) }
    ensures { Meets (row_asked s.now rows.old scope depth 0 (Query.letin p q)) (pool s.now)
        left.purse.left left.used rows.old rows.new result }
{
    let x = query(s, rows, scope, p, depth, left)?;
    query(s, rows, scope.with(1, x.root), q, depth, x.left)
}

// A condition is one bool, else Stuck at the if.
#[cycle(queries)]
fn choose(
    s: &Sheet,
    rows: &mut [u8],
    scope: Scope,
    at: usize,
    p: usize,
    q: usize,
    r: usize,
    depth: usize,
    left: Left,
) -> Result<Got, Stop>
    requires { Asks s.now rows.old scope left.used 0 left.purse.left (fits_row s.now depth scope (Query.if p q r)) }
    ensures { Meets (row_asked s.now rows.old scope depth at (Query.if p q r)) (pool s.now)
        left.purse.left left.used rows.old rows.new result }
{
    let x = query(s, rows, scope, p, depth, left)?;
    let Some(yes) = look(rows, x.root).bool() else {
        return Err(Stop::Stuck(Concern::Query(at), x.left.purse));
    };
    let arm = if yes { q } else { r };
    query(s, rows, scope, arm, depth, x.left)
}

// Whether two texts have the same bytes.
#[cycle(queries)]
fn same(
    s: &Sheet,
    rows: &mut [u8],
    scope: Scope,
    at: usize,
    p: usize,
    q: usize,
    depth: usize,
    left: Left,
) -> Result<Got, Stop>
    requires { Asks s.now rows.old scope left.used 0 left.purse.left (fits_row s.now depth scope (Query.same p q)) }
    ensures { Meets (row_asked s.now rows.old scope depth at (Query.same p q)) (pool s.now)
        left.purse.left left.used rows.old rows.new result }
{
    let x = query(s, rows, scope, p, depth, left)?;
    let y = query(s, rows, scope, q, depth, x.left)?;
    same_texts(s, rows, at, x.root, y.root, y.left)
}

// The trees with a label.
#[cycle(queries)]
fn pick(
    s: &Sheet,
    rows: &mut [u8],
    scope: Scope,
    p: usize,
    label: usize,
    depth: usize,
    left: Left,
) -> Result<Got, Stop>
    requires { Asks s.now rows.old scope left.used 0 left.purse.left (fits_row s.now depth scope (Query.pick p label)) }
    ensures { Meets (row_asked s.now rows.old scope depth 0 (Query.pick p label)) (pool s.now)
        left.purse.left left.used rows.old rows.new result }
{
    let x = query(s, rows, scope, p, depth, left)?;
    picked(rows, label, x.root, x.left)
}

// The body for each tree of a forest.
#[cycle(queries)]
fn for_each(
    s: &Sheet,
    rows: &mut [u8],
    scope: Scope,
    p: usize,
    q: usize,
    depth: usize,
    left: Left,
) -> Result<Got, Stop>
    requires { Asks s.now rows.old scope left.used 0 left.purse.left (fits_row s.now depth scope (Query.for p q)) }
    ensures { Meets (row_asked s.now rows.old scope depth 0 (Query.for p q)) (pool s.now)
        left.purse.left left.used rows.old rows.new result }
{
    let x = query(s, rows, scope, p, depth, left)?;
    each(s, rows, scope, q, x.root, depth, x.left)
}

// A turn for each tree; then what the turns gave.
#[cycle(queries)]
fn each(
    s: &Sheet,
    rows: &mut [u8],
    scope: Scope,
    body: usize,
    over: usize,
    depth: usize,
    left: Left,
) -> Result<Got, Stop>
    requires { Asks s.now rows.old scope left.used over left.purse.left (fits_body s.now depth scope body) }
    ensures { Meets (each (body_asked s.now rows.old scope depth body)
        (forest_at (pool s.now) (lent_row rows.old) over)) (pool s.now) left.purse.left left.used
        rows.old rows.new result }
{
    let mut at = over;
    let mut links = Got { root: 0, left };
    while at != 0 {
        let next = forest_rows::row(rows, at).r;
        links = turn(s, rows, scope, body, at, links.root, depth, links.left)?;
        at = next;
    }
    let g = forest_rows::gather(rows, links.left.used, links.root);
    Ok(Got {
        root: g.root,
        left: Left {
            used: g.used,
            purse: links.left.purse,
        },
    })
}

// The body with one tree, alone, as a tree variable; its result as a link in front of the links before.
#[cycle(queries)]
fn turn(
    s: &Sheet,
    rows: &mut [u8],
    scope: Scope,
    body: usize,
    at: usize,
    link: usize,
    depth: usize,
    left: Left,
) -> Result<Got, Stop>
    requires { (Asks s.now rows.old scope left.used at left.purse.left (fits_body s.now depth scope body)) × (0 < at) × (link ≤ left.used)
        × (Links (forest_at (pool s.now) (lent_row rows.old) link)) }
    ensures { Turns (turn_of (body_asked s.now rows.old scope depth body)
        (alone (forest_at (pool s.now) (lent_row rows.old) at))
        (forest_at (pool s.now) (lent_row rows.old) link)) (pool s.now) left.purse.left left.used
        (left.used + left.purse.left + count (gathered (forest_at (pool s.now) (lent_row rows.old) link)))
        rows.old rows.new result }
{
    let purse = left.purse.take()?;
    let t = forest_rows::row(rows, at);
    let one = forest_rows::push(rows, left.used, usize::from(t.kind), t.p, t.q, 0);
    let x = query(
        s,
        rows,
        scope.with(2, one),
        body,
        depth,
        Left { used: one, purse },
    )?;
    keep(rows, x.root, link, x.left)
}
