// How a check types queries (figure 13): a cycle of evaluators in which the remaining depth falls and, where a type is worked through
// part by part, its row. Types are rows of the sheet or of those lent; each unit buys at most one row.
// The evaluators of the run (`run_query`) stay beside these: two or three lines of `?` each, and a trait over both walks would carry the
// laws of both meanings.
#![tactic(auto)]

ghost use Rattle.std.specs.Prelude.{◌+◌, ◌<◌, ◌≤◌};
ghost use Rattle.meaning.specs.Sheet.{script_of};
ghost use Rattle.meaning.specs.Kinds.{Query};
ghost use Rattle.meaning.specs.Types.{names_in, atom_of};
ghost use Rattle.meaning.specs.Reply.{done, Loads};
ghost use Rattle.meaning.specs.Walk.{of_query};
ghost use Rattle.meaning.specs.Check.{inside_type, is_in, eight, parts as through};
ghost use Rattle.walk.specs.Concern.{concern_of};
ghost use Rattle.walk.specs.Scope.{More};
ghost use Rattle.walk.specs.Fits.{fits, fits_row, fits_body};
ghost use Rattle.type_rows.specs.Grown.{ty_in};
ghost use Rattle.type_rows.specs.Finds.{top, Room, Finds};
ghost use Rattle.within.specs.Answers.{plain_ty};
ghost use Rattle.check_query.specs.Questions.{Passes};
ghost use Rattle.check_query.specs.Infer.{Asks, asked, row_asked, body_asked, either_asked, texts_asked};

use sheet::{Sheet, forms};
use type_rows::parts::Part;
use type_rows::{Atom, Halt, write};
use walk::{Concern, Got, Left, Scope};
use within::{PlainType, Wide};

// A rule's question, at its row: is the type at row `found` in (), text or bool. Wide first, then Mismatch.
pub fn must_be(
    s: &Sheet,
    work: &[u8],
    found: usize,
    wanted: PlainType,
    at: Concern,
    left: Left,
) -> Result<(), Halt>
    requires { (Loads s.now done) × (Room s.now work.now left.used left.purse.left) × (found ≤ top s.now + left.used) }
    ensures { Passes s.now (is_in (ty_in s.now work.now left.used found) (plain_ty wanted) eight (concern_of at)) left.purse.left
        result }
{
    match within::plain(s, work, left.used, found, wanted) {
        Ok(true) => Ok(()),
        Ok(false) => Err(Halt::Mismatch(at, left.purse)),
        Err(Wide) => Err(Halt::Wide(at, left.purse)),
    }
}

// Both types are texts, asked in order.
fn two_texts(
    s: &Sheet,
    work: &mut [u8],
    at: usize,
    x: usize,
    y: usize,
    left: Left,
) -> Result<Got, Halt>
    requires { (Loads s.now done) × (Room s.now work.old left.used left.purse.left) × (x ≤ top s.now + left.used)
        × (y ≤ top s.now + left.used) }
    ensures { Finds (texts_asked s.now work.old left.used at x y) s.now left.purse.left left.used
        work.old work.new result }
{
    must_be(s, work, x, PlainType::Text, Concern::Query(at), left)?;
    must_be(s, work, y, PlainType::Text, Concern::Query(at), left)?;
    write(s, work, 3, 0, 0, left)
}

// What is inside a variable's atom: a label's content; nothing in a text or bool, and that is written. A tree variable has an atom.
fn inside(s: &Sheet, work: &mut [u8], at: usize, root: usize, left: Left) -> Result<Got, Halt>
    requires { (Loads s.now done) × (Room s.now work.old left.used left.purse.left) × (root ≤ top s.now + left.used) }
    ensures { Finds (inside_type (of_query at)
        (atom_of (names_in (script_of s.now)) (ty_in s.now work.old left.used root))) s.now
        left.purse.left left.used work.old work.new result }
{
    match type_rows::atom_of(s, work, root) {
        Atom::Label(_, content) => Ok(Got {
            root: content,
            left,
        }),
        Atom::Other => Err(Halt::Mismatch(Concern::Query(at), left.purse)),
        Atom::Text => write(s, work, 1, 0, 0, left),
        Atom::Bool => write(s, work, 1, 0, 0, left),
    }
}

// Query row `at`.
#[cycle(queries)]
pub fn query(
    s: &Sheet,
    work: &mut [u8],
    scope: Scope,
    at: usize,
    depth: usize,
    left: Left,
) -> Result<Got, Halt>
    requires { Asks s.now work.old scope left.used left.purse.left (fits s.now depth scope at) }
    ensures { Finds (asked s.now work.old left.used scope depth at) s.now left.purse.left left.used
        work.old work.new result }
{
    if depth == 0 {
        return Err(Halt::Depth(left.purse));
    }
    let below = depth - 1;
    let purse = left.purse.take()?;
    let left = Left { purse, ..left };
    match s.query_row(at).as_query() {
        forms::Query::Empty => write(s, work, 1, 0, 0, left),
        forms::Query::Join(p, q) => join(s, work, scope, p, q, below, left),
        forms::Query::Tree(label, q) => tree(s, work, scope, label, q, below, left),
        forms::Query::Text(_, _) => write(s, work, 2, 0, 0, left),
        forms::Query::Bool(_) => write(s, work, 3, 0, 0, left),
        forms::Query::Variable(v) => Ok(Got {
            root: scope.value(v),
            left,
        }),
        forms::Query::Let(p, q) => let_in(s, work, scope, p, q, below, left),
        forms::Query::If(p, q, r) => choose(s, work, scope, at, p, q, r, below, left),
        forms::Query::Same(p, q) => same(s, work, scope, at, p, q, below, left),
        forms::Query::Children(v) => inside(s, work, at, scope.value(v), left),
        forms::Query::Pick(p, label) => pick(s, work, scope, p, label, below, left),
        forms::Query::For(p, q) => for_each(s, work, scope, p, q, below, left),
        forms::Query::Nothing => Err(Halt::Mismatch(Concern::Query(at), left.purse)),
    }
}

// One type, then another.
#[cycle(queries)]
fn join(
    s: &Sheet,
    work: &mut [u8],
    scope: Scope,
    p: usize,
    q: usize,
    depth: usize,
    left: Left,
) -> Result<Got, Halt>
    requires { Asks s.now work.old scope left.used left.purse.left (fits_row s.now depth scope (Query.join p q)) }
    ensures { Finds (row_asked s.now work.old left.used scope depth 0 (Query.join p q)) s.now
        left.purse.left left.used work.old work.new result }
{
    let x = query(s, work, scope, p, depth, left)?;
    let y = query(s, work, scope, q, depth, x.left)?;
    write(s, work, 5, x.root, y.root, y.left)
}

// A labelled type.
#[cycle(queries)]
fn tree(
    s: &Sheet,
    work: &mut [u8],
    scope: Scope,
    label: usize,
    q: usize,
    depth: usize,
    left: Left,
) -> Result<Got, Halt>
    requires { (Asks s.now work.old scope left.used left.purse.left (fits_row s.now depth scope (Query.tree label q)))
        × (label < 65536) }
    ensures { Finds (row_asked s.now work.old left.used scope depth 0 (Query.tree label q)) s.now
        left.purse.left left.used work.old work.new result }
{
    let x = query(s, work, scope, q, depth, left)?;
    write(s, work, 4, label, x.root, x.left)
}

// A query with a forest variable more.
#[cycle(queries)]
fn let_in(
    s: &Sheet,
    work: &mut [u8],
    scope: Scope,
    p: usize,
    q: usize,
    depth: usize,
    left: Left,
) -> Result<Got, Halt>
    requires { Asks s.now work.old scope left.used left.purse.left (fits_row s.now depth scope (Query.letin p q)) }
    ensures { Finds (row_asked s.now work.old left.used scope depth 0 (Query.letin p q)) s.now
        left.purse.left left.used work.old work.new result }
{
    let x = query(s, work, scope, p, depth, left)?;
    query(s, work, scope.with(1, x.root), q, depth, x.left)
}

// A condition is a bool, else Mismatch at the if; then both queries.
#[cycle(queries)]
fn choose(
    s: &Sheet,
    work: &mut [u8],
    scope: Scope,
    at: usize,
    p: usize,
    q: usize,
    r: usize,
    depth: usize,
    left: Left,
) -> Result<Got, Halt>
    requires { Asks s.now work.old scope left.used left.purse.left (fits_row s.now depth scope (Query.if p q r)) }
    ensures { Finds (row_asked s.now work.old left.used scope depth at (Query.if p q r)) s.now
        left.purse.left left.used work.old work.new result }
{
    let x = query(s, work, scope, p, depth, left)?;
    must_be(s, work, x.root, PlainType::Bool, Concern::Query(at), x.left)?;
    either(s, work, scope, q, r, depth, x.left)
}

// The choice of two types.
#[cycle(queries)]
fn either(
    s: &Sheet,
    work: &mut [u8],
    scope: Scope,
    q: usize,
    r: usize,
    depth: usize,
    left: Left,
) -> Result<Got, Halt>
    requires { Asks s.now work.old scope left.used left.purse.left (fits_row s.now depth scope (Query.join q r)) }
    ensures { Finds (either_asked s.now work.old left.used scope depth q r) s.now left.purse.left left.used
        work.old work.new result }
{
    let x = query(s, work, scope, q, depth, left)?;
    let y = query(s, work, scope, r, depth, x.left)?;
    write(s, work, 6, x.root, y.root, y.left)
}

// Two texts, compared.
#[cycle(queries)]
fn same(
    s: &Sheet,
    work: &mut [u8],
    scope: Scope,
    at: usize,
    p: usize,
    q: usize,
    depth: usize,
    left: Left,
) -> Result<Got, Halt>
    requires { Asks s.now work.old scope left.used left.purse.left (fits_row s.now depth scope (Query.same p q)) }
    ensures { Finds (row_asked s.now work.old left.used scope depth at (Query.same p q)) s.now
        left.purse.left left.used work.old work.new result }
{
    let x = query(s, work, scope, p, depth, left)?;
    let y = query(s, work, scope, q, depth, x.left)?;
    two_texts(s, work, at, x.root, y.root, y.left)
}

// The atoms with a label.
#[cycle(queries)]
fn pick(
    s: &Sheet,
    work: &mut [u8],
    scope: Scope,
    p: usize,
    label: usize,
    depth: usize,
    left: Left,
) -> Result<Got, Halt>
    requires { Asks s.now work.old scope left.used left.purse.left (fits_row s.now depth scope (Query.pick p label)) }
    ensures { Finds (row_asked s.now work.old left.used scope depth 0 (Query.pick p label)) s.now
        left.purse.left left.used work.old work.new result }
{
    let x = query(s, work, scope, p, depth, left)?;
    type_rows::parts::picked(s, work, label, x.root, x.left)
}

// The body at each atom of a type.
#[cycle(queries)]
fn for_each(
    s: &Sheet,
    work: &mut [u8],
    scope: Scope,
    p: usize,
    q: usize,
    depth: usize,
    left: Left,
) -> Result<Got, Halt>
    requires { Asks s.now work.old scope left.used left.purse.left (fits_row s.now depth scope (Query.for p q)) }
    ensures { Finds (row_asked s.now work.old left.used scope depth 0 (Query.for p q)) s.now
        left.purse.left left.used work.old work.new result }
{
    let x = query(s, work, scope, p, depth, left)?;
    parts(s, work, scope, q, x.root, depth, x.left)
}

// A scope with a tree variable more. Not inlined: its copies would lie in the frame of each type row that `parts` visits (docs/STACK.md).
#[inline(never)]
fn with_tree(scope: Scope, of: usize) -> Scope
    requires { (scope.count < 16) × (of < 65536) }
    ensures { More scope result 2 of }
{
    scope.with(2, of)
}

// A type part by part: the body with each atom as a tree variable. A type row visited is a frame, and thousands may be visited at
// once.
#[cycle(queries)]
fn parts(
    s: &Sheet,
    work: &mut [u8],
    scope: Scope,
    body: usize,
    of: usize,
    depth: usize,
    left: Left,
) -> Result<Got, Halt>
    requires { (Asks s.now work.old scope left.used left.purse.left (fits_body s.now depth scope body)) × (of ≤ top s.now + left.used) }
    ensures { Finds (through (body_asked s.now work.old left.used scope depth body)
        (ty_in s.now work.old left.used of)) s.now left.purse.left left.used work.old work.new
        result }
{
    let purse = left.purse.take()?;
    let left = Left { purse, ..left };
    match type_rows::parts::part_of(s, work, of) {
        Part::Nothing => Ok(Got { root: 0, left }),
        Part::Atom => query(s, work, with_tree(scope, of), body, depth, left),
        Part::Star(p) => {
            let x = parts(s, work, scope, body, p, depth, left)?;
            write(s, work, 7, x.root, 0, x.left)
        }
        Part::Pair(kind, p, q) => {
            let x = parts(s, work, scope, body, p, depth, left)?;
            let y = parts(s, work, scope, body, q, depth, x.left)?;
            write(s, work, kind, x.root, y.root, y.left)
        }
    }
}
