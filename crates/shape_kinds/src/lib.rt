// What each word of a row is for, by the row's kind, and whether it is what that use asks: the rules under "Tables" that speak of one
// row.
#![tactic(auto, unfolding(meaning::specs::Sheet::script_of, meaning::specs::Sheet::grove_of, meaning::specs::Sheet::sheet_of))]

ghost use Rattle.std.specs.Prelude.{◌≡◌, ◌&&◌, IfSome, is_some};
ghost use Rattle.meaning.specs.Tests.{in_table};
ghost use Rattle.meaning.specs.Sheet.{script_of, grove_of, sheet_of};
ghost use Rattle.meaning.specs.Shape.{
  type_uses,
  query_uses,
  statement_uses,
  forest_uses,
  absent,
  is_label,
  is_part,
  is_link,
  is_size,
  word_ok,
  words_ok,
  types_ok,
  queries_ok,
  statements_ok,
  rows_ok,
};
ghost use Rattle.meaning.specs.Shape as meaning;
ghost use Rattle.sheet.specs.Laid.{cells_of};
ghost use Rattle.sheet.specs.Forms.{tree_said};
ghost use Rattle.shape_kinds.specs.Told.{use_of, uses_of, is_known, uses_in, row_ok, Says, Calls};

use sheet::forms::{Query, Statement, Test, Tree, Ty};
use sheet::{Row, Sheet};

// What a word of a row is for.
#[derive(Clone, Copy)]
pub enum Use {
    Unused,
    Free,
    Label,
    Part,
    Link,
    Query,
    Name,
    Procedure,
    Tester,
    Size(usize),
}

// The uses of a row's words.
#[derive(Clone, Copy)]
pub struct Uses {
    pub p: Use,
    pub q: Use,
    pub r: Use,
}

// What one of a table's kinds says.
fn known(p: Use, q: Use, r: Use) -> Option<Uses>
    ensures { result ≡ Some (record { p = p; q = q; r = r }) }
{
    Some(Uses { p, q, r })
}

fn no_uses() -> Option<Uses>
    ensures { result ≡ Some (record { p = Use.Unused; q = Use.Unused; r = Use.Unused }) }
{
    known(Use::Unused, Use::Unused, Use::Unused)
}

// Types: empty, text, bool, label, sequence, choice, star, name.
pub fn type_uses(c: Row) -> Option<Uses>
    ensures { Says 8 c.kind (type_uses (cells_of c)) result }
{
    match c.as_type() {
        Ty::Nothing => None,
        Ty::Empty | Ty::Text | Ty::Bool => no_uses(),
        Ty::Label(_, _) => known(Use::Label, Use::Part, Use::Unused),
        Ty::Sequence(_, _) | Ty::Choice(_, _) => known(Use::Part, Use::Part, Use::Unused),
        Ty::Star(_) => known(Use::Part, Use::Unused, Use::Unused),
        Ty::Name(_) => known(Use::Name, Use::Unused, Use::Unused),
    }
}

// Queries: empty, join, tree, text, true, false, variable, let, if, same, children, pick, for.
pub fn query_uses(c: Row) -> Option<Uses>
    ensures { Says 13 c.kind (query_uses (cells_of c)) result }
{
    match c.as_query() {
        Query::Nothing => None,
        Query::Empty | Query::Bool(_) => no_uses(),
        Query::Join(_, _) | Query::Let(_, _) | Query::Same(_, _) | Query::For(_, _) => known(
            Use::Part,
            Use::Part,
            Use::Unused,
        ),
        Query::Tree(_, _) => known(Use::Label, Use::Part, Use::Unused),
        Query::Text(offset, _) => known(Use::Free, Use::Size(offset), Use::Unused),
        Query::Variable(_) | Query::Children(_) => known(Use::Free, Use::Unused, Use::Unused),
        Query::If(_, _, _) => known(Use::Part, Use::Part, Use::Part),
        Query::Pick(_, _) => known(Use::Part, Use::Label, Use::Unused),
    }
}

// An argument is a query where the procedure has that parameter, and else absent.
fn argument(parameter: usize) -> Use
    ensures { use_of result ≡ meaning.argument parameter }
{
    if parameter == 0 {
        Use::Unused
    } else {
        Use::Query
    }
}

// A call, of the procedure `callee`.
fn call_uses(s: &Sheet, callee: usize) -> Option<Uses>
    ensures { Calls ((script_of s.now).procedure_row callee) result }
{
    let c = s.procedure_row(callee);
    known(Use::Procedure, argument(c.first), argument(c.second))
}

// Statements: skip, then, if, insert, delete, rename, let, snapshot, test, children, left, right, iter, call.
pub fn statement_uses(s: &Sheet, c: Row) -> Option<Uses>
    ensures { Says 14 c.kind (statement_uses (script_of s.now).procedure_row (cells_of c)) result }
{
    match c.as_statement() {
        Statement::Nothing => None,
        Statement::Skip | Statement::Delete => no_uses(),
        Statement::Then(_, _) => known(Use::Part, Use::Part, Use::Unused),
        Statement::If(_, _, _) => known(Use::Query, Use::Part, Use::Part),
        Statement::Insert(_) => known(Use::Query, Use::Unused, Use::Unused),
        Statement::Rename(_) => known(Use::Label, Use::Unused, Use::Unused),
        Statement::Let(_, _) => known(Use::Query, Use::Part, Use::Unused),
        Statement::Test(Test::Label(_), _) => known(Use::Tester, Use::Label, Use::Part),
        Statement::Test(Test::Text | Test::Any, _) => known(Use::Tester, Use::Unused, Use::Part),
        Statement::Snapshot(_)
        | Statement::Children(_)
        | Statement::Left(_)
        | Statement::Right(_)
        | Statement::Iter(_) => known(Use::Part, Use::Unused, Use::Unused),
        Statement::Call(callee, _, _) => call_uses(s, callee),
    }
}

// What a forest's row says. The kind is told by its number first: `as_tree` takes every kind that no forest has for a tree's, and the
// rule refuses such a kind.
fn tree_of(c: Row) -> Option<Tree>
    ensures is { IfSome result (λ t. t ≡ tree_said (cells_of c)) }
    ensures known { is_some result ≡ in_table 4 c.kind }
{
    matches!(c.kind, 1..=4).then(|| c.as_tree())
}

// Forests: text, false, true, label; the last word is next.
pub fn forest_uses(c: Row) -> Option<Uses>
    ensures { Says 4 c.kind (forest_uses (cells_of c)) result }
{
    match tree_of(c)? {
        Tree::Text(offset, _) => known(Use::Free, Use::Size(offset), Use::Link),
        Tree::Bool(_) => known(Use::Unused, Use::Unused, Use::Link),
        Tree::Node(_, _) => known(Use::Label, Use::Link, Use::Link),
    }
}

// One of the rows 1 to `n`.
pub fn in_table(n: usize, w: usize) -> bool
    ensures { result ≡ in_table n w }
{
    1 <= w && w <= n
}

// Offset plus length is at most the pool's bytes.
fn in_pool(pool: usize, offset: usize, w: usize) -> bool
    ensures { result ≡ is_size pool offset w }
{
    w <= pool && offset <= pool - w
}

// A lower row, not 0.
fn lower(row: usize, w: usize) -> bool
    ensures { result ≡ is_part row w }
{
    1 <= w && w < row
}

// A word is what its use says it must be. Of a variable the scope is the judge, of an offset its length.
#[tactic(auto, unfolding(meaning::specs::Shape::word_ok, meaning::specs::Sheet::sheet_of))]
fn word_ok(s: &Sheet, u: Use, row: usize, w: usize) -> bool
    ensures { result ≡ word_ok (sheet_of s.now) (use_of u) row w }
{
    match u {
        Use::Unused => w == 0,
        Use::Free => true,
        Use::Label => w <= 1023,
        Use::Part => lower(row, w),
        Use::Link => w < row,
        Use::Query => in_table(s.queries(), w),
        Use::Name => in_table(s.names(), w),
        Use::Procedure => in_table(s.procedures(), w),
        Use::Tester => in_table(3, w),
        Use::Size(offset) => in_pool(s.pool(), offset, w),
    }
}

fn words_ok(s: &Sheet, u: Uses, row: usize, c: Row) -> bool
    ensures { result ≡ words_ok (sheet_of s.now) (uses_of u) row (cells_of c) }
{
    word_ok(s, u.p, row, c.p) && word_ok(s, u.q, row, c.q) && word_ok(s, u.r, row, c.r)
}

fn row_ok(s: &Sheet, k: Option<Uses>, row: usize, c: Row) -> bool
    ensures { result ≡ is_known k && words_ok (sheet_of s.now) (uses_in k) row (cells_of c) }
{
    match k {
        Some(u) => words_ok(s, u, row, c),
        None => false,
    }
}

// One for each table that has kinds: they differ in the row that is read and in what its kinds use, and one function would be handed both.
fn type_ok(s: &Sheet, i: usize) -> bool
    ensures { result ≡ row_ok (sheet_of s.now) 8 type_uses i ((script_of s.now).type_row i) }
{
    let c = s.type_row(i);
    row_ok(s, type_uses(c), i, c)
}

fn query_ok(s: &Sheet, i: usize) -> bool
    ensures { result ≡ row_ok (sheet_of s.now) 13 query_uses i ((script_of s.now).query_row i) }
{
    let c = s.query_row(i);
    row_ok(s, query_uses(c), i, c)
}

fn statement_ok(s: &Sheet, i: usize) -> bool
    ensures { result ≡ row_ok (sheet_of s.now) 14 (statement_uses (script_of s.now).procedure_row) i
        ((script_of s.now).statement_row i) }
{
    let c = s.statement_row(i);
    row_ok(s, statement_uses(s, c), i, c)
}

// A false or a true has no word but next.
fn both_absent(p: usize, q: usize) -> bool
    ensures { result ≡ absent p && absent q }
{
    p == 0 && q == 0
}

// A labelled tree's child is a lower row.
fn label_and_link(row: usize, p: usize, q: usize) -> bool
    ensures { result ≡ is_label p && is_link row q }
{
    p <= 1023 && q < row
}

// A forest row, of which a sheet has the most: as `row_ok` of its uses, by its kind at once.
#[tactic(auto, unfolding(meaning::specs::Shape::word_ok, meaning::specs::Sheet::sheet_of))]
fn forest_ok(s: &Sheet, i: usize) -> bool
    ensures { result ≡ row_ok (sheet_of s.now) 4 forest_uses i ((grove_of s.now).row i) }
{
    let c = s.forest_row(i);
    if i <= c.r {
        return false;
    }
    match tree_of(c) {
        None => false,
        Some(Tree::Text(offset, size)) => in_pool(s.pool(), offset, size),
        Some(Tree::Bool(_)) => both_absent(c.p, c.q),
        Some(Tree::Node(label, child)) => label_and_link(i, label, child),
    }
}

// The rules of each table: every row's kind is one of the table's, and its words are as they must be. Not `1..=n`, here and where one row
// after another is judged: that tests at each turn whether it is spent.
pub fn types_ok(s: &Sheet) -> bool
    ensures { result ≡ types_ok (sheet_of s.now) }
{
    (1..s.types() + 1).all(|i| type_ok(s, i))
}

pub fn queries_ok(s: &Sheet) -> bool
    ensures { result ≡ queries_ok (sheet_of s.now) }
{
    (1..s.queries() + 1).all(|i| query_ok(s, i))
}

pub fn statements_ok(s: &Sheet) -> bool
    ensures { result ≡ statements_ok (sheet_of s.now) }
{
    (1..s.statements() + 1).all(|i| statement_ok(s, i))
}

pub fn rows_ok(s: &Sheet) -> bool
    ensures { result ≡ rows_ok (sheet_of s.now) }
{
    (1..s.rows() + 1).all(|i| forest_ok(s, i))
}
