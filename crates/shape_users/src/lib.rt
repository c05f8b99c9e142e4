// Exactly one user: the references to each row are counted in one pass, up to 2.
#![tactic(auto, unfolding(meaning::specs::Sheet::script_of, meaning::specs::Sheet::grove_of, meaning::specs::Sheet::sheet_of))]

pub mod tally;

ghost use Rattle.std.specs.Prelude.{◌≡◌, true, ◌≤◌, eqb};
ghost use Rattle.meaning.specs.Tests.{every, total};
ghost use Rattle.meaning.specs.Sheet.{script_of, grove_of, sheet_of};
ghost use Rattle.meaning.specs.Shape.{
  hits,
  statement_uses,
  type_users,
  query_users,
  statement_users,
  row_users,
  limits_ok,
  users_ok,
};
ghost use Rattle.shape_users.specs.Tally.{Added, counted};

use crate::tally::{Counted, Tally, all_one};
use sheet::Sheet;

// What a statement refers to: statements, or the queries that it asks. (Within the closures below its proof did not close.) Inlined, with
// what it calls of the tally: so which words count is settled once for each pass, and not for each word.
#[inline(always)]
fn refer_statement(s: &Sheet, which: Counted, i: usize, tally: &mut Tally)
    ensures { Added tally.old.counts tally.new.counts
        (λ r. hits (counted which) r (statement_uses (script_of s.now).procedure_row ((script_of s.now).statement_row i))
        ((script_of s.now).statement_row i)) }
{
    let c = s.statement_row(i);
    tally.refer_row(which, shape_kinds::statement_uses(s, c), c);
}

// The four below stay four: they differ in which passes they make and in which words of the header they add, so one function over the
// table would be a `match` round the same four lists.
fn types_once(s: &Sheet) -> bool
    requires { (script_of s.now).types ≤ 2048 }
    ensures { result ≡ every (λ i. eqb (type_users (sheet_of s.now) i) 1) (script_of s.now).types }
{
    let mut tally = Tally::new();
    tally.each(s.types(), |t, i| {
        let c = s.type_row(i);
        t.refer_row(Counted::Own, shape_kinds::type_uses(c), c);
    });
    tally.each(s.names(), |t, i| t.refer(Some(s.name_row(i))));
    tally.each(s.procedures(), |t, i| t.refer_procedure(s.procedure_row(i)));
    tally.refer(Some(s.a()));
    tally.refer(Some(s.b()));
    all_one(&tally.counts, s.types())
}

fn queries_once(s: &Sheet) -> bool
    requires { (script_of s.now).queries ≤ 2048 }
    ensures { result ≡ every (λ i. eqb (query_users (sheet_of s.now) i) 1) (script_of s.now).queries }
{
    let mut tally = Tally::new();
    tally.each(s.queries(), |t, i| {
        let c = s.query_row(i);
        t.refer_row(Counted::Own, shape_kinds::query_uses(c), c);
    });
    tally.each(
        s.statements(),
        |t, i| refer_statement(s, Counted::Queries, i, t),
    );
    all_one(&tally.counts, s.queries())
}

fn statements_once(s: &Sheet) -> bool
    requires { (script_of s.now).statements ≤ 2048 }
    ensures { result ≡ every (λ i. eqb (statement_users (sheet_of s.now) i) 1) (script_of s.now).statements }
{
    let mut tally = Tally::new();
    tally.each(
        s.statements(),
        |t, i| refer_statement(s, Counted::Own, i, t),
    );
    tally.each(
        s.procedures(),
        |t, i| t.refer(Some(s.procedure_row(i).body)),
    );
    tally.refer(Some(s.main()));
    all_one(&tally.counts, s.statements())
}

fn rows_once(s: &Sheet) -> bool
    requires { (grove_of s.now).rows ≤ 2048 }
    ensures { result ≡ every (λ i. eqb (row_users (sheet_of s.now) i) 1) (grove_of s.now).rows }
{
    let mut tally = Tally::new();
    tally.each(s.rows(), |t, i| {
        let c = s.forest_row(i);
        t.refer_row(Counted::Own, shape_kinds::forest_uses(c), c);
    });
    tally.refer(Some(s.root()));
    all_one(&tally.counts, s.rows())
}

// Every type, query, statement and forest row has exactly one user. Within the limits every row has its place in the tally.
#[tactic(auto, unfolding(meaning::specs::Shape::users_ok, meaning::specs::Sheet::sheet_of))]
pub fn users_ok(s: &Sheet) -> bool
    requires { limits_ok (sheet_of s.now) ≡ true }
    ensures { result ≡ users_ok (sheet_of s.now) }
{
    types_once(s) && queries_once(s) && statements_once(s) && rows_once(s)
}
