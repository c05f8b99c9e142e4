// Scope: each row is handed its scope by its one user, which stands above it, so one pass from the top down judges a table.
// The scope of a row is one word: how many places in its low five bits, and above them a bit for each place, 1 where it holds a tree.
#![tactic(auto)]

pub mod word;

ghost use Rattle.std.specs.Prelude.{◌≡◌, true, replicate};
ghost use Rattle.meaning.specs.Sheet.{script_of};
ghost use Rattle.meaning.specs.Kinds.{present};
ghost use Rattle.meaning.specs.Shape.{parameters_scope, scope_ok};
ghost use Rattle.sheet.specs.Forms.{query_said, statement_said};
ghost use Rattle.shape_scope.specs.Scopes.{
  Before,
  scope_of,
  seen,
  argument_hands,
  Handed,
  QueryDone,
  StatementDone,
  Rooted,
  Queries,
  Judged,
};

use crate::word::{Place, ScopeWord, Scopes};
use sheet::Sheet;
use sheet::forms::{Query, Statement};

// A query under its scope: its own rule, and the scopes of its parts.
#[tactic(auto, using(crate::specs::Hands::handed_none, crate::specs::Hands::handed_more))]
fn query_in_scope(c: Query, x: ScopeWord, scopes: &mut Scopes) -> bool
    ensures { QueryDone (query_said c) (scope_of x.word) scopes.old scopes.new result }
{
    match c {
        Query::Nothing | Query::Empty | Query::Text(_, _) | Query::Bool(_) => true,
        Query::Join(p, q) | Query::Same(p, q) => {
            scopes.hand_two(p, x, q, x);
            true
        }
        Query::Tree(_, p) | Query::Pick(p, _) => {
            scopes.hand(p, x);
            true
        }
        Query::Variable(v) => word::sees(x.word, v),
        Query::Let(p, q) => scopes.bind_value(p, q, x, Place::Forest),
        Query::If(p, q, r) => {
            scopes.hand(p, x);
            scopes.hand_two(q, x, r, x);
            true
        }
        Query::Children(v) => word::sees_tree(x.word, v),
        Query::For(p, q) => scopes.bind_value(p, q, x, Place::Tree),
    }
}

// The arguments of a call, queries: one that is absent is 0, and the second is there only if the first is.
#[tactic(auto, using(crate::specs::Hands::arguments_none, crate::specs::Hands::arguments_there))]
fn hand_arguments(asked: &mut Scopes, first: usize, second: usize, x: ScopeWord)
    ensures { Handed asked.old asked.new (argument_hands (present first second) (scope_of x.word)) }
{
    if first != 0 {
        asked.hand_two(first, x, second, x);
    }
}

// A statement under its scope; its queries get theirs from it.
#[tactic(auto, using(crate::specs::Hands::handed_none, crate::specs::Hands::handed_more))]
fn statement_in_scope(c: Statement, x: ScopeWord, scopes: &mut Scopes, asked: &mut Scopes) -> bool
    ensures { StatementDone (statement_said c) (scope_of x.word) scopes.old scopes.new asked.old asked.new result }
{
    match c {
        Statement::Nothing | Statement::Skip | Statement::Delete | Statement::Rename(_) => true,
        Statement::Then(p, q) => {
            scopes.hand_two(p, x, q, x);
            true
        }
        Statement::If(p, q, r) => {
            asked.hand(p, x);
            scopes.hand_two(q, x, r, x);
            true
        }
        Statement::Insert(p) => {
            asked.hand(p, x);
            true
        }
        Statement::Let(p, q) => {
            asked.hand(p, x);
            scopes.bind(q, x, Place::Forest)
        }
        Statement::Snapshot(p) => scopes.bind(p, x, Place::Forest),
        Statement::Test(_, p)
        | Statement::Children(p)
        | Statement::Left(p)
        | Statement::Right(p)
        | Statement::Iter(p) => {
            scopes.hand(p, x);
            true
        }
        Statement::Call(_, first, second) => {
            hand_arguments(asked, first, second, x);
            true
        }
    }
}

// The scope of a body: its parameters, which are forests.
fn parameters(first: usize, second: usize) -> ScopeWord
    ensures { scope_of result.word ≡ parameters_scope (present first second) }
{
    ScopeWord {
        word: match (first, second) {
            (0, _) => 0,
            (_, 0) => 1,
            _ => 2,
        },
    }
}

// What Shape has settled before (`Before`) stands as a clause of each function below: they hand it on as it is, and a type that carries
// it would be longer than the four clauses.

// Main has no variables; a body sees its parameters only.
fn hand_bodies(s: &Sheet, scopes: &mut Scopes)
    requires before { Before s.now }
    requires fresh { scopes.old ≡ replicate 513 0 }
    ensures { Rooted (script_of s.now) (seen scopes.new) }
{
    for c in 1..=s.procedures() {
        let row = s.procedure_row(c);
        scopes.hand(row.body, parameters(row.first, row.second));
    }
}

// Each statement from the top down, under the scope that it was handed.
fn statements_scoped(s: &Sheet, scopes: &mut Scopes, asked: &mut Scopes) -> bool
    requires before { Before s.now }
    requires rooted { Rooted (script_of s.now) (seen scopes.old) }
    ensures { Judged (script_of s.now) asked.new result }
{
    for i in (1..=s.statements()).rev() {
        if !statement_in_scope(
            s.statement_row(i).as_statement(),
            scopes.row(i),
            scopes,
            asked,
        ) {
            return false;
        }
    }
    true
}

// Each query from the top down, once the statements have handed theirs down.
fn queries_scoped(s: &Sheet, scopes: &mut Scopes) -> bool
    requires before { Before s.now }
    requires asked { Queries (script_of s.now) (script_of s.now).queries (seen scopes.old) }
    ensures { result ≡ scope_ok (script_of s.now) }
{
    for i in (1..=s.queries()).rev() {
        if !query_in_scope(s.query_row(i).as_query(), scopes.row(i), scopes) {
            return false;
        }
    }
    true
}

// Whether every variable is in scope, and every binder finds a place.
pub fn scope_ok(s: &Sheet) -> bool
    requires before { Before s.now }
    ensures { result ≡ scope_ok (script_of s.now) }
{
    let mut scopes = Scopes::new();
    let mut asked = Scopes::new();
    hand_bodies(s, &mut scopes);
    statements_scoped(s, &mut scopes, &mut asked) && queries_scoped(s, &mut asked)
}
