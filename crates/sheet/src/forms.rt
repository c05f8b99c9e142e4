// What one row says, as document 01 writes it under "Tables": the kinds by name, with the words that each has. A kind past the last
// says nothing; Shape refuses it.
ghost use Rattle.std.specs.Prelude.{◌≡◌};
ghost use Rattle.meaning.specs.Kinds.{type_form, test_form, query_form, statement_form};
ghost use Rattle.sheet.specs.Laid.{Words, cells_of};
ghost use Rattle.sheet.specs.Forms.{type_said, test_said, query_said, statement_said, tree_said, QueryWords, StatementWords, CallSaid};

use crate::Row;

#[derive(Clone, Copy)]
pub enum Ty {
    Nothing,
    Empty,
    Text,
    Bool,
    Label(usize, usize),
    Sequence(usize, usize),
    Choice(usize, usize),
    Star(usize),
    Name(usize),
}

#[derive(Clone, Copy)]
pub enum Query {
    Nothing,
    Empty,
    Join(usize, usize),
    Tree(usize, usize),
    Text(usize, usize),
    Bool(bool),
    Variable(usize),
    Let(usize, usize),
    If(usize, usize, usize),
    Same(usize, usize),
    Children(usize),
    Pick(usize, usize),
    For(usize, usize),
}

// What a test looks for.
#[derive(Clone, Copy)]
pub enum Test {
    Text,
    Label(usize),
    Any,
}

// A call carries its procedure and its two arguments, 0 where one is absent, as document 01 writes it and `CallSaid` promises.
#[derive(Clone, Copy)]
pub enum Statement {
    Nothing,
    Skip,
    Then(usize, usize),
    If(usize, usize, usize),
    Insert(usize),
    Delete,
    Rename(usize),
    Let(usize, usize),
    Snapshot(usize),
    Test(Test, usize),
    Children(usize),
    Left(usize),
    Right(usize),
    Iter(usize),
    Call(usize, usize, usize),
}

// A row of a forest: a text by its place and length, a bool, or a tree by its label and the row of its first child.
#[derive(Clone, Copy)]
pub enum Tree {
    Text(usize, usize),
    Bool(bool),
    Node(usize, usize),
}

impl Row {
    pub fn as_type(self) -> Ty
        ensures { type_said result ≡ type_form (cells_of self) }
    {
        match self.kind {
            1 => Ty::Empty,
            2 => Ty::Text,
            3 => Ty::Bool,
            4 => Ty::Label(self.p, self.q),
            5 => Ty::Sequence(self.p, self.q),
            6 => Ty::Choice(self.p, self.q),
            7 => Ty::Star(self.p),
            8 => Ty::Name(self.p),
            0 | 9..=65535 => Ty::Nothing,
        }
    }

    pub fn as_query(self) -> Query
        ensures is { query_said result ≡ query_form (cells_of self) }
        ensures small { Words (cells_of self) → QueryWords result }
    {
        match self.kind {
            1 => Query::Empty,
            2 => Query::Join(self.p, self.q),
            3 => Query::Tree(self.p, self.q),
            4 => Query::Text(self.p, self.q),
            5 => Query::Bool(true),
            6 => Query::Bool(false),
            7 => Query::Variable(self.p),
            8 => Query::Let(self.p, self.q),
            9 => Query::If(self.p, self.q, self.r),
            10 => Query::Same(self.p, self.q),
            11 => Query::Children(self.p),
            12 => Query::Pick(self.p, self.q),
            13 => Query::For(self.p, self.q),
            0 | 14..=65535 => Query::Nothing,
        }
    }

    // The test of such a statement: 1 text, 2 a label, 3 any tree.
    fn as_test(self) -> Test
        ensures { test_said result ≡ test_form self.p self.q }
    {
        match self.p {
            1 => Test::Text,
            2 => Test::Label(self.q),
            _ => Test::Any,
        }
    }

    pub fn as_statement(self) -> Statement
        ensures is { statement_said result ≡ statement_form (cells_of self) }
        ensures small { Words (cells_of self) → StatementWords result }
        ensures call { CallSaid (cells_of self) result }
    {
        match self.kind {
            1 => Statement::Skip,
            2 => Statement::Then(self.p, self.q),
            3 => Statement::If(self.p, self.q, self.r),
            4 => Statement::Insert(self.p),
            5 => Statement::Delete,
            6 => Statement::Rename(self.p),
            7 => Statement::Let(self.p, self.q),
            8 => Statement::Snapshot(self.p),
            9 => Statement::Test(self.as_test(), self.r),
            10 => Statement::Children(self.p),
            11 => Statement::Left(self.p),
            12 => Statement::Right(self.p),
            13 => Statement::Iter(self.p),
            14 => Statement::Call(self.p, self.q, self.r),
            0 | 15..=65535 => Statement::Nothing,
        }
    }

    pub fn as_tree(self) -> Tree
        ensures { result ≡ tree_said (cells_of self) }
    {
        match self.kind {
            1 => Tree::Text(self.p, self.q),
            2 => Tree::Bool(false),
            3 => Tree::Bool(true),
            0 | 4..=65535 => Tree::Node(self.p, self.q),
        }
    }
}
