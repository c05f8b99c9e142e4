// A lent sheet: its header, where each table begins, and one row of each table as a small struct. What is no row of its table reads as
// zeros, so nobody above asks about bounds.
// A sheet is made once, of bytes that are whole, so no word of a row is tested for the end of the bytes.
#![tactic(auto, unfolding(meaning::specs::Sheet::script_of, meaning::specs::Sheet::grove_of, meaning::specs::Sheet::sheet_of))]

pub mod forms;

ghost use Rattle.std.specs.Prelude.{◌≡◌, true, false, ℕ, ◌+◌, ◌*◌, ◌-◌, ◌<◌, ◌≤◌, IfSome, IsNone, take, drop, length};
ghost use Rattle.meaning.specs.Tests.{in_table};
ghost use Rattle.meaning.specs.Sheet.{
  need,
  types_in_header,
  pool_at,
  rows_at,
  script_of,
  grove_of,
  sheet_of,
  row4,
};
ghost use Rattle.sheet.specs.Laid.{Laid, Words, cells_of, procedure_of};
ghost use Rattle.sheet.specs.Whole.{Whole, Lies};
ghost use Rattle.sheet.specs.Table.{rows_in, types_in};

use std::marker::Model;
use words::{word_at, word_in};

// One row of types, queries, statements or forests: its kind and its words. Types have no `r`; in a forest row it is the next tree.
// A kind is a word, so `as u16` loses nothing; `try_from` would have an error that cannot be.
#[derive(Clone, Copy, Default)]
pub struct Row {
    pub kind: u16,
    pub p: usize,
    pub q: usize,
    pub r: usize,
}

#[derive(Clone, Copy, Default)]
pub struct Procedure {
    pub first: usize,
    pub second: usize,
    pub input: usize,
    pub output: usize,
    pub body: usize,
}

// The header's words, and the word at which each table begins. Names begin at word 13.
#[derive(Clone, Copy)]
struct Layout {
    names: usize,
    types: usize,
    queries: usize,
    statements: usize,
    procedures: usize,
    rows: usize,
    pool: usize,
    a: usize,
    b: usize,
    main: usize,
    root: usize,
    check_fuel: usize,
    run_fuel: usize,
    types_at: usize,
    queries_at: usize,
    statements_at: usize,
    procedures_at: usize,
    rows_at: usize,
    pool_at: usize,
}

// The byte at which the pool begins, and the bytes that the counts ask for, of any bytes: what lies past their end reads as 0.
pub fn pool_from(s: &[u8]) -> usize
    ensures is { result ≡ 2 * pool_at s.now }
    ensures small { result < 3145728 }
{
    let procedures_at = 13
        + word_at(s, 0)
        + 3 * word_at(s, 1)
        + 4 * word_at(s, 2)
        + 4 * word_at(s, 3);
    2 * (procedures_at + 5 * word_at(s, 4) + 4 * word_at(s, 5))
}

pub fn need_of(s: &[u8]) -> usize
    ensures is { result ≡ need s.now }
    ensures small { result < 4194304 }
{
    pool_from(s) + word_at(s, 6)
}

// How many type rows the header says there are, in any bytes.
pub fn types_told(s: &[u8]) -> usize
    ensures is { result ≡ types_in_header s.now }
    ensures small { result < 65536 }
{
    word_at(s, 1)
}

fn lay_out(s: &[u8]) -> Layout
    requires { Whole s.now }
    ensures { Laid s.now result }
{
    let names = word_in(s, 0);
    let types = word_in(s, 1);
    let queries = word_in(s, 2);
    let statements = word_in(s, 3);
    let procedures = word_in(s, 4);
    let rows = word_in(s, 5);
    let types_at = 13 + names;
    let queries_at = types_at + 3 * types;
    let statements_at = queries_at + 4 * queries;
    let procedures_at = statements_at + 4 * statements;
    let rows_at = procedures_at + 5 * procedures;
    Layout {
        names,
        types,
        queries,
        statements,
        procedures,
        rows,
        pool: word_in(s, 6),
        a: word_in(s, 7),
        b: word_in(s, 8),
        main: word_in(s, 9),
        root: word_in(s, 10),
        check_fuel: word_in(s, 11),
        run_fuel: word_in(s, 12),
        types_at,
        queries_at,
        statements_at,
        procedures_at,
        rows_at,
        pool_at: rows_at + 4 * rows,
    }
}

// The word at which row `r`, of a table of `n` rows of `width` words from word `at` on, begins; none where there is no such row.
fn begin(at: usize, width: usize, n: usize, r: usize) -> Option<usize>
    requires { (at < 4194304) × (width ≤ 5) × (n < 65536) }
    ensures there { IfSome result (λ i. (in_table n r ≡ true) × (i ≡ at + width * (r - 1)) × (i + width ≤ at + width * n)) }
    ensures none { IsNone result → in_table n r ≡ false }
{
    if r == 0 || n < r {
        return None;
    }
    Some(at + width * (r - 1))
}

// Rows of types as they lie in bytes: a sheet's own, or a type written out.
#[derive(Drop)]
pub struct TypeTable<'a> {
    bytes: &'a [u8],
    at: usize,
    rows: usize,
}

impl<'a> Model for TypeTable<'a> {
    ghost use Rattle.sheet.specs.Table.{Table};
    ghost use Rattle.sheet.specs.Whole.{Lies};

    ghost Value = { Table };

    ghost view = { λ t. record { bytes = t.bytes.now; at = t.at; rows = t.rows } };

    ghost invariant = { λ t. Lies t.bytes.now t.at 3 t.rows };
}

impl<'a> TypeTable<'a> {
    // `rows` rows from word `at` on.
    pub fn of(bytes: &'a [u8], at: usize, rows: usize) -> TypeTable<'a>
        requires { Lies bytes.now at 3 rows }
        ensures { result ≡ record { bytes = bytes.now; at = at; rows = rows } }
    {
        TypeTable { bytes, at, rows }
    }

    pub fn rows(&self) -> usize
        ensures is { result ≡ self.now.rows }
        ensures small { result < 65536 }
    {
        self.rows
    }

    pub fn row(&self, r: usize) -> Row
        ensures { cells_of result ≡ rows_in self.now r }
    {
        let bytes = self.bytes;
        let Some(i) = begin(self.at, 3, self.rows, r) else {
            return Row::default();
        };
        Row {
            kind: word_in(bytes, i) as u16,
            p: word_in(bytes, i + 1),
            q: word_in(bytes, i + 2),
            r: 0,
        }
    }
}

// Row `r` of a table of `n` rows of four words that begins at word `at`. (`forest_rows::row` reads lent rows, which have no table.)
fn four(bytes: &[u8], at: usize, n: usize, r: usize) -> Row
    requires { Lies bytes.now at 4 n }
    ensures is { cells_of result ≡ row4 bytes.now at n r }
    ensures small { Words (cells_of result) }
{
    let Some(i) = begin(at, 4, n, r) else {
        return Row::default();
    };
    Row {
        kind: word_in(bytes, i) as u16,
        p: word_in(bytes, i + 1),
        q: word_in(bytes, i + 2),
        r: word_in(bytes, i + 3),
    }
}

// The bytes of a sheet, all that its counts ask for, and where its tables begin in them.
#[derive(Drop)]
pub struct Sheet<'a> {
    bytes: &'a [u8],
    layout: Layout,
}

impl<'a> Model for Sheet<'a> {
    ghost use Rattle.std.specs.Prelude.{List, ℕ};
    ghost use Rattle.sheet.specs.Laid.{Laid};

    ghost Value = { List ℕ };

    ghost view = { λ s. s.bytes.now };

    ghost invariant = { λ s. Laid s.bytes.now s.layout };
}

impl<'a> Sheet<'a> {
    // None where bytes are missing.
    pub fn of(bytes: &'a [u8]) -> Option<Sheet<'a>>
        ensures whole { IfSome result (λ s. (s ≡ bytes.now) × Whole bytes.now) }
        ensures short { IsNone result → length bytes.now < need bytes.now }
    {
        if bytes.len() < need_of(bytes) {
            return None;
        }
        let layout = lay_out(bytes);
        Some(Sheet { bytes, layout })
    }

    // All the bytes, with those past the sheet.
    pub fn bytes(&self) -> &'a [u8]
        ensures is { result.now ≡ self.now }
        ensures whole { Whole self.now }
    {
        self.bytes
    }

    // The bytes of the forest's rows.
    pub fn row_bytes(&self) -> &'a [u8]
        ensures { result.now ≡ take (8 * (grove_of self.now).rows) (drop (2 * rows_at self.now) self.now) }
    {
        let from = 2 * self.layout.rows_at;
        let to = from + 8 * self.layout.rows;
        &self.bytes[from..to]
    }

    pub fn names(&self) -> usize
        ensures is { result ≡ (script_of self.now).names }
        ensures small { result < 65536 }
    {
        self.layout.names
    }

    pub fn types(&self) -> usize
        ensures is { result ≡ (script_of self.now).types }
        ensures small { result < 65536 }
    {
        self.layout.types
    }

    pub fn queries(&self) -> usize
        ensures is { result ≡ (script_of self.now).queries }
        ensures small { result < 65536 }
    {
        self.layout.queries
    }

    pub fn statements(&self) -> usize
        ensures is { result ≡ (script_of self.now).statements }
        ensures small { result < 65536 }
    {
        self.layout.statements
    }

    pub fn procedures(&self) -> usize
        ensures is { result ≡ (script_of self.now).procedures }
        ensures small { result < 65536 }
    {
        self.layout.procedures
    }

    pub fn rows(&self) -> usize
        ensures is { result ≡ (grove_of self.now).rows }
        ensures small { result < 65536 }
    {
        self.layout.rows
    }

    pub fn pool(&self) -> usize
        ensures is { result ≡ (grove_of self.now).pool }
        ensures small { result < 65536 }
    {
        self.layout.pool
    }

    pub fn a(&self) -> usize
        ensures { result ≡ (script_of self.now).a }
    {
        self.layout.a
    }

    pub fn b(&self) -> usize
        ensures { result ≡ (script_of self.now).b }
    {
        self.layout.b
    }

    pub fn main(&self) -> usize
        ensures { result ≡ (script_of self.now).main }
    {
        self.layout.main
    }

    pub fn root(&self) -> usize
        ensures { result ≡ (grove_of self.now).root }
    {
        self.layout.root
    }

    pub fn check_fuel(&self) -> usize
        ensures { result ≡ (sheet_of self.now).check_fuel }
    {
        self.layout.check_fuel
    }

    pub fn run_fuel(&self) -> usize
        ensures { result ≡ (sheet_of self.now).run_fuel }
    {
        self.layout.run_fuel
    }

    // The rows of types, as a table.
    pub fn type_table(&self) -> TypeTable<'a>
        ensures is { result ≡ types_in self.now }
        ensures rows { (r : ℕ) → rows_in result r ≡ (script_of self.now).type_row r }
    {
        TypeTable::of(self.bytes, self.layout.types_at, self.layout.types)
    }

    pub fn name_row(&self, x: usize) -> usize
        ensures value { result ≡ (script_of self.now).name_row x }
        ensures small { result < 65536 }
    {
        let Some(i) = begin(13, 1, self.layout.names, x) else {
            return 0;
        };
        word_in(self.bytes, i)
    }

    pub fn type_row(&self, r: usize) -> Row
        ensures { cells_of result ≡ (script_of self.now).type_row r }
    {
        self.type_table().row(r)
    }

    pub fn query_row(&self, r: usize) -> Row
        ensures is { cells_of result ≡ (script_of self.now).query_row r }
        ensures small { Words (cells_of result) }
    {
        four(self.bytes, self.layout.queries_at, self.layout.queries, r)
    }

    pub fn statement_row(&self, r: usize) -> Row
        ensures is { cells_of result ≡ (script_of self.now).statement_row r }
        ensures small { Words (cells_of result) }
    {
        four(
            self.bytes,
            self.layout.statements_at,
            self.layout.statements,
            r,
        )
    }

    pub fn forest_row(&self, r: usize) -> Row
        ensures { cells_of result ≡ (grove_of self.now).row r }
    {
        four(self.bytes, self.layout.rows_at, self.layout.rows, r)
    }

    pub fn procedure_row(&self, c: usize) -> Procedure
        ensures { procedure_of result ≡ (script_of self.now).procedure_row c }
    {
        let bytes = self.bytes;
        let Some(i) = begin(self.layout.procedures_at, 5, self.layout.procedures, c) else {
            return Procedure::default();
        };
        Procedure {
            first: word_in(bytes, i),
            second: word_in(bytes, i + 1),
            input: word_in(bytes, i + 2),
            output: word_in(bytes, i + 3),
            body: word_in(bytes, i + 4),
        }
    }
}
