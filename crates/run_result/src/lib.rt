// A run's result as rows: counted as far as there is room, then written from its last row down to its first. Only nesting takes stack.
// Its loops walk along rows, each of which names the next: no index is counted. Row 0 is the empty forest, as document 01 has it.
#![tactic(auto)]

pub mod handed;

ghost use Rattle.std.specs.Prelude.{◌≡◌, [], ◌∷◌, ◌+◌, ◌*◌, ◌≤◌, length};
ghost use Rattle.sheet.specs.Laid.{cells_of};
ghost use Rattle.run_result.specs.Trees.{child_of, root_of, tree_row};
ghost use Rattle.run_result.specs.Count.{Countable, Counts};
ghost use Rattle.run_result.specs.Replaced.{replaced};
ghost use Rattle.run_result.specs.Written.{Writable, Written};

use sheet::Row;
use sheet::forms::Tree;
use words::put_word;

// The row of a tree's first child, 0 where it has none: so texts and bools.
fn child(c: Row) -> usize
    ensures { result ≡ child_of (cells_of c) }
{
    match c.as_tree() {
        Tree::Node(_, q) => q,
        _ => 0,
    }
}

// `n` and the rows of the forest at row `root`, up to one past `room`: there it stops. A shared tree counts each time.
pub fn count(work: &[u8], root: usize, n: usize, room: usize) -> usize
    requires { Countable work.now root n room }
    ensures { Counts work.now root n room result }
{
    let mut k = n;
    let mut r = root;
    while r != 0 {
        if room <= k {
            return room + 1;
        }
        let c = forest_rows::row(work, r);
        let next = c.r;
        let q = child(c);
        if q == 0 {
            k += 1;
        } else {
            k = count(work, q, k + 1, room);
        }
        r = next;
    }
    k
}

// Writes one row behind `n` rows: any words, where `forest_rows::push` asks that they are words. The kind is the number in the row,
// which the C interface hands out.
fn put_row(res: &mut [u8], n: usize, kind: usize, p: usize, q: usize, next: usize)
    requires { 8 * (n + 1) ≤ length res.old }
    ensures { res.new ≡ replaced n (record { kind = kind; p = p; q = q; r = next } ∷ []) (n + 1) res.old }
{
    let i = 4 * n;
    put_word(res, i, kind);
    put_word(res, i + 1, p);
    put_word(res, i + 2, q);
    put_word(res, i + 3, next);
}

// Writes the row of the tree `c` behind `n` rows, by its kind: `q` is the row of its first child there, `next` that of the rest.
fn put_tree(res: &mut [u8], n: usize, c: Row, q: usize, next: usize)
    requires { 8 * (n + 1) ≤ length res.old }
    ensures { res.new ≡ replaced n (tree_row (cells_of c) q next ∷ []) (n + 1) res.old }
{
    match c.as_tree() {
        Tree::Text(offset, size) => put_row(res, n, 1, offset, size, next),
        Tree::Bool(false) => put_row(res, n, 2, 0, 0, next),
        Tree::Bool(true) => put_row(res, n, 3, 0, 0, next),
        Tree::Node(label, _) => put_row(res, n, 4, label, q, next),
    }
}

// The row of a forest's first tree, the last of its rows; row 0 is the empty forest.
fn root_row(r: usize, last: usize) -> usize
    ensures { result ≡ root_of r last }
{
    if r == 0 { 0 } else { last }
}

// Writes the forest at row `root` from row `last` down: its first tree, that tree's children, the rest. Hands back the row below them.
pub fn write(work: &[u8], root: usize, last: usize, res: &mut [u8]) -> usize
    requires { Writable work.now root last res.old }
    ensures { Written work.now root result last res.old res.new }
{
    let mut own = last;
    let mut r = root;
    while r != 0 {
        let c = forest_rows::row(work, r);
        let next = c.r;
        let q = child(c);
        let n = own - 1;
        if q == 0 {
            put_tree(res, n, c, 0, root_row(next, n));
            own = n;
        } else {
            let below = write(work, q, n, res);
            put_tree(res, n, c, n, root_row(next, below));
            own = below;
        }
        r = next;
    }
    own
}
