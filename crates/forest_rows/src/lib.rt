// Forests in lent rows, append only: a value is the row of its first tree, 0 the empty forest. Rows refer to lower rows, so old values
// stay true.
// Loops walk along rows, each of which names the next: no index is counted, and an iterator that lends the rows could not stand where a
// loop writes rows. The kind that is written is the number in the row, which the C interface hands out.
#![tactic(auto)]

pub mod texts;

ghost use Rattle.std.specs.Prelude.{◌≡◌, ℕ, ◌+◌, ◌*◌, ◌-◌, ◌<◌, ◌≤◌, length};
ghost use Rattle.meaning.specs.Forest.{count, forest_at};
ghost use Rattle.meaning.specs.Theorems.ReadBack.{lent_row};
ghost use Rattle.sheet.specs.Laid.{Words, cells_of};
ghost use Rattle.walk.specs.Meets.{Meets, Roomy};
ghost use Rattle.walk.specs.Loop.{Links, Turns, gathered, keep_of};
ghost use Rattle.forest_rows.specs.Rows.{
  Readable,
  Pushed,
  CopyAsks,
  Copied,
  Takes,
  chosen,
  link,
  GatherAsks,
  Gathered,
  Judged,
  Sees,
  bool_of,
  text_of,
  node_of,
  MakeAsks,
  made,
  fronted,
  picked_of,
};

use sheet::Row;
use sheet::forms::Tree;
use walk::{Got, Left, Stop};
use words::{put_word, word_at, word_in};

// Row `r`, from 1, all of it there. A kind is a word: `as u16` loses nothing, here and below.
pub fn row(rows: &[u8], r: usize) -> Row
    requires { (0 < r) × (r < 65536) × (8 * r ≤ length rows.now) }
    ensures is { cells_of result ≡ lent_row rows.now r }
    ensures small { Words (cells_of result) }
{
    let i = 4 * (r - 1);
    Row {
        kind: word_in(rows, i) as u16,
        p: word_in(rows, i + 1),
        q: word_in(rows, i + 2),
        r: word_in(rows, i + 3),
    }
}

// Row `r`, from 1; what lies past the end of the rows reads as 0. The twin of `row` for rows that may not be there: those that a walk
// reads are there, and `row` tests nothing for each word.
pub fn any_row(rows: &[u8], r: usize) -> Row
    requires { (0 < r) × (r < 65536) }
    ensures is { cells_of result ≡ lent_row rows.now r }
    ensures small { Words (cells_of result) }
{
    let i = 4 * (r - 1);
    Row {
        kind: word_at(rows, i) as u16,
        p: word_at(rows, i + 1),
        q: word_at(rows, i + 2),
        r: word_at(rows, i + 3),
    }
}

// Writes row `used` + 1.
pub fn push(rows: &mut [u8], used: usize, kind: usize, p: usize, q: usize, next: usize) -> usize
    requires { (8 * (used + 1) ≤ length rows.old) × (used < 65536) × (Words (record { kind = kind; p = p; q = q; r = next })) }
    ensures row { result ≡ used + 1 }
    ensures written { Pushed rows.old rows.new used (record { kind = kind; p = p; q = q; r = next }) }
{
    let i = 4 * used;
    put_word(rows, i, kind);
    put_word(rows, i + 1, p);
    put_word(rows, i + 2, q);
    put_word(rows, i + 3, next);
    used + 1
}

// Which trees of a forest are meant.
#[derive(Clone, Copy, Debug, PartialEq, Eq)]
pub enum Which {
    All,
    Labelled(usize),
}

impl Which {
    // Whether the row is such a tree.
    pub fn takes(self, t: Row) -> bool
        ensures { Takes self (cells_of t) result }
    {
        match self {
            Which::All => true,
            Which::Labelled(l) => labelled(t, l),
        }
    }
}

// Whether the row is a tree labelled `l`.
fn labelled(t: Row, l: usize) -> bool
    ensures { Judged (cells_of t) l result }
{
    match t.as_tree() {
        Tree::Node(label, _) => label == l,
        _ => false,
    }
}

// How many such trees stand at the top of the forest at `root`.
pub fn count(rows: &[u8], which: Which, root: usize) -> usize
    requires { Readable rows.now root }
    ensures { (byte : ℕ → ℕ) → result ≡ count (chosen which (forest_at byte (lent_row rows.now) root)) }
{
    let mut n = 0;
    let mut at = root;
    while at != 0 {
        let t = row(rows, at);
        if which.takes(t) {
            n += 1;
        }
        at = t.r;
    }
    n
}

// How many trees stand at the top of the forest at `root`.
pub fn trees(rows: &[u8], root: usize) -> usize
    requires { Readable rows.now root }
    ensures { (byte : ℕ → ℕ) → result ≡ count (forest_at byte (lent_row rows.now) root) }
{
    count(rows, Which::All, root)
}

#[derive(Clone, Copy)]
pub struct Grown {
    pub root: usize,
    pub used: usize,
}

// The row of the forest that is written from row `used` + 1 up to row `to`, in front of the forest at `b`: where nothing is, `b`.
fn front_row(used: usize, to: usize, b: usize) -> usize
    ensures { result ≡ link used b to }
{
    if to == used { b } else { to }
}

// Such trees at `a`, copied, and then the forest at `b`: counted first, written downwards.
pub fn copy(rows: &mut [u8], used: usize, which: Which, a: usize, b: usize) -> Grown
    requires { CopyAsks rows.old used which a b }
    ensures { (byte : ℕ → ℕ) → Copied byte rows.old rows.new used which a b result.root result.used }
{
    let top = used + count(rows, which, a);
    let mut to = top;
    let mut at = a;
    // No range: `to` falls where a tree is taken, and not at each turn.
    while used < to {
        let t = row(rows, at);
        if which.takes(t) {
            to -= 1;
            let next = front_row(used, to, b);
            push(rows, to, usize::from(t.kind), t.p, t.q, next);
        }
        at = t.r;
    }
    Grown {
        root: front_row(used, top, b),
        used: top,
    }
}

// The results that the links hold, first to last, as one forest. A link is a tree row whose child is a turn's result and whose next is
// the link before.
pub fn gather(rows: &mut [u8], used: usize, link: usize) -> Grown
    requires { GatherAsks rows.old used link }
    ensures { (byte : ℕ → ℕ) → Gathered byte rows.old rows.new used link result.root result.used }
{
    let mut at = link;
    let mut root = 0;
    let mut n = used;
    while at != 0 {
        let t = row(rows, at);
        let g = copy(rows, n, Which::All, t.q, root);
        root = g.root;
        n = g.used;
        at = t.r;
    }
    Grown { root, used: n }
}

// What a forest is, where a rule looks at it.
#[derive(Clone, Copy)]
pub enum Seen {
    Nothing,
    Many,
    Text(usize, usize),
    Bool(bool),
    Node(usize, usize),
}

impl Seen {
    // One bool; one text, its offset and length; one labelled tree, its label and the row of its first child.
    pub fn bool(self) -> Option<bool>
        ensures { result ≡ bool_of self }
    {
        match self {
            Seen::Bool(b) => Some(b),
            _ => None,
        }
    }

    pub fn text(self) -> Option<(usize, usize)>
        ensures { result ≡ text_of self }
    {
        match self {
            Seen::Text(o, n) => Some((o, n)),
            _ => None,
        }
    }

    pub fn node(self) -> Option<(usize, usize)>
        ensures { result ≡ node_of self }
    {
        match self {
            Seen::Node(l, c) => Some((l, c)),
            _ => None,
        }
    }
}

pub fn look(rows: &[u8], root: usize) -> Seen
    requires { Readable rows.now root }
    ensures { (byte : ℕ → ℕ) → Sees byte rows.now root result }
{
    if root == 0 {
        return Seen::Nothing;
    }
    let t = row(rows, root);
    if t.r != 0 {
        return Seen::Many;
    }
    match t.as_tree() {
        Tree::Text(o, n) => Seen::Text(o, n),
        Tree::Bool(b) => Seen::Bool(b),
        Tree::Node(l, c) => Seen::Node(l, c),
    }
}

// A new tree: one copy. Its kind is the number that stands in the row: a name for it would be turned into that number here.
pub fn make(rows: &mut [u8], kind: usize, p: usize, q: usize, left: Left) -> Result<Got, Stop>
    requires { MakeAsks rows.old left.used kind p q left.purse.left }
    ensures { (byte : ℕ → ℕ) → Meets (made byte rows.old kind p q) byte left.purse.left left.used rows.old
        rows.new result }
{
    let purse = left.purse.take()?;
    let top = push(rows, left.used, kind, p, q, 0);
    Ok(Got {
        root: top,
        left: Left { used: top, purse },
    })
}

// The trees at `a`, copied, in front of the forest at `b`.
pub fn front(rows: &mut [u8], a: usize, b: usize, left: Left) -> Result<Got, Stop>
    requires { (Roomy rows.old left.used left.purse.left) × (a ≤ left.used) × (b ≤ left.used) }
    ensures { (byte : ℕ → ℕ) → Meets (fronted (forest_at byte (lent_row rows.old) a)
        (forest_at byte (lent_row rows.old) b)) byte left.purse.left left.used rows.old rows.new result }
{
    let n = trees(rows, a);
    let purse = left.purse.pay(n)?;
    let Grown { root, used } = copy(rows, left.used, Which::All, a, b);
    Ok(Got {
        root,
        left: Left { used, purse },
    })
}

// A turn's result, its copies paid, as a link in front of the links before.
pub fn keep(rows: &mut [u8], got: usize, link: usize, left: Left) -> Result<Got, Stop>
    requires { (Roomy rows.old left.used (left.purse.left + 1)) × (got ≤ left.used) × (link ≤ left.used) }
    ensures { (byte : ℕ → ℕ) → Links (forest_at byte (lent_row rows.old) link)
        → Turns (keep_of (forest_at byte (lent_row rows.old) link) (forest_at byte (lent_row rows.old) got)) byte
        left.purse.left left.used (left.used + left.purse.left + 1 + count (gathered (forest_at byte (lent_row rows.old) link)))
        rows.old rows.new result }
{
    let owed = trees(rows, got);
    let purse = left.purse.pay(owed)?;
    let top = push(rows, left.used, 4, 0, got, link);
    Ok(Got {
        root: top,
        left: Left { used: top, purse },
    })
}

// The trees with the label, copied.
pub fn picked(rows: &mut [u8], label: usize, root: usize, left: Left) -> Result<Got, Stop>
    requires { (Roomy rows.old left.used left.purse.left) × (root ≤ left.used) }
    ensures { (byte : ℕ → ℕ) → Meets (picked_of label (forest_at byte (lent_row rows.old) root)) byte
        left.purse.left left.used rows.old rows.new result }
{
    let which = Which::Labelled(label);
    let n = count(rows, which, root);
    let purse = left.purse.pay(n)?;
    let Grown { root, used } = copy(rows, left.used, which, root, 0);
    Ok(Got {
        root,
        left: Left { used, purse },
    })
}
