// Fit: is the sheet's forest of the type at a row, and where is its first fault. Siblings are walked in a loop; only nesting costs
// stack.
#![tactic(auto)]

ghost use Rattle.std.specs.Prelude.{◌≡◌, ℕ, ◌≤◌, ◌<◌, get_or};
ghost use Rattle.meaning.specs.Reply.{Fitted};
ghost use Rattle.meaning.specs.Laws.Wired.{Wired, ends};
ghost use Rattle.type_places.specs.Tables.{model_of, set_of};
ghost use Rattle.fit.specs.Answers.{fit_of};
ghost use Rattle.fit.specs.Fitting.{said_number, Looked, ReadyBy, ToldBy, Walks, Finds, IsOf};
ghost use Rattle.fit.specs.declared.Refusal.TheVariants.{Unfit};

use bits::{PLACES, ROWS, Sets, WORDS};
use sheet::Sheet;
use sheet::forms::Tree;
use type_heads::{HEADS, Leads};
use type_tables::Tables;
use type_ties::{Tied, Unsound};

// The row of the first fault of trees that don't fit.
#[derive(Clone, Copy)]
pub struct Fault {
    pub row: usize,
}

// 2, 3 with the name, 4 with the row and its rival, 10 with the row of the first fault.
#[derive(Clone, Copy)]
pub enum Refusal {
    Shape,
    Barren(usize),
    Tie(Tied),
    Unfit(usize),
}

impl From<Unsound> for Refusal {
    ghost use Rattle.fit.specs.Answers.{unsound_as};

    ghost from_gives = { λ u e. e ≡ unsound_as u };

    fn from(u: Unsound) -> Refusal {
        match u {
            Unsound::Barren(name) => Refusal::Barren(name),
            Unsound::Tie(tied) => Refusal::Tie(tied),
        }
    }
}

impl From<Fault> for Refusal {
    ghost from_gives = { λ f e. e ≡ Unfit f.row };

    fn from(fault: Fault) -> Refusal {
        Refusal::Unfit(fault.row)
    }
}

// The head of a tree by number: a label, 1024 text, 1025 bool. No Option: each tree has one.
fn tree_head(tree: Tree) -> usize
    ensures { result ≡ said_number tree }
{
    match tree {
        Tree::Text(_, _) => 1024,
        Tree::Bool(_) => 1025,
        Tree::Node(label, _) => label,
    }
}

// The place with head `h` that may stand at a point, set `set` of `sets`; 576 where there is none. No Option: this is what
// `bits::lowest_both` answers, and what `Looked` says.
fn place(h: usize, sets: &Sets, set: usize, class: &Leads, same: &Sets) -> usize
    requires { (set ≤ 512) × ((i : ℕ) → i < 1026 → get_or class.now i 0 ≤ 512) }
    ensures { Looked sets.now set h class.now same.now result }
{
    if HEADS <= h {
        return PLACES;
    }
    bits::lowest_both(sets, set, same, usize::from(class[h]), 1)
}

// The trees at row `r`, children of the tree at row `parent`, against the model at row `k`, whose next sets are in `next`: each tree
// takes the one place with its head, its children start that place's content. The walk stands at a point, set `set` of `sets`: where
// the model begins, then behind a place.
// Trees that stand side by side are rows that name each other: no index is counted.
fn trees(
    s: &Sheet,
    parent: usize,
    r: usize,
    k: usize,
    next: &Sets,
    tables: &Tables,
) -> Result<(), Fault>
    requires { ReadyBy s.now tables.now × Walks s.now r k next.now }
    ensures { Finds s.now parent r k result }
{
    let mut r = r;
    let mut sets = &tables.first;
    let mut set = k;
    while r != 0 {
        let c = s.forest_row(r);
        let tree = c.as_tree();
        let b = place(tree_head(tree), sets, set, &tables.class, &tables.same);
        if PLACES <= b {
            return Err(Fault { row: r });
        }
        if let Tree::Node(_, children) = tree {
            let content = type_heads::acting(s, b).q;
            trees(s, r, children, content, &tables.behind, tables)?;
        }
        r = c.r;
        sets = next;
        set = b;
    }
    // No tree need stand at the point if End may, place 0.
    if bits::has(sets, set, 0) {
        return Ok(());
    }
    Err(Fault { row: parent })
}

// The sheet's forest against the type at row `told`, by the sheet's tables (`type_tables::judge`) and the next sets of that row's
// model: those of a root are in `tables.behind`.
pub fn of_type(s: &Sheet, told: usize, next: &Sets, tables: &Tables) -> Result<(), Fault>
    requires told { ToldBy s.now told tables.now }
    requires wired { Wired (set_of next.now) (model_of s.now told) ends }
    ensures { IsOf s.now told result }
{
    trees(s, 0, s.root(), told, next, tables)
}

// The same for a row inside a type: the next sets of its model alone are made first, over first sets without End.
fn of_part(s: &Sheet, told: usize, tables: &Tables) -> Result<(), Fault>
    requires { ToldBy s.now told tables.now }
    ensures { IsOf s.now told result }
{
    let mut top = [false; ROWS];
    let mut null = [false; ROWS];
    let mut begin = [0u64; WORDS];
    let mut next = [0u64; WORDS];
    top[told] = true;
    let types = s.type_table();
    type_places::firsts(&types, 0, &mut null, &mut begin);
    type_places::behinds(&types, 0, told, &top, &null, &begin, &mut next);
    of_type(s, told, &next, tables)
}

// The same for any row: what stands behind a root's places is in the sheet's tables.
fn of_row(s: &Sheet, told: usize, tables: &Tables) -> Result<(), Fault>
    requires { ToldBy s.now told tables.now }
    ensures { IsOf s.now told result }
{
    let mut root = [false; ROWS];
    type_models::roots(s, &mut root);
    if root[told] {
        return of_type(s, told, &tables.behind, tables);
    }
    of_part(s, told, tables)
}

// Is the forest of the type at row `told`: Shape where there is no such row, then 2 to 4, then Unfit.
pub fn fit(s: &[u8], told: usize) -> Result<(), Refusal>
    ensures { Fitted s.now told (fit_of result) }
{
    let sheet = shape::shaped(s).ok_or(Refusal::Shape)?;
    if told == 0 || sheet.types() < told {
        return Err(Refusal::Shape);
    }
    let mut tables = Tables::new();
    type_tables::judge(&sheet, &mut tables)?;
    of_row(&sheet, told, &tables)?;
    Ok(())
}
