// Barren names: a name is marked once its row is known to have a forest. A round marks what the last one allows; once a round marks
// nothing, what is not marked is barren.
#![tactic(auto)]

ghost use Rattle.std.specs.Prelude.{◌≡◌, true, cond, ◌+◌, ◌<◌, ◌≤◌, set};
ghost use Rattle.meaning.specs.Sheet.{script_of};
ghost use Rattle.meaning.specs.Types.{declared};
ghost use Rattle.meaning.specs.Shape.{shapely};
ghost use Rattle.meaning.specs.Laws.Barren.{fills as filling, marks};
ghost use Rattle.type_barren.specs.Flags.{flag};
ghost use Rattle.type_barren.specs.Marks.{Filled, Rounding, LowestUnmarked, SaysBarren};

use bits::{Flags, ROWS};
use sheet::Sheet;
use sheet::forms::Ty;

// A flag for each name, 0 and the 32 that a sheet may have.
type Marks = [bool; 33];

// Whether row `i` has a forest, from the flags of the rows below it and the marks of the names.
fn fills(s: &Sheet, i: usize, marked: &Marks, full: &Flags) -> bool
    requires s_value { shapely s.now ≡ true }
    requires le_i { (1 ≤ i) × (i ≤ (script_of s.now).types) }
    requires filled { Filled s.now (flag marked.now) full.now i }
    ensures { result ≡ filling (flag marked.now) (declared (script_of s.now) i) }
{
    match s.type_row(i).as_type() {
        Ty::Label(_, q) => full[q],
        Ty::Sequence(p, q) => full[p] && full[q],
        Ty::Choice(p, q) => full[p] || full[q],
        Ty::Name(x) => marked[x],
        _ => true,
    }
}

// The rows that have a forest, by the marks of the names. Not `1..=n`, here and in `mark_all`: that is left by two paths, and the second's
// goal has no name that lasts.
fn fill(s: &Sheet, marked: &Marks, full: &mut Flags)
    requires { shapely s.now ≡ true }
    ensures { Filled s.now (flag marked.now) full.new ((script_of s.now).types + 1) }
{
    for i in 1..s.types() + 1 {
        full[i] = fills(s, i, marked, full);
    }
}

// Marks the name `x` if its row has a forest.
fn mark(s: &Sheet, x: usize, full: &Flags, marked: &mut Marks)
    requires s_value { shapely s.now ≡ true }
    requires le_x { (1 ≤ x) × (x ≤ (script_of s.now).names) }
    ensures { marked.new ≡ cond (flag full.now ((script_of s.now).name_row x)) (set marked.old x true) marked.old }
{
    if full[s.name_row(x)] {
        marked[x] = true;
    }
}

// Marks each name whose row has a forest.
fn mark_all(s: &Sheet, full: &Flags, marked: &mut Marks)
    requires s_value { shapely s.now ≡ true }
    requires filled { Filled s.now (flag marked.old) full.now ((script_of s.now).types + 1) }
    ensures { Rounding s.now marked.old marked.new ((script_of s.now).names + 1) }
{
    for x in 1..s.names() + 1 {
        mark(s, x, full, marked);
    }
}

fn round(s: &Sheet, full: &mut Flags, marked: &mut Marks)
    requires { shapely s.now ≡ true }
    ensures { Rounding s.now marked.old marked.new ((script_of s.now).names + 1) }
{
    fill(s, marked, full);
    mark_all(s, full, marked);
}

// How many names are marked. The library's lemmas of chains read `a..b`, and not `a..=b`.
fn count(names: usize, marked: &Marks) -> usize
    requires { names ≤ 32 }
    ensures { result ≡ marks (flag marked.now) names }
{
    (1..names + 1).filter(|x| marked[*x]).count()
}

// The lowest name that is not marked.
fn lowest_unmarked(names: usize, marked: &Marks) -> Option<usize>
    requires { names ≤ 32 }
    ensures { LowestUnmarked names marked.now result }
{
    (1..names + 1).find(|x| !marked[*x])
}

// The lowest barren name, if one is: rounds until one marks nothing, or all names are marked. No index is counted: a round goes on from
// as many marks as the last one found, so this stays a `while`.
pub fn barren(s: &Sheet) -> Option<usize>
    requires { shapely s.now ≡ true }
    ensures { SaysBarren s.now result }
{
    let names = s.names();
    let mut full = [false; ROWS];
    let mut marked = [false; 33];
    let mut known = 0;
    while known < names {
        round(s, &mut full, &mut marked);
        let found = count(names, &marked);
        if found == known {
            return lowest_unmarked(names, &marked);
        }
        known = found;
    }
    None
}
