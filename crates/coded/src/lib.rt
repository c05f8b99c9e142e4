// The numbers: the one place where an answer becomes the number of its refusal, with the two values that it carries. What prints, and
// the calls for C, go through it.
#![tactic(auto, unfolding(meaning::specs::Reply::answer_code, meaning::specs::Reply::refusal_code))]

ghost use Rattle.std.specs.Prelude.{◌≡◌, Result};
ghost use Rattle.meaning.specs.Reply.{code, answer_code, refusal_code};
ghost use Rattle.walk.specs.Concern.{concern_of};
ghost use Rattle.bundle.specs.Calls.{copied_of, refused_of};
ghost use Rattle.fit.specs.Answers.{fit_of, unfit_of};
ghost use Rattle.desk.specs.Checking.{checked_answer, checked_units, check_refused, unchecked_units};
ghost use Rattle.desk.specs.Said.{ran_answer, ran_units, ran_root, run_refused, refused_units};
ghost use Rattle.desk.specs.Applying.{applied_answer, first_units, last_units, applied_root, apply_refused};
ghost use Rattle.coded.specs.Numbers.{numbers};

use bundle::Refused;
use desk::{Applied, ApplyRefusal, CheckRefusal, Ran, RunRefusal};
use fit::Refusal;
use walk::Concern;

// The document's numbers, which the C interface hands out: this crate is where a refusal, an enum everywhere else, becomes one.
const DONE: usize = 0;

const BLOCK: usize = 1;

const SHAPE: usize = 2;

const BARREN: usize = 3;

const TIE: usize = 4;

const FUEL: usize = 5;

const DEPTH: usize = 6;

const WIDE: usize = 7;

const MISMATCH: usize = 8;

const OUTSIDE: usize = 9;

const UNFIT: usize = 10;

const STUCK: usize = 11;

const SCRATCH: usize = 12;

const ROOM: usize = 13;

// An answer in numbers: 0 for done or its refusal's, and what that carries, 0 where it is nothing.
#[derive(Clone, Copy)]
pub struct Coded {
    pub number: usize,
    pub a: usize,
    pub b: usize,
}

fn code(number: usize, a: usize, b: usize) -> Coded
    ensures { numbers result ≡ code number a b }
{
    Coded { number, a, b }
}

// A refusal that carries the row whose rule asks, and which table that is of.
fn at(number: usize, place: Concern) -> Coded
    ensures { numbers result ≡ code number (concern_of place).row (concern_of place).flag }
{
    code(number, place.row(), place.flag())
}

impl From<Refused> for Coded {
    ghost from_gives = { λ r c. numbers c ≡ refusal_code (refused_of r) };

    fn from(r: Refused) -> Coded {
        match r {
            Refused::Block => code(BLOCK, 0, 0),
            Refused::Shape => code(SHAPE, 0, 0),
            Refused::Room => code(ROOM, 0, 0),
        }
    }
}

impl From<Refusal> for Coded {
    ghost from_gives = { λ r c. numbers c ≡ refusal_code (unfit_of r) };

    fn from(r: Refusal) -> Coded {
        match r {
            Refusal::Shape => code(SHAPE, 0, 0),
            Refusal::Barren(x) => code(BARREN, x, 0),
            Refusal::Tie(t) => code(TIE, t.row, t.rival),
            Refusal::Unfit(x) => code(UNFIT, x, 0),
        }
    }
}

impl From<CheckRefusal> for Coded {
    ghost from_gives = { λ r c. numbers c ≡ refusal_code (check_refused r) };

    fn from(r: CheckRefusal) -> Coded {
        match r {
            CheckRefusal::Shape => code(SHAPE, 0, 0),
            CheckRefusal::Barren(x) => code(BARREN, x, 0),
            CheckRefusal::Tie(t) => code(TIE, t.row, t.rival),
            CheckRefusal::Fuel(_) => code(FUEL, 0, 0),
            CheckRefusal::Depth(_) => code(DEPTH, 0, 0),
            CheckRefusal::Wide(place, _) => at(WIDE, place),
            CheckRefusal::Mismatch(place, _) => at(MISMATCH, place),
            CheckRefusal::Outside(place, _) => at(OUTSIDE, place),
            CheckRefusal::Scratch => code(SCRATCH, 0, 0),
        }
    }
}

impl From<RunRefusal> for Coded {
    ghost from_gives = { λ r c. numbers c ≡ refusal_code (run_refused r) };

    fn from(r: RunRefusal) -> Coded {
        match r {
            RunRefusal::Shape => code(SHAPE, 0, 0),
            RunRefusal::Barren(x) => code(BARREN, x, 0),
            RunRefusal::Tie(t) => code(TIE, t.row, t.rival),
            RunRefusal::Fuel(_) => code(FUEL, 0, 0),
            RunRefusal::Depth(_) => code(DEPTH, 0, 0),
            RunRefusal::Stuck(place, _) => at(STUCK, place),
            RunRefusal::Scratch => code(SCRATCH, 0, 0),
            RunRefusal::Room(_) => code(ROOM, 0, 0),
        }
    }
}

impl From<ApplyRefusal> for Coded {
    ghost from_gives = { λ r c. numbers c ≡ refusal_code (apply_refused r) };

    fn from(r: ApplyRefusal) -> Coded {
        match r {
            ApplyRefusal::Check(c) => Coded::from(c),
            ApplyRefusal::Unfit { row, .. } => code(UNFIT, row, 0),
            ApplyRefusal::Run(_, r) => Coded::from(r),
        }
    }
}

// The reader's and the writer's answer. This one and those of the questions stay five: each names the definition that its promise cites,
// and one generic function would need a trait that carries it, with five impls as long as these.
pub fn copied(answer: Result<(), Refused>) -> Coded
    ensures { numbers result ≡ answer_code (copied_of answer) }
{
    match answer {
        Ok(()) => code(DONE, 0, 0),
        Err(why) => Coded::from(why),
    }
}

pub fn fitted(answer: Result<(), Refusal>) -> Coded
    ensures { numbers result ≡ answer_code (fit_of answer) }
{
    match answer {
        Ok(()) => code(DONE, 0, 0),
        Err(why) => Coded::from(why),
    }
}

pub fn checked(answer: Result<usize, CheckRefusal>) -> Coded
    ensures { numbers result ≡ answer_code (checked_answer answer) }
{
    match answer {
        Ok(_) => code(DONE, 0, 0),
        Err(why) => Coded::from(why),
    }
}

fn unchecked_units(why: CheckRefusal) -> usize
    ensures { result ≡ unchecked_units why }
{
    match why {
        CheckRefusal::Shape
        | CheckRefusal::Barren(_)
        | CheckRefusal::Tie(_)
        | CheckRefusal::Scratch => 0,
        CheckRefusal::Fuel(units) | CheckRefusal::Depth(units) => units,
        CheckRefusal::Wide(_, units)
        | CheckRefusal::Mismatch(_, units)
        | CheckRefusal::Outside(_, units) => units,
    }
}

// The units of a check: 0 where its walk did not begin.
pub fn check_units(answer: Result<usize, CheckRefusal>) -> usize
    ensures { result ≡ checked_units answer }
{
    match answer {
        Ok(units) => units,
        Err(why) => unchecked_units(why),
    }
}

pub fn ran(answer: Result<Ran, RunRefusal>) -> Coded
    ensures { numbers result ≡ answer_code (ran_answer answer) }
{
    match answer {
        Ok(_) => code(DONE, 0, 0),
        Err(why) => Coded::from(why),
    }
}

fn refused_units(why: RunRefusal) -> usize
    ensures { result ≡ refused_units why }
{
    match why {
        RunRefusal::Shape | RunRefusal::Barren(_) | RunRefusal::Tie(_) | RunRefusal::Scratch => 0,
        RunRefusal::Fuel(units) | RunRefusal::Depth(units) | RunRefusal::Room(units) => units,
        RunRefusal::Stuck(_, units) => units,
    }
}

// The units of a run: 0 where its walk did not begin.
pub fn run_units(answer: Result<Ran, RunRefusal>) -> usize
    ensures { result ≡ ran_units answer }
{
    match answer {
        Ok(ran) => ran.units,
        Err(why) => refused_units(why),
    }
}

// The root of a run's result: 0 where there is none.
pub fn root(answer: Result<Ran, RunRefusal>) -> usize
    ensures { result ≡ ran_root answer }
{
    answer.map_or(0, |ran| ran.root)
}

// Apply's answer: the check's refusal, Unfit, or the run's.
pub fn applied(answer: Result<Applied, ApplyRefusal>) -> Coded
    ensures { numbers result ≡ answer_code (applied_answer answer) }
{
    match answer {
        Ok(_) => code(DONE, 0, 0),
        Err(why) => Coded::from(why),
    }
}

// The units of its check.
pub fn first_units(answer: Result<Applied, ApplyRefusal>) -> usize
    ensures { result ≡ first_units answer }
{
    match answer {
        Ok(applied) => applied.units,
        Err(ApplyRefusal::Check(c)) => unchecked_units(c),
        Err(ApplyRefusal::Unfit { units, .. }) => units,
        Err(ApplyRefusal::Run(units, _)) => units,
    }
}

// The units of its run.
pub fn last_units(answer: Result<Applied, ApplyRefusal>) -> usize
    ensures { result ≡ last_units answer }
{
    match answer {
        Ok(applied) => applied.ran.units,
        Err(ApplyRefusal::Check(_)) | Err(ApplyRefusal::Unfit { .. }) => 0,
        Err(ApplyRefusal::Run(_, r)) => refused_units(r),
    }
}

// The root of its result.
pub fn applied_root(answer: Result<Applied, ApplyRefusal>) -> usize
    ensures { result ≡ applied_root answer }
{
    answer.map_or(0, |applied| applied.ran.root)
}
