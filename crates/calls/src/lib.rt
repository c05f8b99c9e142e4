// The calls for C: over a bundle and lent bytes, answered in plain numbers. Block before all else; then the question, on the sheet that
// the reader gives.
#![tactic(auto)]

ghost use Rattle.std.specs.Prelude.{◌≡◌, [], Err};
ghost use Rattle.meaning.specs.Words.{zeroed};
ghost use Rattle.meaning.specs.Reply.{answer_code};
ghost use Rattle.meaning.specs.Reply as reply;
ghost use Rattle.bundle.specs.Calls.{copied_of};
ghost use Rattle.fit.specs.Answers.{fit_of};
ghost use Rattle.desk.specs.Checking.{checked_answer, checked_units};
ghost use Rattle.desk.specs.Said.{ran_answer, ran_units, ran_root};
ghost use Rattle.desk.specs.Applying.{applied_answer, first_units, last_units, applied_root};
ghost use Rattle.coded.specs.Numbers.{numbers};
ghost use Rattle.calls.specs.Plain.{plain, Copies, Gives, Check, Fit, Run, Apply};

use bundle::{LARGEST, Refused};
use coded::Coded;
use desk::{Applied, ApplyRefusal, CheckRefusal, Ran, RunRefusal};
use fit::Refusal;

// An answer's number with what it carries, the units of both walks, and the root of a result.
#[repr(C)]
#[derive(Clone, Copy)]
pub struct Reply {
    pub number: usize,
    pub a: usize,
    pub b: usize,
    pub check_units: usize,
    pub run_units: usize,
    pub root: usize,
}

fn plainly(c: Coded, check_units: usize, run_units: usize, root: usize) -> Reply
    ensures { result ≡ plain (numbers c) check_units run_units root }
{
    Reply {
        number: c.number,
        a: c.a,
        b: c.b,
        check_units,
        run_units,
        root,
    }
}

fn copied(answer: Result<(), Refused>) -> Reply
    ensures { result ≡ plain (answer_code (copied_of answer)) 0 0 0 }
{
    plainly(coded::copied(answer), 0, 0, 0)
}

fn checked(answer: Result<usize, CheckRefusal>) -> Reply
    ensures { result ≡ plain (answer_code (checked_answer answer)) (checked_units answer) 0 0 }
{
    plainly(coded::checked(answer), coded::check_units(answer), 0, 0)
}

fn fitted(answer: Result<(), Refusal>) -> Reply
    ensures { result ≡ plain (answer_code (fit_of answer)) 0 0 0 }
{
    plainly(coded::fitted(answer), 0, 0, 0)
}

fn ran(answer: Result<Ran, RunRefusal>) -> Reply
    ensures { result ≡ plain (answer_code (ran_answer answer)) 0 (ran_units answer) (ran_root answer) }
{
    plainly(
        coded::ran(answer),
        0,
        coded::run_units(answer),
        coded::root(answer),
    )
}

fn applied(answer: Result<Applied, ApplyRefusal>) -> Reply
    ensures { result ≡ plain (answer_code (applied_answer answer)) (first_units answer) (last_units answer) (applied_root answer) }
{
    plainly(
        coded::applied(answer),
        coded::first_units(answer),
        coded::last_units(answer),
        coded::applied_root(answer),
    )
}

// The reader's refusal of a question: the working bytes are zero after it too.
fn refused(why: Refused, work: &mut [u8]) -> Reply
    ensures { (result ≡ plain (answer_code (copied_of (Err why))) 0 0 0) × (work.new ≡ zeroed work.old) }
{
    words::zero(work);
    copied(Err(why))
}

// A bundle into the lent tables: 0, 1, 2 or 13.
pub fn chukelowa_read(bundle: &[u8], tables: &mut [u8]) -> Reply
    ensures { Copies (reply.read bundle.now tables.old) result tables.new }
{
    copied(bundle::read(bundle, tables))
}

// Tables into the lent blocks: 0, 2 or 13.
pub fn chukelowa_write(tables: &[u8], blocks: &mut [u8]) -> Reply
    ensures { Copies (reply.write tables.now blocks.old) result blocks.new }
{
    copied(bundle::write(tables, blocks))
}

// Does the bundle's script take A into B: 0 to 9 or 12. Each question reads the bundle so, in four lines; a function that takes the
// question as a closure would be proved at each use, and is no plainer.
pub fn chukelowa_check(bundle: &[u8], work: &mut [u8]) -> Reply
    ensures { Gives (Check bundle.now work.old) result [] work.new }
{
    let mut tables = [0u8; LARGEST];
    match bundle::read(bundle, &mut tables) {
        Err(why) => refused(why, work),
        Ok(()) => {
            let need = sheet::need_of(&tables);
            checked(desk::check(&tables[..need], work))
        }
    }
}

// Is the bundle's forest of the type at row `told`: 0 to 4 or 10.
pub fn chukelowa_fit(bundle: &[u8], told: usize) -> Reply
    ensures { Gives (Fit bundle.now told) result [] [] }
{
    let mut tables = [0u8; LARGEST];
    match bundle::read(bundle, &mut tables) {
        Err(why) => copied(Err(why)),
        Ok(()) => {
            let need = sheet::need_of(&tables);
            fitted(fit::fit(&tables[..need], told))
        }
    }
}

// The edited forest, in the result rows: 0 to 6 or 11 to 13. A call for each question, as the C interface has them.
pub fn chukelowa_run(bundle: &[u8], work: &mut [u8], res: &mut [u8]) -> Reply
    ensures { Gives (Run bundle.now work.old res.old) result res.new
        work.new }
{
    let mut tables = [0u8; LARGEST];
    match bundle::read(bundle, &mut tables) {
        Err(why) => refused(why, work),
        Ok(()) => {
            let need = sheet::need_of(&tables);
            ran(desk::run(&tables[..need], work, res))
        }
    }
}

// The same of a script that the check passes, on a forest of A: 0 to 10, 12 or 13, with the units of both walks.
pub fn chukelowa_apply(bundle: &[u8], work: &mut [u8], res: &mut [u8]) -> Reply
    ensures { Gives (Apply bundle.now work.old res.old) result res.new
        work.new }
{
    let mut tables = [0u8; LARGEST];
    match bundle::read(bundle, &mut tables) {
        Err(why) => refused(why, work),
        Ok(()) => {
            let need = sheet::need_of(&tables);
            applied(desk::apply(&tables[..need], work, res))
        }
    }
}
