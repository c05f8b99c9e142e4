// The listing that the program `apply` prints. The bundle's questions are asked in turn, each by itself, until one is refused; each
// answer is a line.
#![tactic(auto)]

pub mod lines;

ghost use Rattle.std.specs.Prelude.{◌≡◌, [], ◌∷◌, ◌+◌, ◌≤◌, length};
ghost use Rattle.meaning.specs.Listing.{line, lent_work, lent_result};
ghost use Rattle.listing.specs.Adds.{Adds};
ghost use Rattle.listing.specs.Lists.{RunTold, FitTold, SheetTold, Lists};

// The listing's bytes, and the number that ended it: 0 where all is done. Document 01 words the listing by numbers (`load` for 1 to 4),
// and so do the functions below.
#[derive(Clone, Copy)]
pub struct Listed {
    pub bytes: usize,
    pub number: usize,
}

// 6,144 working and 8,192 result rows: two sizes, named here once each.
fn working_rows() -> [u8; 49152]
    ensures { result ≡ lent_work }
{
    [0; 49152]
}

fn result_rows() -> [u8; 65536]
    ensures { result ≡ lent_result }
{
    [0; 65536]
}

// The run's line, and where it is done its rows.
fn run_told(s: &[u8], out: &mut [u8], at: usize) -> Listed
    requires { at + 409634 ≤ length out.old }
    ensures { RunTold s.now out.old at out.new result }
{
    let mut work = working_rows();
    let mut result = result_rows();
    let answer = desk::run(s, &mut work, &mut result);
    let code = coded::ran(answer);
    let units = coded::run_units(answer);
    let number = code.number;
    if number != 0 {
        let bytes = crate::lines::line(out, at, b"run", &[number, units]);
        return Listed { bytes, number };
    }
    let root = coded::root(answer);
    let end = crate::lines::line(out, at, b"run", &[0, units, root]);
    let bytes = crate::lines::rows(out, end, &result, root);
    Listed { bytes, number }
}

// The line of fit against A, and what follows.
fn fit_told(s: &[u8], out: &mut [u8], at: usize) -> Listed
    requires { at + 409658 ≤ length out.old }
    ensures { FitTold s.now out.old at out.new result }
{
    let a = words::word_at(s, 7);
    let code = coded::fitted(fit::fit(s, a));
    let number = code.number;
    let bytes = crate::lines::line(out, at, b"fit", &[number, code.a]);
    if number != 0 {
        return Listed { bytes, number };
    }
    run_told(s, out, bytes)
}

// The listing of a sheet: its load or its check, and what follows.
fn sheet_told(s: &[u8], out: &mut [u8]) -> Listed
    requires { 409684 ≤ length out.old }
    ensures { SheetTold s.now out.old out.new result }
{
    let mut work = working_rows();
    let answer = desk::check(s, &mut work);
    let code = coded::checked(answer);
    let units = coded::check_units(answer);
    let number = code.number;
    if number == 0 {
        let end = crate::lines::line(out, 0, b"check", &[number, units]);
        return fit_told(s, out, end);
    }
    if number < 5 {
        let bytes = crate::lines::line(out, 0, b"load", &[number]);
        return Listed { bytes, number };
    }
    let bytes = crate::lines::line(out, 0, b"check", &[number, units]);
    Listed { bytes, number }
}

// The listing of a bundle, into a buffer that has room for any.
pub fn listing(bundle: &[u8], out: &mut [u8]) -> Listed
    requires { 409684 ≤ length out.old }
    ensures { Lists bundle.now result out.new }
{
    let mut tables = [0u8; bundle::LARGEST];
    match bundle::read(bundle, &mut tables) {
        Err(why) => {
            let number = coded::copied(Err(why)).number;
            let bytes = crate::lines::line(out, 0, b"load", &[number]);
            Listed { bytes, number }
        }
        Ok(()) => {
            let need = sheet::need_of(&tables);
            sheet_told(&tables[..need], out)
        }
    }
}
