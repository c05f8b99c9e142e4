// The answers to a bundle, printed a line each in the form that the second program prints: `read N`, `check N UNITS A B`, then `fit ROW
// N A B` for each type row, then `run N UNITS A B ROOT` with the result's rows, last `apply N CHECK-UNITS RUN-UNITS A B ROOT`.
ghost use Rattle.std.specs.Prelude.{◌≡◌, ◌*◌, ◌≤◌, length};

use crate::fields::{Output, line};
use std::io;
use std::io::Read;

fn fit_answers<P: Print>(out: &mut Output<'_, P>, s: &[u8]) {
    for row in 1..=sheet::types_told(s) {
        let answer = coded::fitted(fit::fit(s, row));
        line(out, b"fit", &[row, answer.number, answer.a, answer.b]);
    }
}

fn check_answer<P: Print>(out: &mut Output<'_, P>, s: &[u8], work: &mut [u8]) {
    let answer = desk::check(s, work);
    let code = coded::checked(answer);
    line(
        out,
        b"check",
        &[code.number, coded::check_units(answer), code.a, code.b],
    );
}

fn run_answer<P: Print>(out: &mut Output<'_, P>, s: &[u8], work: &mut [u8], res: &mut [u8]) {
    let answer = desk::run(s, work, res);
    let code = coded::ran(answer);
    let root = coded::root(answer);
    line(
        out,
        b"run",
        &[code.number, coded::run_units(answer), code.a, code.b, root],
    );
    crate::fields::row_lines(out, res, root);
}

fn apply_answer<P: Print>(out: &mut Output<'_, P>, s: &[u8], work: &mut [u8], res: &mut [u8]) {
    let answer = desk::apply(s, work, res);
    let code = coded::applied(answer);
    line(
        out,
        b"apply",
        &[
            code.number,
            coded::first_units(answer),
            coded::last_units(answer),
            code.a,
            code.b,
            coded::applied_root(answer),
        ],
    );
}

// The bytes of so many rows, of those that there are.
fn lent(rows: usize, most: usize) -> usize
    requires { most ≤ 65536 }
    ensures { result ≤ 8 * most }
{
    8 * rows.min(most)
}

// No run needs more than 6,144 working rows.
fn working_rows() -> [u8; 49152]
    ensures { 49152 ≡ length result }
{
    [0; 49152]
}

// No more than 65,535 result rows count.
fn result_rows() -> [u8; 524288]
    ensures { 524288 ≡ length result }
{
    [0; 524288]
}

fn check_answers<P: Print>(out: &mut Output<'_, P>, s: &[u8], work: usize) {
    let mut w = working_rows();
    let m = lent(work, 6144);
    check_answer(out, s, &mut w[..m]);
}

// Each of the two holds its rows only while its question is asked; a closure in place of the question would be as long.
fn run_answers<P: Print>(out: &mut Output<'_, P>, s: &[u8], work: usize, res: usize) {
    let mut w = working_rows();
    let mut r = result_rows();
    let m = lent(work, 6144);
    let n = lent(res, 65536);
    run_answer(out, s, &mut w[..m], &mut r[..n]);
}

fn apply_answers<P: Print>(out: &mut Output<'_, P>, s: &[u8], work: usize, res: usize) {
    let mut w = working_rows();
    let mut r = result_rows();
    let m = lent(work, 6144);
    let n = lent(res, 65536);
    apply_answer(out, s, &mut w[..m], &mut r[..n]);
}

fn sheet_answers<P: Print>(out: &mut Output<'_, P>, s: &[u8], work: usize, res: usize) {
    check_answers(out, s, work);
    fit_answers(out, s);
    run_answers(out, s, work, res);
    apply_answers(out, s, work, res);
}

// The answers to a bundle; so many working rows are lent to its check and its run, and so many result rows.
fn bundle_answers<P: Print>(out: &mut Output<'_, P>, bundle: &[u8], work: usize, res: usize) {
    let mut tables = [0u8; bundle::LARGEST];
    let answer = bundle::read(bundle, &mut tables);
    line(out, b"read", &[coded::copied(answer).number]);
    if let Ok(()) = answer {
        let need = sheet::need_of(&tables);
        sheet_answers(out, &tables[..need], work, res);
    }
}

// Reads a bundle from the input, and answers; an error where it cannot be read.
pub fn answers<I: Read, P: Print>(
    input: &mut I,
    out: &mut Output<'_, P>,
    work: usize,
    res: usize,
) -> io::Result<()> {
    let mut bundle = [0u8; 45057];
    let n = crate::fields::read_full(input, &mut bundle)?;
    bundle_answers(out, &bundle[..n], work, res);
    Ok(())
}
