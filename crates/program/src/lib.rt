// The programs, whole, each with the exit status that it is to end with: 2 where reading or writing failed, or a word is no number,
// which a line on standard error says. The programs' own `main`s end with 0; those of tools/program end with what is answered here.
#![tactic(auto)]

pub mod fields;
pub mod tell;

ghost use Rattle.std.specs.Prelude.{◌≡◌, ◌<◌, length};

use crate::fields::Output;
use std::env::Env;
use std::fs::File;
use std::rt::Files;
use std::{io, str};

// Room for any listing: three lines, and 8,192 of at most 50 bytes.
fn room() -> [u8; 409684]
    ensures { 409684 ≡ length result }
{
    [0; 409684]
}

// Writes the listing of a bundle: 0 where all is done, 1 where something is refused, 2 where it cannot be written.
fn write<R: Print + Eprint>(rt: &R, bundle: &[u8]) -> i32 {
    let mut out = room();
    let listed = listing::listing(bundle, &mut out);
    let n = listed.bytes;
    if let Err(error) = rt.write_all(&out[..n]) {
        crate::fields::fail(rt, b"apply: standard output", error);
        return 2;
    }
    if listed.number == 0 { 0 } else { 1 }
}

// `apply`: the listing of the bundle on standard input. What is written is what `listing` promises.
pub fn chukelowa_program_apply<R: Input + Print + Eprint>(rt: &R) -> i32 {
    let mut input = [0u8; 45057];
    match crate::fields::read_full(&mut rt.reader(), &mut input) {
        Ok(n) => write(rt, &input[..n]),
        Err(error) => {
            crate::fields::fail(rt, b"apply: standard input", error);
            2
        }
    }
}

fn answers_usage<R: Eprint>(rt: &R) -> i32 {
    crate::fields::usage(rt, "answers [WORK RESULT]");
    2
}

// `answers`: the answers to the bundle on standard input, with so many rows lent.
fn answers<R: Input + Print + Eprint>(rt: &R, work: usize, res: usize) -> i32 {
    let mut out = crate::fields::begin(rt);
    if let Err(error) = crate::tell::answers(&mut rt.reader(), &mut out, work, res) {
        crate::fields::fail(rt, b"answers: standard input", error);
        return 2;
    }
    if crate::fields::failed(out, b"answers: standard output") {
        2
    } else {
        0
    }
}

pub fn chukelowa_program_answers<R: Env + Input + Print + Eprint>(rt: &R) -> i32 {
    let Some(work) = crate::fields::rows_argument(rt, 1, 6144) else {
        return answers_usage(rt);
    };
    let Some(result) = crate::fields::rows_argument(rt, 2, 8192) else {
        return answers_usage(rt);
    };
    answers(rt, work, result)
}

// The answers to the bundle at a path; an error where it cannot be read, or the path is no text.
fn file<R: Files + Print>(
    rt: &R,
    out: &mut Output<'_, R>,
    path: &[u8],
    work: usize,
    res: usize,
) -> io::Result<()> {
    let Ok(path) = str::from_utf8(path) else {
        return Err(io::Error::from(io::ErrorKind::InvalidFilename));
    };
    crate::tell::answers(&mut File::open(rt, path)?, out, work, res)
}

// A case of `cases`, with a line before it that repeats its words; false ends the program.
fn one<R: Env + Files + Print + Eprint>(rt: &R, name: usize, work: usize, res: usize) -> bool {
    let mut path = crate::fields::word();
    let n = rt.arg(name, &mut path).unwrap_or(0);
    let mut out = crate::fields::begin(rt);
    crate::fields::put(&mut out, &path[..n]);
    crate::fields::field(&mut out, work);
    crate::fields::field(&mut out, res);
    crate::fields::put(&mut out, b"\n");
    if let Err(error) = file(rt, &mut out, &path[..n], work, res) {
        crate::fields::fail(rt, &path[..n], error);
        return false;
    }
    !crate::fields::failed(out, b"cases: standard output")
}

fn cases_usage<R: Eprint>(rt: &R) -> bool {
    crate::fields::usage(rt, "cases [BUNDLE WORK RESULT]..");
    false
}

// The case whose first word is argument `at`.
fn words<R: Env + Files + Print + Eprint>(rt: &R, at: usize) -> bool
    requires { at < 18446744073709551614 }
{
    let Some(work) = crate::fields::rows_argument(rt, at + 1, 6144) else {
        return cases_usage(rt);
    };
    let Some(result) = crate::fields::rows_argument(rt, at + 2, 8192) else {
        return cases_usage(rt);
    };
    one(rt, at, work, result)
}

// `cases`: the answers to stored bundles, three words a case.
pub fn chukelowa_program_cases<R: Env + Files + Print + Eprint>(rt: &R) -> i32 {
    for i in 0..crate::fields::argument_count(rt) / 3 {
        if !words(rt, 3 * i + 1) {
            return 2;
        }
    }
    0
}
