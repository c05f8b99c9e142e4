// What the programs print and read besides the answers: numbers as fields of a line, a result's rows, and a number in an argument.
ghost use Rattle.std.specs.Prelude.{◌≡◌, ◌<◌, ◌≤◌, ◌↔◌, length, IfOk, IsTrue};

use std::env::{Env, FillError};
use std::io::Read;
use std::{io, str};

// Standard output, and how writing to it went so far: what comes behind a write that failed is let go.
#[derive(Drop)]
pub struct Output<'a, P> {
    to: &'a P,
    written: io::Result<()>,
}

// Bytes as they are.
pub fn put<P: Print>(out: &mut Output<'_, P>, bytes: &[u8]) {
    if out.written.is_ok() {
        out.written = out.to.write_all(bytes);
    }
}

// A number, and a number as a field of a line.
fn number<P: Print>(out: &mut Output<'_, P>, x: usize) {
    if out.written.is_ok() {
        out.written = out.to.print(x);
    }
}

pub fn field<P: Print>(out: &mut Output<'_, P>, x: usize) {
    put(out, b" ");
    number(out, x);
}

// A row of a result: its number and its four words.
fn row_line<P: Print>(out: &mut Output<'_, P>, res: &[u8], r: usize)
    requires { (0 < r) × (r < 65536) }
{
    let c = forest_rows::any_row(res, r);
    number(out, r);
    line(out, b"", &[usize::from(c.kind), c.p, c.q, c.r]);
}

pub fn row_lines<P: Print>(out: &mut Output<'_, P>, res: &[u8], root: usize)
    requires { root < 65536 }
{
    for r in 1..=root {
        row_line(out, res, r);
    }
}

// A line: a word, and the numbers told of it (`listing::lines::line` writes such a line into bytes).
pub fn line<P: Print>(out: &mut Output<'_, P>, word: &[u8], numbers: &[usize]) {
    put(out, word);
    for &x in numbers {
        field(out, x);
    }
    put(out, b"\n");
}

// A digit more behind a number; what is past a million stays there.
fn digit(x: usize, byte: u8) -> usize {
    if x <= 1000000 && byte.is_ascii_digit() {
        10 * x + usize::from(byte - 48)
    } else {
        x
    }
}

// The number that the bytes write in decimal, if they do.
fn decimal(text: &[u8]) -> Option<usize> {
    if text.is_empty() {
        return None;
    }
    let mut x = 0;
    for &byte in text {
        if !byte.is_ascii_digit() {
            return None;
        }
        x = digit(x, byte);
    }
    Some(x)
}

// Room for a word, which is no longer than a path is.
pub fn word() -> [u8; 4096]
    ensures { 4096 ≡ length result }
{
    [0; 4096]
}

// The rows that argument `i` says, or `other` where there is no such argument; none where it is no number.
pub fn rows_argument<R: Env>(rt: &R, i: usize, other: usize) -> Option<usize> {
    let mut text = word();
    match rt.arg(i, &mut text) {
        Ok(n) => decimal(&text[..n]),
        Err(FillError::NotPresent) => Some(other),
        Err(FillError::TooLong) => None,
    }
}

// How many arguments there are, the program's own name among them.
pub fn argument_count<R: Env>(rt: &R) -> usize {
    for i in 0..usize::MAX {
        if let Err(FillError::NotPresent) = rt.arg(i, &mut []) {
            return i;
        }
    }
    usize::MAX
}

// A line on standard error: how a program is called.
pub fn usage<R: Eprint>(rt: &R, words: &str) {
    let _ = eprintln!(rt; "usage: {words}");
}

// A line on standard error: what failed, a name with its bytes escaped where it is no text, and why.
pub fn fail<R: Eprint>(rt: &R, what: &[u8], error: io::Error) {
    let _ = match str::from_utf8(what) {
        Ok(text) => eprintln!(rt; "{text}: {error}"),
        Err(_) => eprintln!(rt; "{}: {error}", what.escape_ascii()),
    };
}

// Has the input ended: asked of a read that has room, since one that fails says so itself.
pub fn ended(read: usize) -> bool
    ensures { IsTrue result ↔ (read ≡ 0) }
{
    read == 0
}

// Reads until the bytes are full or the input has ended: how many there are.
pub fn read_full<I: Read>(input: &mut I, bytes: &mut [u8]) -> io::Result<usize>
    ensures { IfOk result (λ n. n ≤ length bytes.new) }
{
    let mut done = 0;
    while done < bytes.len() {
        let read = input.read(&mut bytes[done..])?;
        if ended(read) {
            return Ok(done);
        }
        done += read;
    }
    Ok(done)
}

// Standard output, to which no write has failed so far.
pub fn begin<P: Print>(rt: &P) -> Output<'_, P> {
    Output {
        to: rt,
        written: Ok(()),
    }
}

// Has a write failed since `begin`. Says so on standard error.
pub fn failed<R: Print + Eprint>(out: Output<'_, R>, what: &[u8]) -> bool {
    match out.written {
        Ok(()) => false,
        Err(error) => {
            fail(out.to, what, error);
            true
        }
    }
}
