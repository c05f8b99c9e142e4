// The listing's text into a lent buffer: each function says what it adds behind the first `at` bytes, and answers where that ends.
ghost use Rattle.std.specs.Prelude.{◌≡◌, [], ◌∷◌, ◌++◌, ◌+◌, ◌*◌, ◌%◌, ◌≤◌, ◌<◌, length};
ghost use Rattle.meaning.specs.Listing.{digits, fields, row_lines};
ghost use Rattle.listing.specs.Adds.{Adds, row_line};

fn put(out: &mut [u8], at: usize, byte: u8) -> usize
    requires { at < length out.old }
    ensures adds { Adds (byte ∷ []) out.old at out.new result }
{
    out[at] = byte;
    at + 1
}

// The last digit of a number: of `n % 10` the cast loses nothing.
fn digit(n: usize) -> u8
    ensures { result ≡ 48 + n % 10 }
{
    48 + (n % 10) as u8
}

// A number in decimal, of at most k + 1 digits.
fn number(out: &mut [u8], at: usize, n: usize, k: usize) -> usize
    requires { at + k < length out.old }
    ensures adds { Adds (digits k n) out.old at out.new result }
{
    if k == 0 {
        return put(out, at, digit(n));
    }
    if n < 10 {
        return put(out, at, digit(n));
    }
    let mid = number(out, at, n / 10, k - 1);
    put(out, mid, digit(n))
}

// The bytes of a word.
fn word(out: &mut [u8], at: usize, text: &[u8]) -> usize
    requires { at + length text.now ≤ length out.old }
    ensures adds { Adds text.now out.old at out.new result }
{
    out[at..at + text.len()].copy_from_slice(text);
    at + text.len()
}

// A number with a space before it.
fn field(out: &mut [u8], at: usize, n: usize) -> usize
    requires { at + 10 ≤ length out.old }
    ensures adds { Adds (32 ∷ digits 8 n) out.old at out.new result }
    ensures few { result ≤ at + 10 }
{
    let mid = put(out, at, 32);
    number(out, mid, n, 8)
}

// A field for each number, and the line's end.
fn fields(out: &mut [u8], at: usize, numbers: &[usize]) -> usize
    requires { at + 10 * length numbers.now + 1 ≤ length out.old }
    ensures adds { Adds (fields numbers.now) out.old at out.new result }
    ensures few { result ≤ at + 10 * length numbers.now + 1 }
{
    let mut end = at;
    for &n in numbers {
        end = field(out, end, n);
    }
    put(out, end, 10)
}

// A question's line: its word, and what is told of it.
pub fn line(out: &mut [u8], at: usize, question: &[u8], numbers: &[usize]) -> usize
    requires { at + length question.now + 10 * length numbers.now + 1 ≤ length out.old }
    ensures adds { Adds (question.now ++ fields numbers.now) out.old at out.new result }
    ensures few { result ≤ at + length question.now + 10 * length numbers.now + 1 }
{
    let end = word(out, at, question);
    fields(out, end, numbers)
}

// The line of the row behind the first n: its number and its four words.
fn row(out: &mut [u8], at: usize, b: &[u8], n: usize) -> usize
    requires { (at + 50 ≤ length out.old) × (n < 65536) }
    ensures adds { Adds (row_line b.now n) out.old at out.new result }
    ensures few { result ≤ at + 50 }
{
    let i = 4 * n;
    let kind = words::word_at(b, i);
    let p = words::word_at(b, i + 1);
    let q = words::word_at(b, i + 2);
    let next = words::word_at(b, i + 3);
    let mid = number(out, at, n + 1, 8);
    fields(out, mid, &[kind, p, q, next])
}

// The lines of the first `root` rows.
pub fn rows(out: &mut [u8], at: usize, b: &[u8], root: usize) -> usize
    requires { (at + 50 * root ≤ length out.old) × (root < 65536) }
    ensures adds { Adds (row_lines b.now root) out.old at out.new result }
{
    let mut end = at;
    for n in 0..root {
        end = row(out, end, b, n);
    }
    end
}
