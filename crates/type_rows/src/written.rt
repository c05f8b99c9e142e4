// A type as a check keeps it, whose rows may share their parts, written out: one user a row, at most 512 rows, names not opened.
ghost use Rattle.std.specs.Prelude.{◌≡◌, ℕ, ◌+◌, ◌-◌, ◌<◌, ◌≤◌, replicate, ◌⊎◌, IsSome, IsNone, IfSome};
ghost use Rattle.meaning.specs.Sheet.{script_of};
ghost use Rattle.meaning.specs.Types.{size};
ghost use Rattle.sheet.specs.Laid.{cells_of};
ghost use Rattle.type_rows.specs.Grown.{type_in, ty_in, Grows};
ghost use Rattle.type_rows.specs.Writing.{parts_of, Put, Handed, Written, Blank};

use bits::ROWS;
use sheet::{Row, Sheet};

// How many parts a row of a kind has. Here and in `hand_out` kinds stay numbers: a row is copied as it lies, kind and all, and a row
// that says nothing keeps its number.
fn parts(kind: u16) -> usize
    ensures { result ≡ parts_of kind }
{
    match kind {
        4 => 1,
        5 | 6 => 2,
        7 => 1,
        0..=3 | 8..=65535 => 0,
    }
}

// Writes row `i`.
fn put(own: &mut [u8; 3072], i: usize, kind: usize, p: usize, q: usize)
    requires le_i { (1 ≤ i) × (i ≤ 512) × (kind < 65536) × (p < 65536) × (q < 65536) }
    ensures { Put own.old own.new i (record { kind = kind; p = p; q = q; r = 0 }) }
{
    let at = 3 * (i - 1);
    words::put_word(own, at, kind);
    words::put_word(own, at + 1, p);
    words::put_word(own, at + 2, q);
}

// Writes row `i` for the row `c`, and hands its parts the rows `free` and below.
fn hand_out(own: &mut [u8; 3072], from: &mut [usize; ROWS], i: usize, c: Row, free: usize)
    requires le_i { (1 ≤ i) × (i ≤ 512) × (free < 512) × (parts_of c.kind ≤ free) × ((c.kind ≡ 4) ⊎ (c.kind ≡ 8) → c.p < 65536) }
    ensures { Handed own.old own.new from.old from.new i (cells_of c) free }
{
    let kind = c.kind;
    match kind {
        4 => {
            from[free] = c.q;
            put(own, i, 4, c.p, free);
        }
        5 | 6 => {
            from[free] = c.p;
            from[free - 1] = c.q;
            put(own, i, usize::from(kind), free, free - 1);
        }
        7 => {
            from[free] = c.p;
            put(own, i, 7, free, 0);
        }
        8 => put(own, i, 8, c.p, 0),
        0..=3 | 9..=65535 => put(own, i, usize::from(kind), 0, 0),
    }
}

// Writes the type at row `found` out, of which `used` lent rows count: it stands at row 512, and the parts of each row get the next
// free rows below.
// The answer is how many rows stay blank below them, so that nobody need look at those; none where more than 512 rows are needed.
pub fn write_out(
    s: &Sheet,
    work: &[u8],
    used: usize,
    found: usize,
    own: &mut [u8; 3072],
) -> Option<usize>
    requires grows { Grows s.now work.now used × (found ≤ (script_of s.now).types + used) × (found < 65536) }
    requires own_value { own.old ≡ replicate 3072 0 }
    ensures written { IsSome result → Written (type_in s.now work.now used) found own.new }
    ensures narrow { IsSome result → size (ty_in s.now work.now used found) ≤ 512 }
    ensures blank { IfSome result (λ low. Blank own.new low) }
    ensures over { IsNone result → 512 < size (ty_in s.now work.now used found) }
{
    let mut from = [0usize; ROWS];
    from[512] = found;
    let mut free = 511;
    for i in (1..=512).rev() {
        if i <= free {
            break;
        }
        let c = crate::row(s, work, from[i]);
        let rest = free.checked_sub(parts(c.kind))?;
        hand_out(own, &mut from, i, c, free);
        free = rest;
    }
    Some(free)
}
