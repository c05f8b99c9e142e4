// Blocks of 512 bytes: a number, 508 bytes of payload and a check, in and out.
#![tactic(auto)]

ghost use Rattle.std.specs.Prelude.{◌≡◌, ◌&&◌, ◌++◌, ◌+◌, ◌*◌, ◌%◌, ◌<◌, ◌≤◌, length, take, drop};
ghost use Rattle.std.proofs.Math.Seq.{paste};
ghost use Rattle.meaning.specs.Tests.{every};
ghost use Rattle.meaning.specs.Bundle.{word_sum, block, blocks, payload, all_zero};
ghost use Rattle.bundle_blocks.specs.Blocks.{number_ok, check_ok, stored};

use words::{put_word, word_at};

// The bytes of a block, and those of its payload.
pub const BLOCK: usize = 512;

pub const PAYLOAD: usize = 508;

// The sum of the first 255 words of block `k`, counted from 0, modulo 65,535.
fn check_word(b: &[u8], k: usize) -> usize
    requires { k < 65536 }
    ensures { result ≡ word_sum (drop (512 * k) b.now) 255 % 65535 }
{
    let mut sum = 0;
    for i in 0..255 {
        sum += word_at(b, 256 * k + i);
    }
    sum % 65535
}

// Whether block `k`, counted from 0, has its number and its check.
fn block_ok(b: &[u8], k: usize) -> bool
    requires { (k < 65535) × (512 * k + 512 ≤ length b.now) }
    ensures { result ≡ (number_ok b.now (k + 1) && check_ok b.now (k + 1)) }
{
    let number = word_at(b, 256 * k);
    let check = word_at(b, 256 * k + 255);
    number == k + 1 && check == check_word(b, k)
}

// Each of `m` blocks has its number and its check.
pub fn blocks_ok(b: &[u8], m: usize) -> bool
    requires { (m < 65536) × (512 * m ≤ length b.now) }
    ensures { result ≡ (every (number_ok b.now) m && every (check_ok b.now) m) }
{
    (0..m).all(|k| block_ok(b, k))
}

// Copies the payload of block `k`, counted from 0.
fn unpack_block(b: &[u8], k: usize, out: &mut [u8])
    requires { (k < 65536) × (512 * k + 512 ≤ length b.now) × (508 * k + 508 ≤ length out.old) }
    ensures { out.new ≡ paste out.old (508 * k) (drop (512 * k + 2) b.now) 508 }
{
    let from = BLOCK * k + 2;
    out[PAYLOAD * k..PAYLOAD * k + PAYLOAD].copy_from_slice(&b[from..from + PAYLOAD]);
}

// The payload of `m` blocks, from the front of `out` on.
pub fn unpack(b: &[u8], m: usize, out: &mut [u8])
    requires { (m < 65536) × (512 * m ≤ length b.now) × (508 * m ≤ length out.old) }
    ensures { out.new ≡ payload m b.now ++ drop (508 * m) out.old }
{
    for k in 0..m {
        unpack_block(b, k, out);
    }
}

// Whether each byte from `from` on, up to `to`, is 0. No `skip(from)`: that goes over what it skips, a byte at a time.
pub fn all_zero(p: &[u8], from: usize, to: usize) -> bool
    requires { to ≤ length p.now }
    ensures { result ≡ all_zero (drop from (take to p.now)) }
{
    let part = &p[..to];
    part[part.len().min(from)..].iter().all(|byte| *byte == 0)
}

// Writes the payload of block `k`, counted from 0: what is left of the sheet, at most 508 bytes, and 0 behind it.
fn write_payload(sheet: &[u8], k: usize, out: &mut [u8])
    requires { (k < 65536) × (512 * k + 512 ≤ length out.old) }
    ensures { out.new ≡ stored out.old (512 * k + 2) (drop (508 * k) sheet.now) 508 }
{
    let rest = &sheet[sheet.len().min(PAYLOAD * k)..];
    let n = rest.len().min(PAYLOAD);
    let at = BLOCK * k + 2;
    out[at..at + PAYLOAD].fill(0);
    out[at..at + n].copy_from_slice(&rest[..n]);
}

// Writes block `k`, counted from 0: its number, its payload, its check.
fn write_block(sheet: &[u8], k: usize, out: &mut [u8])
    requires { (k < 65536) × (512 * k + 512 ≤ length out.old) }
    ensures { out.new ≡ take (512 * k) out.old ++ block (k + 1) (drop (508 * k) sheet.now) ++ drop (512 * k + 512) out.old }
{
    put_word(out, 256 * k, k + 1);
    write_payload(sheet, k, out);
    let check = check_word(out, k);
    put_word(out, 256 * k + 255, check);
}

// Writes `m` blocks of the sheet's `need` bytes.
pub fn write_blocks(s: &[u8], need: usize, m: usize, out: &mut [u8])
    requires { (m < 65536) × (need ≤ length s.now) × (512 * m ≤ length out.old) }
    ensures { out.new ≡ blocks m 1 (take need s.now) ++ drop (512 * m) out.old }
{
    let sheet = &s[..need];
    for k in 0..m {
        write_block(sheet, k, out);
    }
}
