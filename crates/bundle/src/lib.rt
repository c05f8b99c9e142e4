// Bundles in and out. The reader gives 1, 2, 13; the writer 2, 13. One rule writes and reads.
#![tactic(auto)]

ghost use Rattle.std.specs.Prelude.{◌≡◌, ◌<◌, ◌≤◌, length, take};
ghost use Rattle.meaning.specs.Sheet.{need};
ghost use Rattle.meaning.specs.Bundle.{blocks_for};
ghost use Rattle.meaning.specs.Reply as reply;
ghost use Rattle.bundle.specs.Calls.{Opens, replied};

use bundle_blocks::{BLOCK, PAYLOAD};

// A bundle has at most `MOST` blocks, and `LARGEST` bytes are their payload.
const MOST: usize = 88;

pub const LARGEST: usize = 44704;

// Why nothing was copied: the blocks are no bundle (1), their sheet has no shape (2), what was lent is too short (13).
#[derive(Clone, Copy, Debug, PartialEq, Eq)]
pub enum Refused {
    Block,
    Shape,
    Room,
}

// The bytes that the counts in the first `size` bytes ask for.
fn need_in(p: &[u8], size: usize) -> usize
    requires { size ≤ length p.now }
    ensures value { result ≡ need (take size p.now) }
    ensures upper_bound { result < 4194304 }
{
    sheet::need_of(&p[..size])
}

// How many blocks `need` bytes take.
fn blocks_for(need: usize) -> usize
    ensures { result ≡ blocks_for need }
{
    need.div_ceil(PAYLOAD)
}

// Opens a bundle: its payload goes to `out`; the sheet is as many bytes of it as are answered, unless a test fails.
fn open(b: &[u8], out: &mut [u8; LARGEST]) -> Option<usize>
    ensures { Opens b.now out.new result }
{
    let n = b.len();
    if n % BLOCK != 0 {
        return None;
    }
    let m = n / BLOCK;
    if m == 0 {
        return None;
    }
    if MOST < m {
        return None;
    }
    if !bundle_blocks::blocks_ok(b, m) {
        return None;
    }
    bundle_blocks::unpack(b, m, out);
    let size = PAYLOAD * m;
    let need = need_in(out, size);
    if m != blocks_for(need) {
        return None;
    }
    if !bundle_blocks::all_zero(out, need, size) {
        return None;
    }
    Some(need)
}

// Reads a bundle into the lent tables: what is past the sheet, or all of them if it is refused, stays as it was.
pub fn read(b: &[u8], tables: &mut [u8]) -> Result<(), Refused>
    ensures { replied result tables.new ≡ reply.read b.now tables.old }
{
    let mut payload = [0; LARGEST];
    let need = open(b, &mut payload).ok_or(Refused::Block)?;
    if !shape::shapely(&payload[..need]) {
        return Err(Refused::Shape);
    }
    if tables.len() < need {
        return Err(Refused::Room);
    }
    tables[..need].copy_from_slice(&payload[..need]);
    Ok(())
}

// Writes a sheet as a bundle into the lent blocks: what is past the bundle, or all of them if it is refused, stays as it was.
pub fn write(s: &[u8], out: &mut [u8]) -> Result<(), Refused>
    ensures { replied result out.new ≡ reply.write s.now out.old }
{
    if !shape::shapely(s) {
        return Err(Refused::Shape);
    }
    let need = sheet::need_of(s);
    let m = blocks_for(need);
    if out.len() < BLOCK * m {
        return Err(Refused::Room);
    }
    bundle_blocks::write_blocks(s, need, m, out);
    Ok(())
}
