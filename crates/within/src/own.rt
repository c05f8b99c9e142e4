// A type written out.
ghost use Rattle.std.specs.Prelude.{◌≡◌, ◌≤◌, ◌<◌, ◌+◌, IsOk, IsErr, replicate};
ghost use Rattle.meaning.specs.Sheet.{script_of};
ghost use Rattle.meaning.specs.Types.{size};
ghost use Rattle.type_rows.specs.Grown.{type_in, ty_in, Grows};
ghost use Rattle.type_rows.specs.Writing.{Blank, Written};

use crate::Wide;
use sheet::Sheet;

// Its 512 rows, the last its own; those up to row `low` are blank.
#[derive(Drop)]
pub struct Own {
    pub bytes: [u8; 3072],
    pub low: usize,
    ghost blank: { Blank bytes low },
}

impl Own {
    // None is written yet.
    pub fn new() -> Own
        ensures { result.bytes ≡ replicate 3072 0 }
    {
        Own {
            bytes: [0; 3072],
            low: 511,
        }
    }

    // The type at row `found`, of which `used` lent rows count, over rows that are blank. Written where it lies: 3 KB are not handed on.
    pub fn write(&mut self, s: &Sheet, work: &[u8], used: usize, found: usize) -> Result<(), Wide>
        requires grows { Grows s.now work.now used × (found ≤ (script_of s.now).types + used) × (found < 65536) }
        requires none { self.old.bytes ≡ replicate 3072 0 }
        ensures written { IsOk result → Written (type_in s.now work.now used) found self.new.bytes }
        ensures narrow { IsOk result → size (ty_in s.now work.now used found) ≤ 512 }
        ensures over { IsErr result → 512 < size (ty_in s.now work.now used found) }
    {
        let low = type_rows::written::write_out(s, work, used, found, &mut self.bytes);
        let Some(low) = low else {
            self.bytes.fill(0);
            self.low = 511;
            return Err(Wide);
        };
        self.low = low;
        Ok(())
    }
}
