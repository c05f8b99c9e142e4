// Texts by their bytes: a text is an offset and a length in the sheet's pool.
ghost use Rattle.std.specs.Prelude.{◌≡◌, ◌<◌, get_or};
ghost use Rattle.meaning.specs.Sheet.{grove_of};
ghost use Rattle.meaning.specs.Forest.{bytes_from, equal_bytes};

// Byte `i`; what lies past the end reads as 0.
fn byte_at(s: &[u8], i: usize) -> u8
    ensures { result ≡ get_or s.now i 0 }
{
    s.get(i).copied().unwrap_or(0)
}

// Whether two places of the pool hold the same bytes.
pub fn same_bytes(s: &[u8], o: usize, n: usize, p: usize, m: usize) -> bool
    requires { (o < 65536) × (n < 65536) × (p < 65536) × (m < 65536) }
    ensures { result ≡ equal_bytes (bytes_from (grove_of s.now).byte o n) (bytes_from (grove_of s.now).byte p m) }
{
    if n != m {
        return false;
    }
    let at = sheet::pool_from(s);
    for i in 0..n {
        if byte_at(s, at + o + i) != byte_at(s, at + p + i) {
            return false;
        }
    }
    true
}
