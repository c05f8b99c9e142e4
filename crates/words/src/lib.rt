// 16-bit words, low byte first, in byte slices. Above this crate nobody knows how a word lies in bytes.
#![tactic(auto)]

ghost use Rattle.std.specs.Prelude.{◌≡◌, ◌+◌, ◌*◌, ◌<◌, length};
ghost use Rattle.meaning.specs.Words.{word_at, zeroed};
ghost use Rattle.words.specs.Puts.{put_word};

// Word `i` of the bytes `b`, all of it there.
pub fn word_in(b: &[u8], i: usize) -> usize
    requires { 2 * i + 1 < length b.now }
    ensures is { result ≡ word_at b.now i }
    ensures small { result < 65536 }
{
    usize::from(u16::from_le_bytes([b[2 * i], b[2 * i + 1]]))
}

// Word `i` of the bytes `b`; what lies past their end reads as 0.
pub fn word_at(b: &[u8], i: usize) -> usize
    requires { i < 1099511627776 }
    ensures is { result ≡ word_at b.now i }
    ensures small { result < 65536 }
{
    let at = 2 * i;
    if at + 1 < b.len() {
        return word_in(b, i);
    }
    match b.get(at) {
        Some(low) => usize::from(*low),
        None => 0,
    }
}

// Sets word `i` of the bytes `b` to `v`, of which the low 16 bits count.
// `to_le_bytes` is no plainer here: it asks for `v % 65536` as a u16.
pub fn put_word(b: &mut [u8], i: usize, v: usize)
    requires { 2 * i + 1 < length b.old }
    ensures { b.new ≡ put_word b.old i v }
{
    b[2 * i] = (v % 256) as u8;
    b[2 * i + 1] = (v / 256 % 256) as u8;
}

// Sets every byte of `b` to 0.
pub fn zero(b: &mut [u8])
    ensures { b.new ≡ zeroed b.old }
{
    b.fill(0)
}
