// Sets of places as the bits of u64 words. A table of 513 sets lies in one array: set `k` is the nine words from word 9 k on, room for
// places 0 (End) to 575.
#![tactic(auto)]

ghost use Rattle.std.specs.Prelude.{◌≡◌, true, ◌+◌, ◌*◌, ◌/◌, ◌%◌, ◌^◌, ◌<◌, ◌≤◌, leb, get_or, length};
ghost use Rattle.std.specs.Int.Bits.{bit_and};
ghost use Rattle.std.specs.Int.Count.{count_trailing_zeros, ones};
ghost use Rattle.bits.specs.Sets.{in_set, in_both, Added, Removed, United, LowestBoth};
ghost use Rattle.bits.specs.Counts.{count_to};

// No heap: a table is one array that its caller lends, and a set or a place in it is a number.
// The words of a table of sets, and the table; the rows of a flag each, 0 and the 512 of types, and the flags; the places that a set
// has room for.
pub const WORDS: usize = 4617;

pub type Sets = [u64; WORDS];

pub const ROWS: usize = 513;

pub type Flags = [bool; ROWS];

pub const PLACES: usize = 576;

// 2 to the power of `k`.
pub fn power(k: usize) -> u64
    requires { k < 64 }
    ensures { result ≡ 2 ^ k }
{
    1u64 << k
}

// Whether place `i` is in set `k`.
pub fn has(t: &Sets, k: usize, i: usize) -> bool
    requires { (k ≤ 512) × (i < 576) }
    ensures { result ≡ in_set t.now k i }
{
    (t[9 * k + i / 64] >> (i % 64)) % 2 == 1
}

// Adds place `i` to set `k`.
pub fn add(t: &mut Sets, k: usize, i: usize)
    requires { (k ≤ 512) × (i < 576) }
    ensures { Added t.old t.new k i }
{
    let w = 9 * k + i / 64;
    t[w] |= power(i % 64);
}

// Takes place `i` out of set `k`.
pub fn remove(t: &mut Sets, k: usize, i: usize)
    requires k_bound { (k ≤ 512) × (i < 576) }
    requires i_value { in_set t.old k i ≡ true }
    ensures { Removed t.old t.new k i }
{
    let w = 9 * k + i / 64;
    t[w] ^= power(i % 64);
}

// Adds the members of one set, which the nine `words` are, to set `k`.
fn unite_words(t: &mut Sets, k: usize, words: &[u64])
    requires { (k ≤ 512) × (length words.now ≡ 9) }
    ensures { United t.old t.new k words.now 0 }
{
    for (w, word) in words.iter().enumerate() {
        t[9 * k + w] |= *word;
    }
}

// Adds the members of set `j` of `u` to set `k`.
pub fn unite(t: &mut Sets, k: usize, u: &Sets, j: usize)
    requires { (k ≤ 512) × (j ≤ 512) }
    ensures { United t.old t.new k u.now j }
{
    unite_words(t, k, &u[9 * j..9 * j + 9]);
}

// The same within one table.
pub fn unite_in(t: &mut Sets, k: usize, j: usize)
    requires { (k ≤ 512) × (j ≤ 512) }
    ensures { United t.old t.new k t.old j }
{
    let mut words = [0; 9];
    words.copy_from_slice(&t[9 * j..9 * j + 9]);
    unite_words(t, k, &words);
}

// The lowest digit 1 of a word, 64 where there is none. Here and below the cast loses nothing, and std has no `From` for it.
fn low(x: u64) -> usize
    ensures { (result ≡ count_trailing_zeros 64 x) × (result ≤ 64) }
{
    x.trailing_zeros() as usize
}

// How many digits of a word are 1.
fn ones_of(x: u64) -> usize
    ensures { (result ≡ ones x) × (result ≤ 64) }
{
    x.count_ones() as usize
}

// What word `w` of set `k` of `t` and of set `j` of `u` have in common.
fn both(t: &Sets, k: usize, u: &Sets, j: usize, w: usize) -> u64
    requires { (k ≤ 512) × (j ≤ 512) × (w < 9) }
    ensures { result ≡ bit_and (get_or t.now (9 * k + w) 0) (get_or u.now (9 * j + w) 0) }
{
    t[9 * k + w] & u[9 * j + w]
}

// The lowest place of word `first` or a later one that is in both sets; 576 where there is none.
fn lowest_word(t: &Sets, k: usize, u: &Sets, j: usize, first: usize) -> usize
    requires { (k ≤ 512) × (j ≤ 512) × (first ≤ 9) }
    ensures { LowestBoth t.now k u.now j (64 * first) result }
{
    for w in first..9 {
        let x = both(t, k, u, j, w);
        if x != 0 {
            return 64 * w + low(x);
        }
    }
    PLACES
}

// The lowest place from `from` on that is in set `k` of `t` and in set `j` of `u`; 576, the place past all, where there is none.
// No Option, which would be no plainer: callers search on from the place after it, and where `several_both` holds there is one.
pub fn lowest_both(t: &Sets, k: usize, u: &Sets, j: usize, from: usize) -> usize
    requires { (k ≤ 512) × (j ≤ 512) }
    ensures { LowestBoth t.now k u.now j from result }
{
    let w = from / 64;
    if 9 <= w {
        return PLACES;
    }
    let x = both(t, k, u, j, w) >> (from % 64);
    if x != 0 {
        return from + low(x);
    }
    lowest_word(t, k, u, j, w + 1)
}

// Whether two places or more are in both. All nine words are counted: a test of each costs more than it spares.
pub fn several_both(t: &Sets, k: usize, u: &Sets, j: usize) -> bool
    requires { (k ≤ 512) × (j ≤ 512) }
    ensures { result ≡ leb 2 (count_to (in_both t.now k u.now j) 576) }
{
    let mut n = 0;
    for w in 0..9 {
        n += ones_of(both(t, k, u, j, w));
    }
    1 < n
}
