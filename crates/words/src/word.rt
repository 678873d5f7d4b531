// Words: a literal holds one group; a fill counts groups of one bit.
ghost use Rattle.std.specs.Prelude.{◌≡◌, ◌<◌, ◌/◌, ◌%◌, leb};
ghost use Rattle.words.specs.Words.{Run, word_of, run_of, span, group_in};

// The group of 31 ones.
pub const ALL_ONES: u32 = 0x7FFFFFFF;

// Bit 31: set in a fill, clear in a literal.
pub fn is_fill(word: u32) -> bool
    ensures { result ≡ leb 0x80000000 word }
{
    word >> 31 == 1
}

// Bit 30: the bit of a fill.
pub fn fill_bit(word: u32) -> u32
    ensures { result ≡ word / 0x40000000 % 2 }
{
    (word >> 30) & 1
}

// Bits 31 and 30: both are set in a fill of ones.
pub fn is_ones_fill(word: u32) -> bool
    ensures { result ≡ leb 0xC0000000 word }
{
    word >> 30 == 3
}

// Bits 29 to 0: how many groups a fill covers.
pub fn fill_count(word: u32) -> u32
    ensures { result ≡ word % 0x40000000 }
{
    word & 0x3FFFFFFF
}

// The word of a fill.
pub fn fill_word(bit: u32, count: u32) -> u32
    requires { (bit < 2) × (count < 0x40000000) }
    ensures { result ≡ word_of (Run.fill bit count) }
{
    (1 << 31) + (bit << 30) + count
}

// How many groups a word covers.
pub fn span_of(word: u32) -> u32
    ensures { result ≡ span (run_of word) }
{
    if is_fill(word) { fill_count(word) } else { 1 }
}

// The group that stands in each of them.
pub fn group_in(word: u32) -> u32
    ensures { result ≡ group_in (run_of word) }
{
    if is_fill(word) {
        fill_bit(word) * ALL_ONES
    } else {
        word
    }
}
