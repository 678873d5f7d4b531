// Eight rows at a time: their bytes gathered to a number of eight bits, the first row the highest, and
// such a number spread to bytes again. Both are arithmetic on all eight at once.
ghost use Rattle.std.specs.Prelude.{◌≡◌, true, ◌+◌, ◌/◌, ◌%◌, ◌^◌, ◌<◌, ◌≤◌, length, drop};
ghost use Rattle.std.proofs.lemmas.List.Edits.{sets};
ghost use Rattle.groups.specs.Rows.{are_bits, group_of, bits_of};
ghost use Rattle.groups.specs.Inner.{four_bytes, bytes_of};

pub fn wide(byte: u8) -> u32
    ensures { (result ≡ byte) × (result < 256) }
{
    u32::from(byte)
}

// Four bytes as one number, the first the lowest: the compiler reads them at once.
fn four_bytes(bytes: &[u8], at: usize) -> u32
    requires { at + 4 ≤ length bytes.now }
    ensures { result ≡ four_bytes bytes.now at }
{
    u32::from_le_bytes([bytes[at], bytes[at + 1], bytes[at + 2], bytes[at + 3]])
}

// The eight bits of a number that stand above its lowest `below` bits.
pub fn eight_bits(number: u64, below: u64) -> u8
    requires { below < 64 }
    ensures { result ≡ number / 2 ^ below % 256 }
{
    ((number >> below) & 255) as u8
}

// The number that eight rows spell, each 0 or 1, from row `at` on.
//
// A row of the first four shares a byte with a row of the last four. The product is the sum of four
// copies, so shifted that from bit 31 down to bit 24 it has the eight rows in order.
pub fn eight_rows(rows: &[u8], at: usize) -> u32
    requires { (are_bits rows.now ≡ true) × (at + 8 ≤ length rows.now) }
    ensures { (result ≡ group_of 8 (drop at rows.now)) × (result < 256) }
{
    let first = u64::from(four_bytes(rows, at));
    let last = u64::from(four_bytes(rows, at + 4));
    let copies = (first * 16 + last) * 0x08040201;
    wide(eight_bits(copies, 24))
}

// The rows that eight bits spell, 0 or 1, as the eight bytes of a number, the first row the lowest.
//
// Eight copies, each nine bits above the one before: byte i has the bit of row i as its highest. Of the
// last copy only that bit has room.
fn spread(eight: u8) -> u64
    ensures { bytes_of 8 result ≡ bits_of 8 eight }
{
    let bits = u64::from(eight);
    let copies = bits * 0x0040201008040201 + (bits & 1) * 0x8000000000000000;
    (copies >> 7) & 0x0101010101010101
}

// Writes the eight bytes of a number, the lowest first. The compiler writes them at once, as long as it
// knows nothing of the number: so this stands apart from `put_eight`. To copy `to_le_bytes` there by
// `copy_from_slice` would first test whether the two overlap.
fn put_bytes(out: &mut [u8], at: usize, number: u64)
    requires { at + 8 ≤ length out.old }
    ensures { out.new ≡ sets out.old at (bytes_of 8 number) }
{
    out[at] = eight_bits(number, 0);
    out[at + 1] = eight_bits(number, 8);
    out[at + 2] = eight_bits(number, 16);
    out[at + 3] = eight_bits(number, 24);
    out[at + 4] = eight_bits(number, 32);
    out[at + 5] = eight_bits(number, 40);
    out[at + 6] = eight_bits(number, 48);
    out[at + 7] = eight_bits(number, 56);
}

// Writes the rows that eight bits spell from row `at` on.
pub fn put_eight(out: &mut [u8], at: usize, eight: u8)
    requires { at + 8 ≤ length out.old }
    ensures { out.new ≡ sets out.old at (bits_of 8 eight) }
{
    put_bytes(out, at, spread(eight));
}
