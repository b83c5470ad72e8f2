// Words of 32 bits: from four bytes, and a table's checksum.
ghost use Rattle.std.specs.Prelude.{◌≡◌, ◌<◌, ◌^◌, slice_index};
ghost use Rattle.sweep.specs.Words.{four, word_of, mixed, checksum as checksum_of};

// Four bytes, lowest first, as a word.
pub fn word(bytes: [u8; 4]) -> i32
    ensures { result ≡ word_of (four (slice_index bytes 0) (slice_index bytes 1) (slice_index bytes 2) (slice_index bytes 3)) }
{
    i32::from_le_bytes(bytes)
}

// The checksum with one word more.
fn mix(sum: u32, x: i32) -> u32
    ensures { result ≡ mixed sum x }
{
    sum.wrapping_mul(16777619).wrapping_add(x.cast_unsigned())
}

// A table's checksum.
pub fn checksum(words: &[i32]) -> u32
    ensures { result ≡ checksum_of words.now }
{
    words.iter().fold(2166136261, |sum, x| mix(sum, *x))
}
