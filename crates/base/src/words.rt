// Integers as words: 16 or 32 bits in two's complement.
ghost use Rattle.std.specs.Prelude.{◌≡◌, ◌*◌, ◌%◌, ◌^◌, pos};
ghost use Rattle.std.specs.Int.Signed.{quot_z};
ghost use Rattle.base.specs.Words.{low, signed16, signed32};

// The low 16 bits of a word.
pub fn low16(word: u32) -> u16
    ensures { result ≡ word % 2 ^ 16 }
{
    (word % 65536) as u16
}

// The low 32 bits of a word.
pub fn low32(word: u64) -> u32
    ensures { result ≡ word % 2 ^ 32 }
{
    (word % 4294967296) as u32
}

// The word of an i16.
pub fn i16_to_word(x: i16) -> u16
    ensures { result ≡ low 16 x }
{
    i16::cast_unsigned(x)
}

// The word of an i32.
pub fn i32_to_word(x: i32) -> u32
    ensures { result ≡ low 32 x }
{
    i32::cast_unsigned(x)
}

// The i16 of a word.
pub fn word_to_i16(word: u16) -> i16
    ensures { result ≡ signed16 word }
{
    u16::cast_signed(word)
}

// The i32 of a word.
pub fn word_to_i32(word: u32) -> i32
    ensures { result ≡ signed32 word }
{
    u32::cast_signed(word)
}

// A product kept to 32 bits.
pub fn wrapping_mul(a: u32, b: u32) -> u32
    ensures { result ≡ (a * b) % 2 ^ 32 }
{
    a.wrapping_mul(b)
}

// A word, read as signed, divided by 16384 towards zero.
pub fn divide_by_16384(word: u32) -> u32
    ensures { result ≡ low 32 (quot_z (signed32 word) (pos 16384)) }
{
    i32_to_word(word_to_i32(word) / 16384)
}
