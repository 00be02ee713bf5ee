// Little-endian numbers in byte slices. A `requires` here is a place that the caller has tested
// against the slice's length.
ghost use Rattle.std.specs.Prelude.{◌≡◌, ◌+◌, ◌*◌, ◌≤◌, length, get_or};
ghost use Rattle.std.proofs.lemmas.List.Edits.{sets};
ghost use Rattle.base.specs.Buffers.{over};
ghost use Rattle.base.specs.Bytes.{little_endian, bytes_of, u16_at, u32_at, u64_at};

// The byte at a place, 0 past the end.
pub fn byte_at(s: &[u8], at: usize) -> usize
    ensures { (result ≡ get_or s.now at 0) × (result ≤ 255) }
{
    usize::from(s.get(at).copied().unwrap_or(0))
}

// The two bytes at place `at`.
pub fn read_u16(s: &[u8], at: usize) -> u16
    requires { at + 2 ≤ length s.now }
    ensures { result ≡ little_endian 2 s.now at }
{
    u16::from_le_bytes([s[at], s[at + 1]])
}

// The four bytes at place `at`.
pub fn read_u32(s: &[u8], at: usize) -> u32
    requires { at + 4 ≤ length s.now }
    ensures { result ≡ little_endian 4 s.now at }
{
    u32::from_le_bytes([s[at], s[at + 1], s[at + 2], s[at + 3]])
}

// The eight bytes at place `at`.
pub fn read_u64(s: &[u8], at: usize) -> u64
    requires { at + 8 ≤ length s.now }
    ensures { result ≡ little_endian 8 s.now at }
{
    u64::from_le_bytes([
        s[at],
        s[at + 1],
        s[at + 2],
        s[at + 3],
        s[at + 4],
        s[at + 5],
        s[at + 6],
        s[at + 7],
    ])
}

// Element i of a packed array of u16.
pub fn u16_at(s: &[u8], i: usize) -> u16
    requires { 2 * i + 2 ≤ length s.now }
    ensures { result ≡ u16_at s.now i }
{
    read_u16(s, 2 * i)
}

// Element i of a packed array of u32.
pub fn u32_at(s: &[u8], i: usize) -> u32
    requires { 4 * i + 4 ≤ length s.now }
    ensures { result ≡ u32_at s.now i }
{
    read_u32(s, 4 * i)
}

// Element i of a packed array of u64.
pub fn u64_at(s: &[u8], i: usize) -> u64
    requires { 8 * i + 8 ≤ length s.now }
    ensures { result ≡ u64_at s.now i }
{
    read_u64(s, 8 * i)
}

// Stores v in the two bytes at place `at`.
pub fn write_u16(buf: &mut [u8], at: usize, v: u16)
    requires { at + 2 ≤ length buf.old }
    ensures { buf.new ≡ sets buf.old at (bytes_of 2 v) }
{
    buf[at..at + 2].copy_from_slice(&v.to_le_bytes());
}

// Stores v in the four bytes at place `at`.
pub fn write_u32(buf: &mut [u8], at: usize, v: u32)
    requires { at + 4 ≤ length buf.old }
    ensures { buf.new ≡ sets buf.old at (bytes_of 4 v) }
{
    buf[at..at + 4].copy_from_slice(&v.to_le_bytes());
}

// Stores v in the eight bytes at place `at`.
pub fn write_u64(buf: &mut [u8], at: usize, v: u64)
    requires { at + 8 ≤ length buf.old }
    ensures { buf.new ≡ sets buf.old at (bytes_of 8 v) }
{
    buf[at..at + 8].copy_from_slice(&v.to_le_bytes());
}

// Stores v as element i of a packed array of u16.
pub fn put_u16(buf: &mut [u8], i: usize, v: u16)
    requires { 2 * i + 2 ≤ length buf.old }
    ensures { buf.new ≡ sets buf.old (2 * i) (bytes_of 2 v) }
{
    write_u16(buf, 2 * i, v);
}

// Stores v as element i of a packed array of u32.
pub fn put_u32(buf: &mut [u8], i: usize, v: u32)
    requires { 4 * i + 4 ≤ length buf.old }
    ensures { buf.new ≡ sets buf.old (4 * i) (bytes_of 4 v) }
{
    write_u32(buf, 4 * i, v);
}

// Stores v as element i of a packed array of u64.
pub fn put_u64(buf: &mut [u8], i: usize, v: u64)
    requires { 8 * i + 8 ≤ length buf.old }
    ensures { buf.new ≡ sets buf.old (8 * i) (bytes_of 8 v) }
{
    write_u64(buf, 8 * i, v);
}

// Copies bytes to the front of a buffer.
pub fn copy(from: &[u8], buf: &mut [u8])
    requires { length from.now ≤ length buf.old }
    ensures { buf.new ≡ over from.now buf.old }
{
    buf[..from.len()].copy_from_slice(from);
}
