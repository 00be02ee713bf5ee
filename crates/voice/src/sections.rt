// Where a voice file's header, tables and index stand.
ghost use Rattle.std.specs.Prelude.{◌≡◌, true, ◌+◌, ◌^◌, ◌≤◌, ◌<◌, length};
ghost use Rattle.base.specs.Text.{ascii};
ghost use Rattle.base.specs.Bytes.{little_endian};
ghost use Rattle.container.specs.Sections as parts;
ghost use Rattle.voice.specs.Header.{good_header};
ghost use Rattle.voice.specs.Voice as voices;
ghost use Rattle.voice.specs.Opening.{has_needed};

use super::DiphoneVoice;
use base::Span;

// Whether the needed sections are there.
pub fn has_needed(file: &[u8]) -> bool
    ensures { result ≡ has_needed (parts.sections file.now).list }
{
    container::find(file, b"sts.header").is_some()
        && container::find(file, b"sts.lpc").is_some()
        && container::find(file, b"sts.resoffs").is_some()
        && container::find(file, b"sts.res").is_some()
        && container::find(file, b"dip.index").is_some()
}

// The index's count, at the front of its bytes; bytes that are missing count 0.
fn count_of(bytes: &[u8]) -> usize
    ensures { result ≡ little_endian 4 bytes.now 0 }
{
    base::bytes::byte_at(bytes, 0)
        + 256 * base::bytes::byte_at(bytes, 1)
        + 65536 * base::bytes::byte_at(bytes, 2)
        + 16777216 * base::bytes::byte_at(bytes, 3)
}

// The index's bytes after its count.
fn after_count(index: Span) -> Span
    requires { index.at < 2 ^ 63 }
    ensures { result ≡ voices.after_count index }
{
    Span {
        at: index.at + 4,
        len: index.len.saturating_sub(4),
    }
}

// The bytes of a part of the file.
pub fn bytes_at<'a>(file: &'a [u8], part: Span) -> &'a [u8]
    requires { part.at + part.len ≤ length file.now }
    ensures { result.now ≡ parts.bytes_at file.now part }
{
    let from = part.at;
    let end = from + part.len;
    &file[from..end]
}

// The header's bytes; none where the section is missing.
pub fn header_bytes<'a>(file: &'a [u8]) -> &'a [u8]
    ensures { result.now ≡
        parts.bytes_at file.now
        (parts.span_of (parts.find (ascii "sts.header") (parts.sections file.now).list)) }
{
    bytes_at(
        file,
        container::span_of(container::find(file, b"sts.header")),
    )
}

// Where the header, the tables and the index stand.
pub fn places_of(file: &[u8]) -> DiphoneVoice
    requires { good_header
        (parts.bytes_at file.now
        (parts.span_of (parts.find (ascii "sts.header") (parts.sections file.now).list))) ≡
        true }
    ensures { result ≡ voices.places_of file.now }
{
    let index = container::span_of(container::find(file, b"dip.index"));
    DiphoneVoice {
        header: super::header::header_of(header_bytes(file)),
        lpc: container::span_of(container::find(file, b"sts.lpc")),
        offsets: container::span_of(container::find(file, b"sts.resoffs")),
        sizes: container::find(file, b"sts.ressize"),
        residual: container::span_of(container::find(file, b"sts.res")),
        count: count_of(bytes_at(file, index)),
        entries: after_count(index),
    }
}
