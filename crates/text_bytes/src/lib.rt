// Whether two texts are the same bytes. A caller lends the part that it asks about, so no offset of one kind meets one of another.
// Bytes written to a buffer: those of a code point, or of a part of the text.
// Whether the text at an offset is another text. What is asked for past the end of the texts does not matter.
// Computes: Bytes, Utf8
#![tactic(auto)]

ghost use Rattle.std.specs.Prelude.{◌≡◌, ◌-◌, ◌≤◌, ◌<◌, ◌+◌, length};
ghost use Rattle.rules.specs.Bytes.{same};
ghost use Rattle.std.proofs.Math.Seq.{slice};
ghost use Rattle.rules.specs.Characters.{no_character};
ghost use Rattle.text_bytes.specs.Clauses.{WriteIs, EncodeIs};
ghost use Rattle.text_bytes.specs.Parts.{job_texts, near_texts, SizeIs};

use codes::bytes;
use text_chars::{DocAt, TextAt, TextLen};

/// Whether two texts are the same bytes.
pub fn same_bytes(a: &[u8], b: &[u8]) -> bool
    ensures { result ≡ same a.now b.now }
{
    a == b
}

// The first character that UTF-8 writes in four bytes.
const FIRST_OF_FOUR: u32 = 0x10000;

/// Writes a code point as UTF-8 to the start of a buffer; the answer is how many bytes it has.
pub fn encode(ch: u32, out: &mut [u8]) -> usize
    requires { (ch < no_character) × (4 ≤ length out.old) }
    ensures { EncodeIs ch out.old out.new result }
{
    if ch < bytes::NOT_ASCII {
        out[0] = ch as u8;
        return 1;
    }
    if ch < 2048 {
        out[0] = (192 + ch / 64) as u8;
        out[1] = (128 + ch % 64) as u8;
        return 2;
    }
    if ch < FIRST_OF_FOUR {
        out[0] = (224 + ch / 4096) as u8;
        out[1] = (128 + ch / 64 % 64) as u8;
        out[2] = (128 + ch % 64) as u8;
        return 3;
    }
    out[0] = (240 + ch / 262144) as u8;
    out[1] = (128 + ch / 4096 % 64) as u8;
    out[2] = (128 + ch / 64 % 64) as u8;
    out[3] = (128 + ch % 64) as u8;
    4
}

/// Copies the bytes of the text from a place up to another to the start of a buffer; the answer is how many they are.
pub fn copy(s: &[u8], from: DocAt, to: DocAt, out: &mut [u8]) -> usize
    requires { (from.0 ≤ to.0) × (to.0 ≤ length s.now) × (to.0 - from.0 ≤ length out.old) }
    ensures { WriteIs (slice from.0 to.0 s.now) out.old out.new result }
{
    let start = from.0;
    let n = to.0 - start;
    for i in 0..n {
        out[i] = s[start + i];
    }
    n
}

// How long the text is that the text part has at a place: as long as is asked for, or up to its end.
fn text_size(text: &[u8], from: TextAt, len: TextLen) -> usize
    ensures { SizeIs text.now from.0 len.0 result }
{
    let f = from.0;
    let n = len.0;
    if text.len() < f {
        return 0;
    }
    let rest = text.len() - f;
    if rest < n {
        return rest;
    }
    n
}

/// Whether the text at an offset, of a length, is a key.
pub fn same_text(text: &[u8], from: TextAt, len: TextLen, key: &[u8]) -> bool
    requires { (length text.now ≤ job_texts) × (from.0 ≤ near_texts) }
    ensures { result ≡ same (slice from.0 (from.0 + len.0) text.now) key.now }
{
    let f = from.0;
    let n = text_size(text, from, len);
    if n == 0 {
        return key.len() == 0;
    }
    let e = f + n;
    same_bytes(&text[f..e], key)
}
