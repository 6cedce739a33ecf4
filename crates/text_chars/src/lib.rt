// The kinds of offset, which never stand in for each other; and the characters of a text: its bytes, whether they are well-formed
// UTF-8, and a cursor that goes forward one character at a time.
// Computes: Bytes, Utf8, Characters, Positions
#![tactic(auto)]

ghost use Rattle.std.specs.Prelude.{◌≡◌, ◌≤◌, ◌<◌, length};
ghost use Rattle.rules.specs.Sizes.{max_document};
ghost use Rattle.rules.specs.Utf8.{continues, lowest, highest, promised, sequence_at, ill_formed};
ghost use Rattle.rules.specs.Characters.{of_several, character_at};
ghost use Rattle.text_chars.specs.Cursor.{ByteIs, WidthIs, PastIs, StepIs, ill_at};
ghost use Rattle.text_chars.specs.Positions.{EndIs, StartIs, PositionAsked, PositionStepIs, PositionIs};
ghost use Rattle.text_chars.specs.Blocks.{BlockPasses};
ghost use Rattle.text_chars.specs.WellFormed.{BlockIs, WellFormedIs};

use codes::bytes;

/// A place in a document or a path text.
#[derive(Clone, Copy)]
pub struct DocAt(pub usize);

/// A refusal: its number, and its place, 0 where it has none.
#[derive(Clone, Copy)]
pub struct Refusal {
    pub number: u8,
    pub place: DocAt,
}

/// An offset in records.
#[derive(Clone, Copy)]
pub struct RecAt(pub usize);

/// How many bytes of records.
#[derive(Clone, Copy)]
pub struct RecLen(pub usize);

/// An offset in text.
#[derive(Clone, Copy)]
pub struct TextAt(pub usize);

/// How many bytes of text.
#[derive(Clone, Copy)]
pub struct TextLen(pub usize);

/// An offset in an environment.
#[derive(Clone, Copy)]
pub struct EnvAt(pub usize);

/// How many bytes of an environment.
#[derive(Clone, Copy)]
pub struct EnvLen(pub usize);

/// A reading place. Cursors come from the start of a text, from steps, and from the ends of runs of ASCII bytes.
#[derive(Clone, Copy)]
pub struct Cursor {
    pub at: DocAt,
}

/// A reading place with its line and its column. Reading goes by cursors, whose steps promise both and carry neither; the place of a
/// refusal is walked to by positions.
#[derive(Clone, Copy)]
pub struct Position {
    pub cursor: Cursor,
    pub line: usize,
    pub column: usize,
}

/// A character, which is its code point, and the cursor past it.
#[derive(Clone, Copy)]
pub struct Step {
    pub ch: u32,
    pub next: Cursor,
}

// A byte, widened: what is asked is the index alone.
fn wide(b: u8) -> u32
    ensures { (result ≡ b) × (result < 256) }
{
    b as u32
}

// The byte at an offset of any kind. Only the functions below call it, one for each kind.
fn byte_of(s: &[u8], at: usize) -> u32
    ensures { ByteIs s.now at result }
{
    if at < s.len() {
        wide(s[at])
    } else {
        bytes::NONE
    }
}

/// The byte at a place of a document or a path text; past the end 256, which no byte is.
pub fn byte_at(s: &[u8], at: DocAt) -> u32
    ensures { ByteIs s.now at.0 result }
{
    byte_of(s, at.0)
}

/// The byte at an offset in records; past the end 256.
pub fn record_byte(records: &[u8], at: RecAt) -> u32
    ensures { ByteIs records.now at.0 result }
{
    byte_of(records, at.0)
}

/// The byte at an offset in text; past the end 256.
pub fn text_byte(text: &[u8], at: TextAt) -> u32
    ensures { ByteIs text.now at.0 result }
{
    byte_of(text, at.0)
}

/// The byte at an offset in an environment; past the end 256.
pub fn env_byte(env: &[u8], at: EnvAt) -> u32
    ensures { ByteIs env.now at.0 result }
{
    byte_of(env, at.0)
}

// ---- well-formed UTF-8: the bytes are those of Unicode's table, and so in hexadecimal

fn is_continuation(b: u32) -> bool
    ensures { result ≡ continues b }
{
    if b < 0x80 {
        return false;
    }
    b <= 0xBF
}

// The least second byte behind a lead byte, and the greatest.
fn least(lead: u32) -> u32
    ensures { result ≡ lowest lead }
{
    if lead == 0xE0 {
        return 0xA0;
    }
    if lead == 0xF0 {
        return 0x90;
    }
    0x80
}

fn greatest(lead: u32) -> u32
    ensures { result ≡ highest lead }
{
    if lead == 0xED {
        return 0x9F;
    }
    if lead == 0xF4 {
        return 0x8F;
    }
    0xBF
}

// How long the sequence is that a lead byte starts; 0 where it starts none.
fn sequence_length(lead: u32) -> usize
    ensures { result ≡ promised lead }
{
    if lead <= 0x7F {
        return 1;
    }
    if lead < 0xC2 {
        return 0;
    }
    if lead <= 0xDF {
        return 2;
    }
    if lead <= 0xEF {
        return 3;
    }
    if lead <= 0xF4 {
        return 4;
    }
    0
}

// The length of the well-formed sequence at a place; 0 where there is none.
fn sequence(s: &[u8], at: DocAt) -> usize
    requires { (length s.now ≤ max_document) × (at.0 ≤ max_document) }
    ensures { (result ≡ sequence_at s.now at.0) × (result ≤ 4) }
{
    let p = at.0;
    let lead = byte_at(s, at);
    let n = sequence_length(lead);
    if n < 2 {
        return n;
    }
    let second = byte_at(s, DocAt(p + 1));
    if second < least(lead) {
        return 0;
    }
    if greatest(lead) < second {
        return 0;
    }
    if n == 2 {
        return 2;
    }
    if is_continuation(byte_at(s, DocAt(p + 2))) {
        if n == 3 {
            return 3;
        }
        if is_continuation(byte_at(s, DocAt(p + 3))) {
            4
        } else {
            0
        }
    } else {
        0
    }
}

/// Whether a block of bytes stands at a place that all pass a test. The loop has no way out, so that the compiler makes the tests all at
/// once.
pub fn block_passes<const N: usize, F: Fn(u8) -> bool>(s: &[u8], at: usize, test: F) -> bool
    requires { F.IsAlwaysCallable test }
    ensures { BlockPasses N (F.post test) s.now at result }
{
    if s.len() < at {
        return false;
    }
    if s.len() - at < N {
        return false;
    }
    let mut passes = true;
    for i in 0..N {
        passes &= test(s[at + i]);
    }
    passes
}

const BLOCK: usize = 64;

const NOT_ASCII: u8 = bytes::NOT_ASCII as u8;

// Whether a block stands at a place, all of ASCII.
fn ascii_block(s: &[u8], at: usize) -> bool
    ensures { BlockIs s.now at result }
{
    block_passes::<BLOCK, _>(s, at, |b| b < NOT_ASCII)
}

// How many bytes from a place on are well-formed: those of a block of ASCII, or of one sequence; 0 where there is none. Blocks are tried
// only at their own places, so that a text without any pays little for them.
fn well_formed(s: &[u8], at: DocAt) -> usize
    requires { (length s.now ≤ max_document) × (at.0 ≤ max_document) }
    ensures { WellFormedIs s.now at.0 result }
{
    if at.0 % BLOCK == 0 {
        if ascii_block(s, at.0) {
            return BLOCK;
        }
    }
    sequence(s, at)
}

/// The first place where a text is not well-formed UTF-8; none where all of it is.
pub fn ill_formed(s: &[u8]) -> Option<DocAt>
    requires { length s.now ≤ max_document }
    ensures { result ≡ ill_at (ill_formed s.now) }
{
    let mut at = 0;
    while at < s.len() {
        let n = well_formed(s, DocAt(at));
        if n == 0 {
            return Some(DocAt(at));
        }
        at += n;
    }
    None
}

// ---- the cursor

// A character of several bytes, from what its bytes come to.
fn of_several(c: u32) -> u32
    ensures { result ≡ of_several c }
{
    if c < bytes::NOT_ASCII {
        return bytes::NOT_ASCII;
    }
    if bytes::LAST_CHARACTER < c {
        return bytes::LAST_CHARACTER;
    }
    c
}

// How many bytes a character has, by its first.
fn width(lead: u32) -> usize
    ensures { WidthIs lead result }
{
    if lead < bytes::NOT_ASCII {
        return 1;
    }
    if lead < 0xE0 {
        return 2;
    }
    if lead < 0xF0 {
        return 3;
    }
    4
}

// The code point of the character whose lead byte stands at a place.
fn character(s: &[u8], at: DocAt) -> u32
    requires { (length s.now ≤ max_document) × (at.0 < length s.now) }
    ensures { result ≡ character_at s.now at.0 }
{
    let p = at.0;
    let lead = byte_at(s, at);
    if lead < bytes::NOT_ASCII {
        return lead;
    }
    let second = byte_at(s, DocAt(p + 1)) % 64;
    if lead < 0xE0 {
        return of_several(lead % 32 * 64 + second);
    }
    let third = byte_at(s, DocAt(p + 2)) % 64;
    if lead < 0xF0 {
        return of_several(lead % 16 * 4096 + second * 64 + third);
    }
    let fourth = byte_at(s, DocAt(p + 3)) % 64;
    of_several(lead % 8 * 262144 + second * 4096 + third * 64 + fourth)
}

// The place after the character at a place.
fn past(s: &[u8], at: DocAt) -> DocAt
    requires { (length s.now ≤ max_document) × (at.0 < length s.now) }
    ensures { PastIs s.now at.0 result.0 }
{
    let end = at.0 + width(byte_at(s, at));
    if end < s.len() {
        return DocAt(end);
    }
    DocAt(s.len())
}

impl Cursor {
    /// The start of a text.
    pub fn start() -> Cursor
        ensures { result.at.0 ≡ 0 }
    {
        Cursor { at: DocAt(0) }
    }

    /// The character here, and the cursor past it; none at the end of the text.
    pub fn step(self, s: &[u8]) -> Option<Step>
        requires { length s.now ≤ max_document }
        ensures { StepIs s.now self.at.0 result }
    {
        let at = self.at;
        if at.0 < s.len() {
            Some(Step {
                ch: character(s, at),
                next: Cursor { at: past(s, at) },
            })
        } else {
            None
        }
    }
}

// ---- lines and columns

impl Position {
    /// The start of a text.
    pub fn start() -> Position
        ensures { StartIs result }
    {
        Position {
            cursor: Cursor { at: DocAt(0) },
            line: 1,
            column: 1,
        }
    }

    /// The position past the character here; at the end it stays.
    pub fn step(self, s: &[u8]) -> Position
        requires { PositionAsked s.now self }
        ensures { PositionStepIs s.now self result }
    {
        let Some(Step { ch, next }) = self.cursor.step(s) else {
            return self;
        };
        if ch == bytes::NEWLINE {
            return Position {
                cursor: next,
                line: self.line + 1,
                column: 1,
            };
        }
        Position {
            cursor: next,
            column: self.column + 1,
            ..self
        }
    }
}

// A place, or the end where that comes before it.
fn place_or_end(s: &[u8], place: DocAt) -> usize
    ensures { EndIs s.now place.0 result }
{
    if place.0 < s.len() {
        return place.0;
    }
    s.len()
}

/// The position of a place of a text: the one behind all characters that begin before it.
pub fn position_of(s: &[u8], place: DocAt) -> Position
    requires { length s.now ≤ max_document }
    ensures { PositionIs s.now place.0 result }
{
    let end = place_or_end(s, place);
    let mut here = Position::start();
    while here.cursor.at.0 < end {
        here = here.step(s);
    }
    here
}
