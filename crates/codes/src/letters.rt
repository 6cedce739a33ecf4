// Letters of ASCII, as characters: of words, escapes, exponents and hexadecimal digits.
pub const A: u32 = b'a' as u32;

pub const B: u32 = b'b' as u32;

pub const C: u32 = b'c' as u32;

pub const D: u32 = b'd' as u32;

pub const E: u32 = b'e' as u32;

pub const F: u32 = b'f' as u32;

pub const I: u32 = b'i' as u32;

pub const L: u32 = b'l' as u32;

pub const M: u32 = b'm' as u32;

pub const N: u32 = b'n' as u32;

pub const R: u32 = b'r' as u32;

pub const S: u32 = b's' as u32;

pub const T: u32 = b't' as u32;

pub const U: u32 = b'u' as u32;

pub const CAPITAL_A: u32 = b'A' as u32;

pub const CAPITAL_E: u32 = b'E' as u32;

pub const CAPITAL_F: u32 = b'F' as u32;
