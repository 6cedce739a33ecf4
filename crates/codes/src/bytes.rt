// The bytes that the grammar names, as characters: a character of ASCII is its byte.
pub const TAB: u32 = b'\t' as u32;

pub const NEWLINE: u32 = b'\n' as u32;

pub const CARRIAGE_RETURN: u32 = b'\r' as u32;

pub const SPACE: u32 = b' ' as u32;

pub const EXCLAMATION: u32 = b'!' as u32;

pub const QUOTE: u32 = b'"' as u32;

pub const HASH: u32 = b'#' as u32;

pub const DOLLAR: u32 = b'$' as u32;

pub const AMPERSAND: u32 = b'&' as u32;

pub const STAR: u32 = b'*' as u32;

pub const PLUS: u32 = b'+' as u32;

pub const COMMA: u32 = b',' as u32;

pub const MINUS: u32 = b'-' as u32;

pub const DOT: u32 = b'.' as u32;

pub const SLASH: u32 = b'/' as u32;

pub const ZERO: u32 = b'0' as u32;

pub const NINE: u32 = b'9' as u32;

pub const COLON: u32 = b':' as u32;

pub const EQUALS: u32 = b'=' as u32;

pub const QUESTION: u32 = b'?' as u32;

pub const AT_SIGN: u32 = b'@' as u32;

pub const OPEN_BRACKET: u32 = b'[' as u32;

pub const BACKSLASH: u32 = b'\\' as u32;

pub const CLOSE_BRACKET: u32 = b']' as u32;

pub const CARET: u32 = b'^' as u32;

pub const BACKTICK: u32 = b'`' as u32;

pub const OPEN_BRACE: u32 = b'{' as u32;

pub const CLOSE_BRACE: u32 = b'}' as u32;

/// The first character that is no control byte.
pub const FIRST_PRINTABLE: u32 = SPACE;

/// No byte: what stands past the end. Also what closes an object without braces.
pub const NONE: u32 = 256;

/// No character: what stands past the end of a text. No code point is so high.
pub const NO_CHARACTER: u32 = 1114112;

/// The greatest code point.
pub const LAST_CHARACTER: u32 = NO_CHARACTER - 1;

/// The first character that is not of ASCII, and the first byte of no ASCII.
pub const NOT_ASCII: u32 = 128;

/// The byte that ends an entry of an environment.
pub const NUL: u32 = 0;

/// Whitespace of ASCII is 9 to 13, 28 to 31 and the space: where the second range begins, which ends next to the space.
pub const FILE_SEPARATOR: u32 = 28;
