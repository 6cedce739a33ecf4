// Document 02, No. 2: the characters past ASCII that are whitespace, by their Unicode 15 names. Category Zs: from the en quad to the hair
// space all are.
pub const NO_BREAK_SPACE: u32 = 0xA0;

pub const OGHAM_SPACE_MARK: u32 = 0x1680;

pub const EN_QUAD: u32 = 0x2000;

pub const HAIR_SPACE: u32 = 0x200A;

pub const NARROW_NO_BREAK_SPACE: u32 = 0x202F;

pub const MEDIUM_MATHEMATICAL_SPACE: u32 = 0x205F;

pub const IDEOGRAPHIC_SPACE: u32 = 0x3000;

/// Categories Zl and Zp: no newlines.
pub const LINE_SEPARATOR: u32 = 0x2028;

pub const PARAGRAPH_SEPARATOR: u32 = 0x2029;

/// U+FEFF, at the start of a text and anywhere else.
pub const BYTE_ORDER_MARK: u32 = 0xFEFF;
