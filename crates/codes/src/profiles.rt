// Document 02, No. 11: the editions of a profile, and its lengths in ten-thousandths of a millimetre.
pub const FIRST: u8 = 1;

pub const SECOND: u8 = 2;

/// What one is that a length of edition 1 counts: a hundredth of a millimetre, or a thousandth of an inch.
pub const HUNDREDTH: u32 = 100;

pub const THOUSANDTH: u32 = 254;

/// How many of them a length may count.
pub const MOST_BARE: u32 = 100000;

/// A micrometre, in which a length of edition 2 is read.
pub const MICROMETRE: u32 = 10;
