// Document 02, No. 3: the micrometres of each unit, and how many a length may have.
pub const MICROMETRE: u32 = 1;

pub const MILLIMETRE: u32 = 1000;

pub const INCH: u32 = 25400;

pub const MOST_MICROMETRES: u32 = 1000000;

/// What stands for every length over that.
pub const TOO_MANY: u32 = MOST_MICROMETRES + 1;
