// Document 01, "The sheet": the kinds of records. The names are the header's.
pub const NULL: u8 = 1;

pub const FALSE: u8 = 2;

pub const TRUE: u8 = 3;

pub const NUMBER: u8 = 4;

pub const STRING: u8 = 5;

pub const ARRAY: u8 = 6;

pub const OBJECT: u8 = 7;

pub const KEY: u8 = 8;

pub const ENTRY: u8 = 9;

pub const UNDEFINED_ENTRY: u8 = 10;
