// Document 01, "Numbers and places": when each is given. The names are the header's.

/// An input over its bytes or against its rule.
pub const BAD_INPUT: u8 = 1;
/// Bytes that are no UTF-8.
pub const ILL_FORMED_UTF8: u8 = 2;
/// A byte that the grammar does not allow.
pub const BYTE_NOT_ALLOWED: u8 = 3;
/// The end inside something open, or inside a field.
pub const UNEXPECTED_END: u8 = 4;
/// `-` that starts no number; a bad escape or lone surrogate; a control byte in quotes.
pub const BAD_NUMBER_OR_STRING: u8 = 5;
/// A key that begins with `include`.
pub const INCLUDE: u8 = 6;
/// A substitution in a key; an empty path, or an empty element without quotes.
pub const BAD_PATH: u8 = 7;
/// Nesting, items, unresolved values or path elements over their limit.
pub const OVER_LIMIT: u8 = 8;
/// A required substitution that is undefined.
pub const UNDEFINED: u8 = 9;
/// An unresolved value that is needed while it is worked out.
pub const CIRCULAR: u8 = 10;
/// Kinds mixed in one value.
pub const MIXED_KINDS: u8 = 11;
/// One unresolved value more than the budget.
pub const OVER_BUDGET: u8 = 12;
/// A value over its size.
pub const TOO_LARGE: u8 = 13;
/// An entry, the table or a text that does not fit its room.
pub const NO_ROOM: u8 = 14;
/// Records that are not one whole table.
pub const NOT_A_TABLE: u8 = 15;
/// A path that names nothing.
pub const NOT_FOUND: u8 = 16;
/// A sheet that is not accepted.
pub const NOT_ACCEPTED: u8 = 17;
/// What is no length: no decimal number with its unit.
pub const MALFORMED_LENGTH: u8 = 20;
/// A number without its unit.
pub const BARE_NUMBER: u8 = 21;
/// A length with a minus sign.
pub const MINUS_SIGN: u8 = 22;
/// A length that is not whole micrometres.
pub const NOT_WHOLE_MICROMETRES: u8 = 23;
/// A length over 1,000,000 micrometres.
pub const TOO_LONG: u8 = 24;
/// `profile` is missing, or not the number 1 or 2.
pub const BAD_PROFILE: u8 = 39;
/// `unit` is missing or another in edition 1, or there in edition 2.
pub const BAD_UNIT: u8 = 40;
/// `plate.min` is missing, or no length of its edition.
pub const BAD_MINIMUM: u8 = 41;
/// `plate.max` is missing, or no length of its edition.
pub const BAD_MAXIMUM: u8 = 42;
/// `plate.min` is above `plate.max`.
pub const MINIMUM_ABOVE_MAXIMUM: u8 = 43;
