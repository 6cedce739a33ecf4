// Document 01, "Sizes", and what follows from them.

/// Bytes of a document.
pub const DOCUMENT: usize = 32768;

/// Bytes and entries of an environment.
pub const ENVIRONMENT: usize = 8192;

pub const VARIABLES: usize = 64;

/// How many unresolved values may be begun.
pub const BUDGET: usize = 256;

/// Bytes of a look-up's path text.
pub const PATH_TEXT: usize = 1024;

/// Objects and arrays inside one another; the root is 1.
pub const NESTING: usize = 32;

/// Nestings that may still be opened inside the root.
pub const NESTING_IN_ROOT: usize = NESTING - 1;

/// Fields after path expansion, elements and pieces.
pub const ITEMS: usize = 2048;

pub const UNRESOLVED: usize = 256;

/// Elements of a path.
pub const PATH: usize = 16;

/// Elements of a path whose end and place are kept: the first that is too many has its place.
pub const MARKED: usize = PATH + 1;

/// Two numbers for each of those.
pub const MARKS: usize = 2 * MARKED;

/// Bytes of records, and of text, that one value may have.
pub const RECORDS: usize = 16384;

pub const TEXT: usize = 16384;

/// What of a lent part may be used, and how long a part may be that is lent to check or look-up.
pub const ROOM: usize = 32768;
