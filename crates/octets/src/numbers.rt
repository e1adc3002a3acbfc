// The limits and answer numbers of documents 01 and 02, each by its name.

// The most bytes that a message has.
pub const MESSAGE_LIMIT: usize = 32768;
// The most levels of addresses.
pub const LEVEL_LIMIT: usize = 64;
// The records of a table that the program or a tool keeps itself.
pub const TABLE_RECORDS: usize = 2048;
// The bytes of a record of the store of lists.
pub const STORE_RECORD_SIZE: usize = 512;
// The bytes of the name in it.
pub const STORE_NAME_SIZE: usize = 64;
// The most openings of stored lists.
pub const OPENING_LIMIT: usize = 64;

pub const ACCEPTED: u8 = 0;

pub const MESSAGE_TOO_LONG: u8 = 1;

pub const NAME_FAULT: u8 = 2;

pub const BYTE_ABOVE_127: u8 = 3;

pub const HEADER_NOT_ENDED: u8 = 4;

pub const QUOTED_NOT_CLOSED: u8 = 5;

pub const COMMENT_NOT_CLOSED: u8 = 6;

pub const STRAY_CONTROL: u8 = 7;

pub const NO_LIST_GOES_ON: u8 = 8;

pub const ENDS_TOO_SOON: u8 = 9;

pub const TOO_MANY_LEVELS: u8 = 10;

pub const TOO_LITTLE_ROOM: u8 = 11;

pub const DATE_FORM: u8 = 12;

pub const BODY_OUT_OF_ORDER: u8 = 13;

pub const DATE_IMPOSSIBLE: u8 = 14;

pub const LEADS_NOWHERE: u8 = 19;

pub const TOO_MANY_OPENINGS: u8 = 20;

pub const EDITION_UNKNOWN: u8 = 21;

pub const LITERAL_NOT_CLOSED: u8 = 23;
