// The sizes of a signing body and of what is stored, and where the fields of a body lie.

// The bytes of a body before its categories.
pub const HEAD_SIZE: usize = 58;

// The bytes of a category: its id and its amount.
pub const CATEGORY_SIZE: usize = 8;

// The bytes of an identifier.
pub const IDENTIFIER_SIZE: usize = 20;

// The ids of categories are 1 to 12, and a body has at most as many categories.
pub const ID_COUNT: usize = 12;

// Where the fields of a body begin.
pub const TAXPAYER_AT: usize = 8;

pub const BUYER_AT: usize = 28;

pub const TYPE_AT: usize = 48;

pub const TRANSACTION_AT: usize = 49;

pub const AMOUNT_AT: usize = 50;

pub const COUNT_AT: usize = 57;

// The bytes of an amount.
pub const AMOUNT_SIZE: usize = COUNT_AT - AMOUNT_AT;

// The largest type.
pub const LAST_TYPE: u8 = 4;

// The bytes of a stored count, and of a stored sum.
pub const NUMBER_SIZE: usize = 4;

pub const MONEY_SIZE: usize = 8;
