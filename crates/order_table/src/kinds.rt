// The kinds of orders, as the table has them and the machine goes by them: sixteen in all.
// They are numbers and no enum: an entry packs its kind with the bits that are 0 in its order, and an enum would be made of the number by a match of sixteen arms, only for the machine to match it again.
pub const SERVICE_OR_UNKNOWN: u16 = 0;

pub const LOAD: u16 = 1;

pub const COPY: u16 = 2;

pub const FETCH: u16 = 3;

pub const STORE: u16 = 4;

pub const ADD: u16 = 5;

pub const SUBTRACT: u16 = 6;

pub const MULTIPLY: u16 = 7;

// Quotient and remainder.
pub const DIVIDE: u16 = 8;

pub const AND: u16 = 9;

pub const OR: u16 = 10;

pub const EXCLUSIVE_OR: u16 = 11;

pub const RETURN: u16 = 12;

pub const COMPARE: u16 = 13;

pub const CALL: u16 = 14;

// Jump and jump if.
pub const ANY_JUMP: u16 = 15;
