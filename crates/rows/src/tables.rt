// The tables that words are spelt by: one entry for each sixteenth of the words, and one for each row. Row 0 is that of a number,
// and the orders have the rows 1 to 23, as they stand in the table of docs/GRAMMAR.md.

// What a row tells: its form, its name up to the eighth letter, what stands after that letter, and what the first register counts
// there; the second stands three bytes on. Bytes are one number, the first lowest.
#[derive(Clone, Copy)]
pub struct Parts {
    pub form_word: u16,
    pub front_bytes: u64,
    pub tail_bytes: u64,
    pub first_register: u64,
}

// A row of the table.
macro_rules! parts {
    ($form:expr, $front:expr, $tail:expr, $register:expr) => {
        Parts {
            form_word: $form,
            front_bytes: $front,
            tail_bytes: $tail,
            first_register: $register,
        }
    };
}

// How many rows there are.
pub const ROWS: usize = 24;

// The sixteenths of the words that begin orders, and one for all past them.
pub const SIXTEENTHS: usize = 305;

// The row of the first word of each sixteenth.
pub static ROW_TABLE: [u8; SIXTEENTHS] = [
    0, // no order
    0, 0, 0, 0, 0, 0, 0, 0, 0, 0, 0, 0, 0, 0, 0, 1, // load
    1, 1, 1, 1, 1, 1, 1, 0, // load: no register 8
    0, 0, 0, 0, 0, 0, 0, 2, // copy
    2, 2, 2, 2, 2, 2, 2, 0, // copy: no register 8
    0, 0, 0, 0, 0, 0, 0, 3, // fetch
    3, 3, 3, 3, 3, 3, 3, 0, // fetch: no register 8
    0, 0, 0, 0, 0, 0, 0, 4, // store
    4, 4, 4, 4, 4, 4, 4, 0, // store: no register 8
    0, 0, 0, 0, 0, 0, 0, 5, // add
    5, 5, 5, 5, 5, 5, 5, 0, // add: no register 8
    0, 0, 0, 0, 0, 0, 0, 6, // subtract
    6, 6, 6, 6, 6, 6, 6, 0, // subtract: no register 8
    0, 0, 0, 0, 0, 0, 0, 7, // multiply
    7, 7, 7, 7, 7, 7, 7, 0, // multiply: no register 8
    0, 0, 0, 0, 0, 0, 0, 8, // quotient
    8, 8, 8, 8, 8, 8, 8, 0, // quotient: no register 8
    0, 0, 0, 0, 0, 0, 0, 9, // remainder
    9, 9, 9, 9, 9, 9, 9, 0, // remainder: no register 8
    0, 0, 0, 0, 0, 0, 0, 10, // and
    10, 10, 10, 10, 10, 10, 10, 0, // and: no register 8
    0, 0, 0, 0, 0, 0, 0, 11, // or
    11, 11, 11, 11, 11, 11, 11, 0, // or: no register 8
    0, 0, 0, 0, 0, 0, 0, 12, // xor
    12, 12, 12, 12, 12, 12, 12, 0, // xor: no register 8
    0, 0, 0, 0, 0, 0, 0, 13, // compare
    13, 13, 13, 13, 13, 13, 13, 0, // compare: no register 8
    0, 0, 0, 0, 0, 0, 0, 14, // jump
    0, 0, 0, 0, 0, 0, 0, 0, 0, 0, 0, 0, 0, 0, 0, 15, // jumpeq
    16, // jumplt
    17, // jumpgt
    0, // no condition 3
    0, 0, 0, 0, 0, 0, 0, 0, 0, 0, 0, 0, 18, // call
    0, 0, 0, 0, 0, 0, 0, 0, 0, 0, 0, 0, 0, 0, 0, 19, // return
    0, 0, 0, 0, 0, 0, 0, 0, 0, 0, 0, 0, 0, 0, 0, 0, // no service 0
    20, // send
    21, // receive
    22, // input
    23, // output
    0, // no service 5
    0, 0, 0, 0, 0, 0, 0, 0, 0, 0, 0, // past the orders
];

// A form tells how many bytes the front of a line has, 16 x how many its tail, 256 where a second word follows, and 512 x where
// the field b ends.
pub const TAIL: u16 = 16;

pub const SECOND_WORD: u16 = 256;

pub const FIELD_B: u16 = 512;

const BARE: u16 = TAIL + FIELD_B;

const SUM: u16 = TAIL + SECOND_WORD + FIELD_B;

const REGISTER_SUM: u16 = 4 * TAIL + SECOND_WORD + FIELD_B;

const REGISTERS: u16 = 7 * TAIL + 8 * FIELD_B;

const AFTER_R: u16 = REGISTERS + TAIL;

// What stands after the eighth letter: the operands, with registers 0, and a space for a second word or the end of the line.
const SPACE: u64 = 0x20;

const NEWLINE: u64 = 0x0a;

const R0_SPACE: u64 = 0x20307220;

const R0_R0: u64 = 0xa307220307220;

const R_R0_R0: u64 = 0xa30722030722072;

// What the first register counts there, by its place.
const THIRD: u64 = 65536;

const FOURTH: u64 = 16777216;

// The rows.
pub static ROW_PARTS: [Parts; ROWS] = [
    parts!(0, 0, 0, 0), // a number
    parts!(4 + REGISTER_SUM, 0x64616f6c, R0_SPACE, THIRD), // load
    parts!(4 + REGISTERS, 0x79706f63, R0_R0, THIRD), // copy
    parts!(5 + REGISTERS, 0x6863746566, R0_R0, THIRD), // fetch
    parts!(5 + REGISTERS, 0x65726f7473, R0_R0, THIRD), // store
    parts!(3 + REGISTERS, 0x646461, R0_R0, THIRD), // add
    parts!(8 + REGISTERS, 0x7463617274627573, R0_R0, THIRD), // subtract
    parts!(8 + REGISTERS, 0x796c7069746c756d, R0_R0, THIRD), // multiply
    parts!(8 + REGISTERS, 0x746e6569746f7571, R0_R0, THIRD), // quotient
    parts!(8 + AFTER_R, 0x65646e69616d6572, R_R0_R0, FOURTH), // remainder
    parts!(3 + REGISTERS, 0x646e61, R0_R0, THIRD), // and
    parts!(2 + REGISTERS, 0x726f, R0_R0, THIRD), // or
    parts!(3 + REGISTERS, 0x726f78, R0_R0, THIRD), // xor
    parts!(7 + REGISTERS, 0x657261706d6f63, R0_R0, THIRD), // compare
    parts!(4 + SUM, 0x706d756a, SPACE, 0), // jump
    parts!(6 + SUM, 0x7165706d756a, SPACE, 0), // jumpeq
    parts!(6 + SUM, 0x746c706d756a, SPACE, 0), // jumplt
    parts!(6 + SUM, 0x7467706d756a, SPACE, 0), // jumpgt
    parts!(4 + SUM, 0x6c6c6163, SPACE, 0), // call
    parts!(6 + BARE, 0x6e7275746572, NEWLINE, 0), // return
    parts!(4 + BARE, 0x646e6573, NEWLINE, 0), // send
    parts!(7 + BARE, 0x65766965636572, NEWLINE, 0), // receive
    parts!(5 + BARE, 0x7475706e69, NEWLINE, 0), // input
    parts!(6 + BARE, 0x74757074756f, NEWLINE, 0), // output
];
