// The types that the definitions of the text form name, and the numbers of the grammar that stand in more than one crate.
#![tactic(auto)]

ghost use Rattle.std.specs.Prelude.{◌≡◌};
ghost use Rattle.grammar.specs.Texts.{number};

// Why a sum, or a part of one, has no value: a name in it is not given, or a value in it lies out of range.
#[derive(Clone, Copy)]
pub enum NoValue {
    Missing,
    Beyond,
}

// Values end before this; all past it are kept as this one.
pub const RANGE_END: u32 = 65536;

// Brackets are nested at most so deep.
pub const DEEPEST: usize = 8;

// The bytes of the grammar that more than one reader looks at.
pub const LINE_END: u8 = 10;

pub const FIRST_DIGIT: u8 = 48;

pub const FIRST_LETTER: u8 = 97;

pub const LAST_LETTER: u8 = 122;

// How a product is joined to the sum before it.
#[derive(Clone, Copy)]
pub enum Sign {
    Plus,
    Minus,
}

// The operands of an order.
#[derive(Clone, Copy)]
pub enum Operands {
    Nothing,
    Sum,
    RegisterSum,
    Registers,
}

// What a word is: free to be a name, a register, an order with its operands and its first word, or an order of a later edition.
#[derive(Clone, Copy)]
pub enum Kept {
    Free,
    Register(u16),
    Order(Operands, u16),
    Later,
}

// What the order or the sum of a line of the grammar gives: no word, a word, or a fixed word and one that is worked.
#[derive(Clone, Copy)]
pub enum Given {
    Nothing,
    One(Result<u16, NoValue>),
    Two(u16, Result<u16, NoValue>),
}

// Why a text is refused.
#[derive(Clone, Copy, PartialEq, Eq)]
pub enum Refusal {
    OutsideGrammar,
    NameFault,
    OutOfRange,
    NoRoom,
}

// The number of a refusal.
impl From<Refusal> for u16 {
    ghost from_gives = { λ r n. n ≡ number r };

    fn from(r: Refusal) -> u16 {
        match r {
            Refusal::OutsideGrammar => 13,
            Refusal::NameFault => 14,
            Refusal::OutOfRange => 15,
            Refusal::NoRoom => 16,
        }
    }
}

// The two texts.
#[derive(Clone, Copy)]
pub enum Text {
    Names,
    Script,
}

// A line of one of the texts: its first byte and its count of bytes.
#[derive(Clone, Copy)]
pub struct Line {
    pub text: Text,
    pub from: usize,
    pub count: usize,
}

// The fault that the texts are refused for: the refusal, and the line that it names.
pub type Fault = (Refusal, Line);
