// The types that the definitions and the promises name, and beside each the numbers of the paper that code uses.
#![tactic(auto)]

ghost use Rattle.std.specs.Prelude.{◌≡◌};
ghost use Rattle.paper.specs.Numbers.{number};

// A task's number, an address in a task's segment and a place in the image are counted apart; 0 is a good value of each.
#[derive(Clone, Copy, PartialEq, Eq)]
pub struct Task(pub u16);

#[derive(Clone, Copy)]
pub struct Address(pub u16);

#[derive(Clone, Copy)]
pub struct Place(pub usize);

// A word is below this, and is two bytes in a file, each below this; a character is at most this.
pub const WORD_END: usize = 65536;

pub const WORD_BYTES: usize = 2;

pub const BYTE_END: u16 = 256;

pub const MOST_CHARACTER: u16 = 255;

// The most of N, S, a capacity and T.
pub const MOST_TASKS: usize = 16;

pub const MOST_SLICE: usize = 65535;

pub const MOST_CAPACITY: usize = 32;

pub const MOST_WORDS: usize = 32768;

// The mark and the edition.
pub const MARK: u16 = 19284;

pub const EDITION: u16 = 1;

// Where the words of the header stand, but for the offsets.
pub const MARK_AT: usize = 0;

pub const EDITION_AT: usize = 1;

pub const TASKS_AT: usize = 2;

pub const SLICE_AT: usize = 3;

pub const CI_AT: usize = 4;

pub const CO_AT: usize = 5;

pub const CM_AT: usize = 6;

pub const TOTAL_AT: usize = 16;

pub const CLOCK_AT: usize = 17;

// Where its offsets stand.
pub const TASK_TABLE_AT: usize = 7;

pub const READY_QUEUE_AT: usize = 8;

pub const STATUS_TABLE_AT: usize = 9;

pub const INPUT_BUFFERS_AT: usize = 10;

pub const OUTPUT_BUFFERS_AT: usize = 11;

pub const MESSAGE_BUFFERS_AT: usize = 12;

pub const PORTS_AT: usize = 13;

pub const SEGMENT_TABLE_AT: usize = 14;

pub const SEGMENTS_AT: usize = 15;

// What the header fixes: N, S, CI, CO, CM, the nine offsets, and how many words the segments have together.
#[derive(Clone, Copy)]
pub struct Shape {
    pub n: usize,
    pub slice: u16,
    pub ci: usize,
    pub co: usize,
    pub cm: usize,
    pub starts: [usize; OFFSETS],
    pub words: usize,
}

// How many offsets there are, and where each stands among them.
pub const OFFSETS: usize = 9;

pub const TASK_TABLE: usize = 0;

pub const READY_QUEUE: usize = 1;

pub const STATUS_TABLE: usize = 2;

pub const INPUT_BUFFERS: usize = 3;

pub const OUTPUT_BUFFERS: usize = 4;

pub const MESSAGE_BUFFERS: usize = 5;

pub const PORTS: usize = 6;

pub const SEGMENT_TABLE: usize = 7;

pub const SEGMENTS: usize = 8;

// Where the first words of a plan stand, how many there are, and the words of a pair.
pub const PLAN_TASKS_AT: usize = 0;

pub const PLAN_SLICE_AT: usize = 1;

pub const PLAN_CI_AT: usize = 2;

pub const PLAN_CO_AT: usize = 3;

pub const PLAN_CM_AT: usize = 4;

pub const LEADING_WORDS: usize = 5;

pub const PAIR_WORDS: usize = 2;

// The parts of an image, in their order.
#[derive(Clone, Copy)]
pub enum Part {
    Header,
    TaskTable,
    ReadyQueue,
    StatusTable,
    InputBuffers,
    OutputBuffers,
    MessageBuffers,
    Ports,
    SegmentTable,
    Segments,
}

// A word of an image by its name: each part is a table of rows of one width.
#[derive(Clone, Copy)]
pub struct Cell {
    pub part: Part,
    pub row: usize,
    pub column: usize,
}

// The words of a row: of the header, of a task, of a status, of a port, of a segment's entry.
pub const HEADER_WORDS: usize = 18;

pub const TASK_WORDS: usize = 9;

pub const STATUS_WORDS: usize = 2;

pub const PORT_WORDS: usize = 2;

pub const ENTRY_WORDS: usize = 2;

// The columns of a task: R0 is the next order's address, R1 the stack pointer; of a service, R2 names the other task and R3 holds the word.
pub const NEXT_ORDER: usize = 0;

pub const STACK: usize = 1;

pub const OTHER: usize = 2;

pub const WORD: usize = 3;

pub const FLAGS: usize = 8;

// The columns of a status, of a port, and of a segment's entry.
pub const STATUS: usize = 0;

pub const PEER: usize = 1;

pub const PORT: usize = 0;

pub const CHARACTER: usize = 1;

pub const BASE: usize = 0;

pub const LENGTH: usize = 1;

// What an error and a pending service count in the flags; cc is below the first, and an error below the end.
pub const ERROR: u16 = 4;

pub const PENDING: u16 = 32;

pub const ERROR_END: u16 = 8;

// The most of cc, an error and a service.
pub const MOST_CC: u16 = 2;

pub const MOST_ERROR: u16 = 6;

pub const MOST_SERVICE: u16 = 4;

// The cc of a compare.
pub const EQUAL: u16 = 0;

pub const LESS: u16 = 1;

pub const GREATER: u16 = 2;

// The statuses, and the peer of a task that waits for no other.
pub const READY: u16 = 0;

pub const WAITS_TO_SEND: u16 = 1;

pub const WAITS_TO_RECEIVE: u16 = 2;

pub const WAITS_FOR_INPUT: u16 = 3;

pub const WAITS_FOR_OUTPUT: u16 = 4;

pub const STOPPED: u16 = 5;

pub const NO_PEER: u16 = 0;

// A port is idle or busy.
pub const IDLE: u16 = 0;

pub const BUSY: u16 = 1;

// The queues of an image: the ready queue, a task's input and output buffer, and the message buffer from one task to another.
#[derive(Clone, Copy)]
pub enum Queue {
    Ready,
    Input(Task),
    Output(Task),
    Message(Task, Task),
}

// The columns of a queue before its slots, and how many there are.
pub const HEAD: usize = 0;

pub const TAIL: usize = 1;

pub const COUNT: usize = 2;

pub const CAPACITY: usize = 3;

pub const LEAD_WORDS: usize = 4;

// The services.
#[derive(Clone, Copy)]
pub enum Service {
    Send,
    Receive,
    Input,
    Output,
}

// Their numbers, and that of none.
pub const NOTHING_PENDING: u16 = 0;

pub const SEND: u16 = 1;

pub const RECEIVE: u16 = 2;

pub const ASK_INPUT: u16 = 3;

pub const ASK_OUTPUT: u16 = 4;

// No error, the errors of orders, and those of services.
pub const NO_ERROR: u16 = 0;

pub const OUTSIDE: u16 = 1;

pub const BAD_ORDER: u16 = 2;

pub const BAD_SERVICE: u16 = 3;

pub const ZERO_DIVISOR: u16 = 4;

pub const NO_SUCH_TASK: u16 = 5;

pub const NO_CHARACTER: u16 = 6;

// An event that is well formed, or that it is not.
#[derive(Clone, Copy)]
pub enum Event {
    Tick,
    Input(Task, u16),
    OutputDone(Task),
    Malformed,
}

// The words of an event, and its kinds.
pub const EVENT_WORDS: usize = 3;

pub const TICK: u16 = 0;

pub const INPUT: u16 = 1;

pub const OUTPUT_DONE: u16 = 2;

// What an accepted event answers.
#[derive(Clone, Copy, PartialEq, Eq)]
pub enum Answer {
    Idle,
    ErrorStop(Task),
    TurnPassed(Task),
    ServiceDone(Task),
    ServiceWaits(Task),
    ServiceFaulted(Task),
    OrderDone(Task),
    OrderFaulted(Task),
    Input(Task),
    OutputDone(Task),
}

// Why an image, an event or a plan is refused.
#[derive(Clone, Copy, PartialEq, Eq)]
pub enum Refusal {
    TooShort,
    NotMarked,
    OutOfRange,
    NotPacked,
    WrongSegments,
    RuleBroken,
    MalformedEvent,
    InputFull,
    PortIdle,
    BadPlan,
    WrongTarget,
    CountFull,
}

// The paper's number of a refusal.
impl From<Refusal> for u16 {
    ghost from_gives = { λ r n. n ≡ number r };

    fn from(r: Refusal) -> u16 {
        match r {
            Refusal::TooShort => 1,
            Refusal::NotMarked => 2,
            Refusal::OutOfRange => 3,
            Refusal::NotPacked => 4,
            Refusal::WrongSegments => 5,
            Refusal::RuleBroken => 6,
            Refusal::MalformedEvent => 7,
            Refusal::InputFull => 8,
            Refusal::PortIdle => 9,
            Refusal::BadPlan => 11,
            Refusal::WrongTarget => 12,
            Refusal::CountFull => 17,
        }
    }
}

// The number that comes back where nothing is refused.
pub const NOT_REFUSED: u16 = 0;

// How a run ended: how many events were taken, and whether one was refused.
#[derive(Clone, Copy)]
pub struct Ended {
    pub taken: usize,
    pub stop: Result<(), Refusal>,
}

// What a task's ticks are counted under, in the order of its row of counts.
#[derive(Clone, Copy)]
pub enum Heading {
    Orders,
    Services,
    Waits,
    Faults,
    ErrorStops,
    PassedTurns,
}

// Where an answer is counted: nowhere, among the idle ticks of the whole, under a heading of a task.
#[derive(Clone, Copy)]
pub enum Tally {
    Nowhere,
    Idle,
    Under(Task, Heading),
}

// How many headings a task has; the counts: the rows of sixteen tasks, then the idle ticks; what a count ends at.
pub const HEADINGS: usize = 6;

pub const IDLE_COUNT: usize = 96;

pub const COUNTS: usize = 97;

pub const MOST_COUNT: u32 = 4294967295;

// The orders of the order code, and any other op.
#[derive(Clone, Copy)]
pub enum Op {
    Unknown,
    Load,
    Copy,
    Fetch,
    Store,
    Add,
    Subtract,
    Multiply,
    Quotient,
    Remainder,
    And,
    Or,
    ExclusiveOr,
    Compare,
    Jump,
    JumpIf,
    Call,
    Return,
    Service,
}

// The ops that code tells by their numbers.
pub const QUOTIENT: u16 = 8;

pub const JUMP: u16 = 14;

pub const SERVICE: u16 = 18;

// What a field of an order's first word holds.
#[derive(Clone, Copy)]
pub enum Field {
    Unused,
    Register,
    Condition,
    Service,
}

// The first word of an order has its op from this on, field a from this on, and below this field b; a register is below this.
pub const OP: u16 = 256;

pub const FIELD: u16 = 16;

pub const REGISTERS: u16 = 8;

// The high bytes, each of which has a shape.
pub const HIGH_BYTES: usize = 256;

// What an order changes of its task's own machine, beside that R0 is moved past it.
#[derive(Clone, Copy)]
pub enum Change {
    // a register becomes a word
    Register(usize, u16),
    // a word is stored at an address
    Store(Address, u16),
    // the flags become a word
    Flags(u16),
    // the return address is stored at an address, which R1 becomes; R0 becomes a word
    Call(Address, u16),
    // R1 and R0 become words
    Return(u16, u16),
}
