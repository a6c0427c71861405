// Where a cell lies in an image of shape s, and the word there.
#![tactic(auto)]

ghost use Rattle.std.specs.Prelude.{◌≡◌, ◌<◌, set, length};
ghost use Rattle.paper.specs.Image.{start, width, Valid, place, word, at as word_at};
ghost use Rattle.paper.specs.Queues.{Has, head};
ghost use Rattle.paper.specs.Rules.{Fit};
ghost use Rattle.laws.specs.Sound.{Sized};

use paper::{
    Cell, ENTRY_WORDS, HEAD, HEADER_WORDS, INPUT_BUFFERS, LEAD_WORDS, MESSAGE_BUFFERS,
    OUTPUT_BUFFERS, PORT_WORDS, PORTS, Part, Place, Queue, READY_QUEUE, SEGMENT_TABLE, SEGMENTS,
    STATUS_TABLE, STATUS_WORDS, Shape, TASK_TABLE, TASK_WORDS,
};

// Where a part starts: the header's offset becomes a place.
pub fn start_of(s: Shape, p: Part) -> Place
    requires { Fit s }
    ensures { result.0 ≡ start s p }
{
    let start = match p {
        Part::Header => 0,
        Part::TaskTable => s.starts[TASK_TABLE],
        Part::ReadyQueue => s.starts[READY_QUEUE],
        Part::StatusTable => s.starts[STATUS_TABLE],
        Part::InputBuffers => s.starts[INPUT_BUFFERS],
        Part::OutputBuffers => s.starts[OUTPUT_BUFFERS],
        Part::MessageBuffers => s.starts[MESSAGE_BUFFERS],
        Part::Ports => s.starts[PORTS],
        Part::SegmentTable => s.starts[SEGMENT_TABLE],
        Part::Segments => s.starts[SEGMENTS],
    };
    Place(start)
}

// How many words a row of a part has.
fn width_of(s: Shape, p: Part) -> usize
    requires { Fit s }
    ensures { result ≡ width s p }
{
    match p {
        Part::Header => HEADER_WORDS,
        Part::TaskTable => TASK_WORDS,
        Part::ReadyQueue => LEAD_WORDS + s.n,
        Part::StatusTable => STATUS_WORDS,
        Part::InputBuffers => LEAD_WORDS + s.ci,
        Part::OutputBuffers => LEAD_WORDS + s.co,
        Part::MessageBuffers => LEAD_WORDS + s.cm,
        Part::Ports => PORT_WORDS,
        Part::SegmentTable => ENTRY_WORDS,
        Part::Segments => s.words,
    }
}

// The place of a cell.
pub fn place_of(s: Shape, c: Cell) -> Place
    requires fit { Fit s }
    requires valid { Valid s c }
    ensures { result ≡ place s c }
{
    let p = c.part;
    Place(start_of(s, p).0 + (c.row * width_of(s, p) + c.column))
}

// The word at a place.
pub fn load(im: &[u16], p: Place) -> u16
    requires { p.0 < length im.now }
    ensures { result ≡ word im.now p }
{
    im[p.0]
}

// Writes the word at a place.
pub fn store(im: &mut [u16], p: Place, v: u16)
    requires { p.0 < length im.old }
    ensures { im.new ≡ set im.old p.0 v }
{
    im[p.0] = v;
}

// The word of a cell.
pub fn word_of(s: Shape, im: &[u16], c: Cell) -> u16
    requires sized { Sized s im.now }
    requires valid { Valid s c }
    ensures { result ≡ word_at s im.now c }
{
    load(im, place_of(s, c))
}

// The cell of a queue's first word.
pub fn head_of(s: Shape, q: Queue) -> Cell
    requires fit { Fit s }
    requires has { Has s q }
    ensures { result ≡ head s q }
{
    let (part, row) = match q {
        Queue::Ready => (Part::ReadyQueue, 0),
        Queue::Input(t) => (Part::InputBuffers, usize::from(t.0)),
        Queue::Output(t) => (Part::OutputBuffers, usize::from(t.0)),
        Queue::Message(i, j) => (
            Part::MessageBuffers,
            usize::from(i.0) * s.n + usize::from(j.0),
        ),
    };
    Cell {
        part,
        row,
        column: HEAD,
    }
}
