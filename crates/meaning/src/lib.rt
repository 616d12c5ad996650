// The plain types that every room shares.
#![tactic(auto)]

ghost use Rattle.std.specs.Prelude.{◌≡◌};
ghost use Rattle.meaning.specs.Refused.{number_of};

// Kinds are numbered below this: the types, and the document node's.
pub const KINDS: usize = 17;

// Types are numbered below this.
pub const TYPES: usize = 16;

// The kind of the document node.
pub const DOCUMENT: usize = TYPES;

// Steps of a program are numbered below this.
pub const STEPS: usize = 24;

// A graph of k types: bit t of children[s] is set when type t may be a child of type s. The masks from k on are 0: an
// array of fixed size, since there is no heap.
#[derive(Clone, Copy)]
pub struct Graph {
    pub k: u8,
    pub root: u8,
    pub children: [u16; TYPES],
}

// An element: its parent's number (0 is the document node), its type and its text number.
#[derive(Clone, Copy)]
pub struct Element {
    pub parent: u8,
    pub kind: u8,
    pub text: u16,
}

// What depends on how many elements a document may have: that number, the bytes of a row of bits, one for each node, and the
// bytes of a node's number.
#[derive(Clone, Copy)]
pub struct Sizes {
    pub elements: usize,
    pub row: usize,
    pub number: usize,
}

// Documents of up to 127 elements.
pub const SMALL: Sizes = Sizes {
    elements: 127,
    row: 16,
    number: 1,
};

// The nine operations, each with what it needs: a mask of types, a text number, or the steps that it reads.
#[derive(Clone, Copy)]
pub enum Operation {
    Table(u16),
    Itself,
    Text(u16),
    Join(u8, u8),
    Union(u8, u8),
    Closure(u8),
    Has(u8),
    Diff(u8, u8),
    Both(u8, u8),
}

// A step: its operation beside its number.
#[derive(Clone, Copy)]
pub struct Step {
    pub number: u8,
    pub operation: Operation,
}

// A program of count steps, step s at place s of an array of fixed size, since there is no heap.
#[derive(Clone, Copy)]
pub struct Program {
    pub count: usize,
    pub steps: [Step; STEPS],
}

// Why input is turned away.
#[derive(Clone, Copy)]
pub enum Reason {
    Ended,
    Mark,
    Version,
    Bound,
    Code,
    Kind,
    Edge,
    Number,
    Operand,
    Extra,
    Steps,
    Room,
}

// What a refusal holds.
#[derive(Clone, Copy)]
pub struct Refusal {
    pub reason: Reason,
}

// What a call answers: 0 and a count, or the number of a reason and 0. C is handed it; inside, a `Result` says the same.
#[repr(C)]
#[derive(Clone, Copy)]
pub struct Answer {
    pub number: u8,
    pub count: u32,
}

// The number by which a caller knows the reason.
impl From<Reason> for u8 {
    ghost from_gives = { λ r n. n ≡ number_of r };

    fn from(reason: Reason) -> u8 {
        match reason {
            Reason::Ended => 1,
            Reason::Mark => 2,
            Reason::Version => 3,
            Reason::Bound => 4,
            Reason::Code => 5,
            Reason::Kind => 6,
            Reason::Edge => 7,
            Reason::Number => 8,
            Reason::Operand => 9,
            Reason::Extra => 10,
            Reason::Steps => 11,
            Reason::Room => 12,
        }
    }
}
