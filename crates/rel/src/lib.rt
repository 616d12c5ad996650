// The program file: the one table of layouts, which its reader and its writer go by, and the writer of a step.
#![tactic(auto)]

ghost use Rattle.std.specs.Prelude.{◌≡◌, ◌≤◌, length};
ghost use Rattle.rel.specs.Rel.{layouts, layout_of, coded, step_bytes};

use meaning::Operation;

// How an operation uses x and y: not at all (0, 0), x as an operand (a, 0), both as operands (a, b), both together as a
// number of 16 bits, both together as a mask of types.
#[derive(Clone, Copy)]
pub enum Layout {
    Zeros,
    Single,
    Pair,
    Number,
    Mask,
}

// The last code of an operation; the first is 1. Codes are the file's own bytes and the places of the table, and no enum: the
// reader judges a byte, and the writer writes one.
pub const LAST_CODE: u8 = 9;

// The layouts of the operations, by their codes.
pub const LAYOUTS: [Layout; LAST_CODE as usize] = [
    Layout::Mask, // 0x01 TABLE
    Layout::Zeros, // 0x02 SELF
    Layout::Number, // 0x03 TEXT
    Layout::Pair, // 0x04 JOIN
    Layout::Pair, // 0x05 UNION
    Layout::Single, // 0x06 LFP
    Layout::Single, // 0x07 HAS
    Layout::Pair, // 0x08 DIFF
    Layout::Pair, // 0x09 AND
];

pub fn layout_of(code: u16) -> Layout
    requires { (1 ≤ code) × (code ≤ length layouts) }
    ensures { result ≡ layout_of code }
{
    LAYOUTS[usize::from(code) - 1]
}

// A step's bytes, from its code and the number or the operands that it has.
#[tactic(auto, unfolding(crate::specs::Rel::coded))]
fn laid(code: u8, number: u16, a: u8, b: u8) -> [u8; 3]
    requires { (1 ≤ code) × (code ≤ length layouts) }
    ensures { result ≡ coded code number a b }
{
    let [high, low] = number.to_be_bytes();
    match layout_of(u16::from(code)) {
        Layout::Zeros => [code, 0, 0],
        Layout::Single => [code, a, 0],
        Layout::Pair => [code, a, b],
        Layout::Number | Layout::Mask => [code, high, low],
    }
}

// Zeros stand for what a layout does not use: a step's bytes of no use are 0 in the file.
pub fn step_bytes(o: Operation) -> [u8; 3]
    ensures { result ≡ step_bytes o }
{
    match o {
        Operation::Table(m) => laid(1, m, 0, 0),
        Operation::Itself => laid(2, 0, 0, 0),
        Operation::Text(t) => laid(3, t, 0, 0),
        Operation::Join(a, b) => laid(4, 0, a, b),
        Operation::Union(a, b) => laid(5, 0, a, b),
        Operation::Closure(a) => laid(6, 0, a, 0),
        Operation::Has(a) => laid(7, 0, a, 0),
        Operation::Diff(a, b) => laid(8, 0, a, b),
        Operation::Both(a, b) => laid(9, 0, a, b),
    }
}
