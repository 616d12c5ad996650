// The program file's reader. A step's fields are read as the table of layouts says.
#![tactic(auto)]

ghost use Rattle.std.specs.Prelude.{◌≡◌, ◌<◌, ◌≤◌, IfOk};
ghost use Rattle.meaning.specs.Limits.{step_limit};
ghost use Rattle.meaning.specs.Inside.Records.{program_of, Numbered};
ghost use Rattle.fields.specs.Inside.Outcomes.{read_of, file_of};
ghost use Rattle.fields.specs.Read.{mapped};
ghost use Rattle.rel.specs.Rel.{read_x, read_y, operation_of, step_read, steps_read, program_file};
ghost use Rattle.program.specs.Inside.Operands.{x_limit, FitsLayout};

use fields::{Cursor, Field};
use meaning::{Operation, Program, Reason, Refusal, STEPS, Step};
use rel::Layout;

// What stands in the places that a program does not use.
const BLANK: Step = Step {
    number: 0,
    operation: Operation::Itself,
};

// A byte where a word may stand as well.
fn widened(field: Field<u8>) -> Field<u16>
    ensures value { read_of result ≡ read_of field }
    ensures room { IfOk result (λ x. x.0 < 256) }
{
    field.map(|(n, next)| (u16::from(n), next))
}

fn read_x(s: &[u8], c: Cursor, layout: Layout, k: u8, number: u8) -> Field<u16>
    ensures value { read_of result ≡ read_x k number layout s.now c.at }
    ensures room { IfOk result (λ x. x.0 < x_limit layout) }
{
    match layout {
        Layout::Zeros => widened(c.byte_below(s, 1, Reason::Extra)),
        Layout::Single | Layout::Pair => widened(c.byte_below(s, number, Reason::Operand)),
        Layout::Number => c.word(s),
        Layout::Mask => c.mask_below(s, k),
    }
}

fn read_y(s: &[u8], c: Cursor, layout: Layout, number: u8) -> Field<u8>
    ensures { read_of result ≡ read_y number layout s.now c.at }
{
    match layout {
        Layout::Zeros | Layout::Single => c.byte_below(s, 1, Reason::Extra),
        Layout::Pair => c.byte_below(s, number, Reason::Operand),
        // x is a word here, and y has no byte to read.
        Layout::Number | Layout::Mask => Ok((0, c)),
    }
}

// The operation of a code, with x and y. An operand is a byte.
fn operation(code: u8, x: u16, y: u8) -> Operation
    requires { FitsLayout code x }
    ensures { result ≡ operation_of code x y }
{
    match code {
        1 => Operation::Table(x),
        2 => Operation::Itself,
        3 => Operation::Text(x),
        4 => Operation::Join(x as u8, y),
        5 => Operation::Union(x as u8, y),
        6 => Operation::Closure(x as u8),
        7 => Operation::Has(x as u8),
        8 => Operation::Diff(x as u8, y),
        9 => Operation::Both(x as u8, y),
        _ => unreachable!(),
    }
}

#[tactic(auto, unfolding(fields::specs::Read::byte, fields::specs::Read::judged, rel::specs::Rel::step_read))]
fn step(s: &[u8], c: Cursor, k: u8, number: u8) -> Field<Operation>
    ensures { read_of result ≡ step_read k number s.now c.at }
{
    let (code, after_code) = c.byte_up_to(s, rel::LAST_CODE, Reason::Code)?;
    let layout = rel::layout_of(u16::from(code));
    let (x, after_x) = read_x(s, after_code, layout, k, number)?;
    let (y, after_y) = read_y(s, after_x, layout, number)?;
    Ok((operation(code, x, y), after_y))
}

// The steps of a file. They fill an array from its first place on, with their count beside it: there is no heap.
#[tactic(auto, using(crate::proofs::Loop::upto_step))]
fn steps(s: &[u8], first: Cursor, k: u8, count: u8) -> Field<Program>
    requires { count ≤ step_limit }
    ensures { read_of result ≡ mapped program_of (steps_read k 0 count s.now first.at) }
{
    let mut steps = [BLANK; STEPS];
    let mut c = first;
    for number in 0..count {
        let (operation, next) = step(s, c, k, number)?;
        steps[usize::from(number)] = Step { number, operation };
        c = next;
    }
    let count = usize::from(count);
    Ok((Program { count, steps }, c))
}

// The program of a file: its operations, each beside its step's place as its number.
#[tactic(auto, using(meaning::proofs::Records::program_numbered), unfolding(fields::specs::Read::mapped, fields::specs::Read::byte, fields::specs::Read::judged, rel::specs::Rel::program, rel::specs::Rel::program_file))]
pub fn read(s: &[u8], k: u8) -> Result<Program, Refusal>
    ensures value { result ≡ file_of (mapped program_of (program_file k s.now 0)) }
    ensures numbered { IfOk result Numbered }
{
    let (_, after) = Cursor::start().header(s, b'R', b'E', b'L', 1)?;
    let (count, first) = after.byte_up_to(s, STEPS as u8, Reason::Bound)?;
    let (program, last) = steps(s, first, k, count)?;
    last.end(s)?;
    Ok(program)
}
