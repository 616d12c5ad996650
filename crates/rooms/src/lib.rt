// Rooms: the steps of a program, each made in its room of a lent work area, and the nodes that the last one selects.
#![tactic(auto)]

ghost use Rattle.std.specs.Prelude.{◌≡◌, ◌*◌, ◌≤◌, length};
ghost use Rattle.meaning.specs.Limits.{small, room_bytes};
ghost use Rattle.meaning.specs.Documents.{view};
ghost use Rattle.meaning.specs.Operations.{rows};
ghost use Rattle.meaning.specs.Inside.Records.{operations_in};
ghost use Rattle.writing.specs.Inside.Made.{answer_for};
ghost use Rattle.rooms.specs.Layout.{work_byte, overwritten};
ghost use Rattle.rooms.specs.Inside.Rooms.{RoomMade};
ghost use Rattle.rooms.specs.Inside.FitToRun.{FitToRun};
ghost use Rattle.rooms.specs.Inside.Steps.{rooms_in, Makeable};
ghost use Rattle.rooms.specs.Run.{performed, Gives};

mod relations;
mod room;

use crate::relations::Test;
use crate::room::Room;
use meaning::{Element, Operation, Program, Reason, Refusal, Step};
use rows::Mix;

// The room of the step with this number.
fn room_of(step: u8) -> Room
    ensures { result.base ≡ room_bytes small.row * step }
{
    Room::of(usize::from(step))
}

// Makes a step in the room of its number, from the rooms of its operands.
fn make(work: &mut [u8], elements: &[Element], step: Step)
    requires { Makeable small.row elements.now work.old step.number step.operation }
    ensures { RoomMade small.row work.old work.new (room_bytes small.row * step.number) (rows (view elements.now) (rooms_in small.row work.old step.number) step.operation) }
{
    let room = room_of(step.number);
    let size = elements.len() + 1;
    match step.operation {
        Operation::Table(mask) => room.table(work, elements, mask),
        Operation::Itself => room.diagonal(work, elements, Test::Always),
        // 0 is the number of no text.
        Operation::Text(0) => room.clear(work),
        Operation::Text(number) => room.diagonal(work, elements, Test::Text(number)),
        Operation::Join(a, b) => room.join(work, room_of(a), room_of(b), size),
        Operation::Union(a, b) => room.mix(work, room_of(a), room_of(b), size, Mix::Either),
        Operation::Closure(a) => room.closure(work, room_of(a), size),
        Operation::Has(a) => room.diagonal(work, elements, Test::Related(room_of(a))),
        Operation::Diff(a, b) => room.mix(work, room_of(a), room_of(b), size, Mix::First),
        Operation::Both(a, b) => room.mix(work, room_of(a), room_of(b), size, Mix::Both),
    }
}

// Makes the steps in turn.
fn perform(work: &mut [u8], elements: &[Element], program: &Program)
    requires { FitToRun elements.now program.now × (room_bytes small.row * program.now.count ≤ length work.old) }
    ensures { work.new ≡ overwritten (work_byte small.row (view elements.now) (operations_in program.now)) (room_bytes small.row * program.now.count) work.old }
{
    for step in &program.steps[..program.count] {
        make(work, elements, *step);
    }
}

// Runs a program over elements. Where a buffer is too short, nothing is written to either.
pub fn run_over(
    elements: &[Element],
    program: &Program,
    out: &mut [u8],
    work: &mut [u8],
) -> Result<u32, Refusal>
    requires { FitToRun elements.now program.now }
    ensures { Gives (performed (view elements.now) (operations_in program.now) out.old work.old) (answer_for result) out.new work.new }
{
    let size = elements.len() + 1;
    if out.len() < size {
        return Err(Refusal {
            reason: Reason::Room,
        });
    }
    // The rooms end where one more would start.
    if work.len() < Room::of(program.count).base() {
        return Err(Refusal {
            reason: Reason::Room,
        });
    }
    perform(work, elements, program);
    let selected = Room::of(program.count - 1).read(work, 0);
    selected.list(size, out);
    Ok(selected.count())
}
