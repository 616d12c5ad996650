// The listing of the nodes that a program selects.
ghost use Rattle.std.specs.Prelude.{ℕ, ◌<◌};
ghost use Rattle.meaning.specs.Limits.{words};
ghost use Rattle.meaning.specs.Operations.{answer};
ghost use Rattle.meaning.specs.Inside.Records.{operations_in};
ghost use Rattle.meaning.specs.Documents.{view};
ghost use Rattle.writing.specs.Inside.Made.{answer_for};
ghost use Rattle.rooms.specs.Inside.FitToRun.{FitToRun};
ghost use Rattle.rooms.specs.Run.{Gives};
ghost use Rattle.trammelbud.specs.Calls.{lists};

use meaning::{Element, Program, Reason, Refusal, SMALL};

// Nodes of a document.
const NODES: usize = SMALL.elements + 1;

// The nodes are listed into a buffer of its own first: the text is written when they are known, and the room for the longest
// one is judged before anything is run.
pub(crate) fn list(
    elements: &[Element],
    program: &Program,
    out: &mut [u8],
    work: &mut [u8],
) -> Result<u32, Refusal>
    requires { FitToRun elements.now program.now × ((v : ℕ) → (view elements.now).text v < words) }
    ensures { Gives (lists (view elements.now) (answer (view elements.now) (operations_in program.now)) (operations_in program.now) out.old work.old) (answer_for result) out.new work.new }
{
    if out.len() < 13 * (elements.len() + 2) {
        return Err(Refusal {
            reason: Reason::Room,
        });
    }
    let mut nodes = [0u8; NODES];
    let count = rooms::run_over(elements, program, &mut nodes, work)?;
    let length = text::write(elements, &nodes[..count as usize], out);
    Ok(length as u32)
}
