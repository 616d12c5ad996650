// The runner: it takes any program's file, and runs it over the elements of a tables file.
#![tactic(auto)]

ghost use Rattle.writing.specs.Inside.Made.{answer_for};
ghost use Rattle.rooms.specs.Run.{Gives};
ghost use Rattle.runner.specs.Run.{run_of};

use elements::UNREAD;
use meaning::{Refusal, SMALL};

// Reads a graph, tables and a program, and runs the program over the tables' elements.
pub fn run(
    gra: &[u8],
    edg: &[u8],
    rel: &[u8],
    out: &mut [u8],
    work: &mut [u8],
) -> Result<u32, Refusal>
    ensures { Gives (run_of gra.now edg.now rel.now out.old work.old) (answer_for result) out.new work.new }
{
    let mut kept = [UNREAD; SMALL.elements];
    let opened = files::tables_then_program(gra, edg, rel, &mut kept)?;
    rooms::run_over(&kept[..opened.count], &opened.program, out, work)
}
