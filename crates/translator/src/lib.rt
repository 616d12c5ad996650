// The translator: a query's program, written as a file. The graph is judged, then the query; 11 comes next, the room last,
// and no byte is written before all of that is known.
#![tactic(auto)]

mod count;

ghost use Rattle.std.specs.Prelude.{◌≡◌, ◌≤◌, ◌++◌, length};
ghost use Rattle.fields.specs.Write.{byte_of, header_of};
ghost use Rattle.writing.specs.Lent.{Leaves, over};
ghost use Rattle.writing.specs.Inside.Made.{answer_for};
ghost use Rattle.translator.specs.Inside.Translated.{translated_under};
ghost use Rattle.translator.specs.Translate.{translation};
ghost use Rattle.translator.specs.Inside.Translatable.{AcceptedQuery, Translatable};

use meaning::{Graph, Reason, Refusal};
use writing::Writer;

// What stands before the steps: the header, and how many they are.
fn write_head(steps: u8, out: &mut [u8])
    requires { 6 ≤ length out.old }
    ensures { out.new ≡ over 0 (header_of 0x52 0x45 0x4C 1 ++ byte_of steps) out.old }
{
    let mut w = Writer { out, at: 0 };
    w.header(b'R', b'E', b'L', 1);
    w.byte(steps);
}

// The program of a query that was accepted and is not too long, where there is room for it.
fn written(g: Graph, qry: &[u8], steps: u8, out: &mut [u8]) -> Result<u32, Refusal>
    requires { Translatable g qry.now steps (length out.old) }
    ensures { Leaves (translated_under g qry.now out.old) (answer_for result) out.new }
{
    write_head(steps, out);
    descent::query(g, qry, out);
    Ok(6 + 3 * u32::from(steps))
}

// What is still judged of a query that was accepted under a graph: its steps, then the room.
pub fn write(g: Graph, qry: &[u8], out: &mut [u8]) -> Result<u32, Refusal>
    requires { AcceptedQuery g qry.now }
    ensures { Leaves (translated_under g qry.now out.old) (answer_for result) out.new }
{
    let Some(steps) = count::steps(qry) else {
        return Err(Refusal {
            reason: Reason::Steps,
        });
    };
    if out.len() < 6 + 3 * usize::from(steps) {
        return Err(Refusal {
            reason: Reason::Room,
        });
    }
    written(g, qry, steps, out)
}

pub fn translate(gra: &[u8], qry: &[u8], out: &mut [u8]) -> Result<u32, Refusal>
    ensures { Leaves (translation gra.now qry.now out.old) (answer_for result) out.new }
{
    let asked = files::query(gra, qry)?;
    write(asked.graph, qry, out)
}
