// The public calls. Each takes any bytes; the graph is read first, and the first refusal met is the answer. A call that is
// turned away leaves what it was lent as it came.
#![tactic(auto)]

ghost use Rattle.std.specs.Prelude.{◌≡◌};
ghost use Rattle.writing.specs.Lent.{Leaves};
ghost use Rattle.translator.specs.Translate.{translation};
ghost use Rattle.convert.specs.Convert.{shredded, rebuilt};
ghost use Rattle.writing.specs.Inside.Made.{answer_for};
ghost use Rattle.announce.specs.Check.{check_of};
ghost use Rattle.rooms.specs.Run.{Gives};
ghost use Rattle.runner.specs.Run.{run_of};
ghost use Rattle.trammelbud.specs.Calls.{read_graph, read_document, read_tables, read_query, read_program, select_of, list_of};

mod list;
mod plan;

use announce::Checked;
use elements::UNREAD;
use meaning::{Answer, Refusal, SMALL};
use writing::answer;

// A graph: how many types it has.
pub fn tb_read_graph(gra: &[u8]) -> Answer
    ensures { result ≡ read_graph gra.now }
{
    answer(graph::read(gra).map(|graph| u32::from(graph.k)))
}

// A document: how many elements it has.
pub fn tb_read_document(gra: &[u8], tre: &[u8]) -> Answer
    ensures { result ≡ read_document gra.now tre.now }
{
    let mut kept = [UNREAD; SMALL.elements];
    answer(files::document(gra, tre, &mut kept).map(|opened| opened.read as u32))
}

// Tables: how many elements they hold.
pub fn tb_read_tables(gra: &[u8], edg: &[u8]) -> Answer
    ensures { result ≡ read_tables gra.now edg.now }
{
    let mut kept = [UNREAD; SMALL.elements];
    answer(files::tables(gra, edg, &mut kept).map(|opened| opened.read as u32))
}

// A query: how many nodes it has.
pub fn tb_read_query(gra: &[u8], qry: &[u8]) -> Answer
    ensures { result ≡ read_query gra.now qry.now }
{
    answer(files::query(gra, qry).map(|opened| u32::from(opened.read)))
}

// A program: how many steps it has.
pub fn tb_read_program(gra: &[u8], rel: &[u8]) -> Answer
    ensures { result ≡ read_program gra.now rel.now }
{
    answer(files::program(gra, rel).map(|opened| opened.read.count as u32))
}

// The tables of a document. `out` needs 6 + k + 4n bytes; the length written is the answer.
pub fn tb_shred(gra: &[u8], tre: &[u8], out: &mut [u8]) -> Answer
    ensures { Leaves (shredded gra.now tre.now out.old) result out.new }
{
    answer(convert::shred(gra, tre, out))
}

// The document of tables. `out` needs 5 + 5n bytes; the length written is the answer.
pub fn tb_rebuild(gra: &[u8], edg: &[u8], out: &mut [u8]) -> Answer
    ensures { Leaves (rebuilt gra.now edg.now out.old) result out.new }
{
    answer(convert::rebuild(gra, edg, out))
}

// The program of a query. `out` needs 6 bytes and 3 for each step; the length written is the answer.
pub fn tb_translate(gra: &[u8], qry: &[u8], out: &mut [u8]) -> Answer
    ensures { Leaves (translation gra.now qry.now out.old) result out.new }
{
    answer(translator::translate(gra, qry, out))
}

// What each step of a program may join: for each of 17 kinds, the set of kinds.
pub fn tb_check(gra: &[u8], rel: &[u8]) -> Checked
    ensures { result ≡ check_of gra.now rel.now }
{
    announce::check(gra, rel)
}

// Runs a program. `out` needs n+1 bytes for the nodes, `work` 2,048 for each step; the number of nodes is the answer.
pub fn tb_run(gra: &[u8], edg: &[u8], rel: &[u8], out: &mut [u8], work: &mut [u8]) -> Answer
    ensures { Gives (run_of gra.now edg.now rel.now out.old work.old) result out.new work.new }
{
    answer(runner::run(gra, edg, rel, out, work))
}

// The nodes that a query selects. `out` needs n+1 bytes for them, `work` 2,048 for each step of the query's program; their
// number is the answer.
pub fn tb_select(gra: &[u8], edg: &[u8], qry: &[u8], out: &mut [u8], work: &mut [u8]) -> Answer
    ensures { Gives (select_of gra.now edg.now qry.now out.old work.old) result out.new work.new }
{
    answer(select(gra, edg, qry, out, work))
}

// The listing of the nodes that a query selects. `text` needs 13(n+2) bytes, which the longest one takes, `work` 2,048 for
// each step of the query's program; the listing's length is the answer.
pub fn tb_list(gra: &[u8], edg: &[u8], qry: &[u8], text: &mut [u8], work: &mut [u8]) -> Answer
    ensures { Gives (list_of gra.now edg.now qry.now text.old work.old) result text.new work.new }
{
    answer(listed(gra, edg, qry, text, work))
}

// The program that a query asks for, run.
fn select(
    gra: &[u8],
    edg: &[u8],
    qry: &[u8],
    out: &mut [u8],
    work: &mut [u8],
) -> Result<u32, Refusal>
    ensures { Gives (select_of gra.now edg.now qry.now out.old work.old) (answer_for result) out.new work.new }
{
    let mut kept = [UNREAD; SMALL.elements];
    let plan = plan::make(gra, edg, qry, &mut kept)?;
    rooms::run_over(&kept[..plan.count], &plan.program, out, work)
}

// The same, and the nodes listed.
fn listed(
    gra: &[u8],
    edg: &[u8],
    qry: &[u8],
    text: &mut [u8],
    work: &mut [u8],
) -> Result<u32, Refusal>
    ensures { Gives (list_of gra.now edg.now qry.now text.old work.old) (answer_for result) text.new work.new }
{
    let mut kept = [UNREAD; SMALL.elements];
    let plan = plan::make(gra, edg, qry, &mut kept)?;
    list::list(&kept[..plan.count], &plan.program, text, work)
}
