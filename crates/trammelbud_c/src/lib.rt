// The public calls as C calls them: each is the library's of its name, under the same clauses, since no crate can stand on a
// static library.
#![tactic(auto)]

ghost use Rattle.std.specs.Prelude.{◌≡◌};
ghost use Rattle.writing.specs.Lent.{Leaves};
ghost use Rattle.translator.specs.Translate.{translation};
ghost use Rattle.convert.specs.Convert.{shredded, rebuilt};
ghost use Rattle.announce.specs.Check.{check_of};
ghost use Rattle.rooms.specs.Run.{Gives};
ghost use Rattle.runner.specs.Run.{run_of};
ghost use Rattle.trammelbud.specs.Calls.{read_graph, read_document, read_tables, read_query, read_program, select_of, list_of};

use announce::Checked;
use meaning::Answer;

// A graph: how many types it has.
#[unsafe(no_mangle)]
pub extern "C" fn tb_read_graph(gra: &[u8]) -> Answer
    ensures { result ≡ read_graph gra.now }
{
    trammelbud::tb_read_graph(gra)
}

// A document: how many elements it has.
#[unsafe(no_mangle)]
pub extern "C" fn tb_read_document(gra: &[u8], tre: &[u8]) -> Answer
    ensures { result ≡ read_document gra.now tre.now }
{
    trammelbud::tb_read_document(gra, tre)
}

// Tables: how many elements they hold.
#[unsafe(no_mangle)]
pub extern "C" fn tb_read_tables(gra: &[u8], edg: &[u8]) -> Answer
    ensures { result ≡ read_tables gra.now edg.now }
{
    trammelbud::tb_read_tables(gra, edg)
}

// A query: how many nodes it has.
#[unsafe(no_mangle)]
pub extern "C" fn tb_read_query(gra: &[u8], qry: &[u8]) -> Answer
    ensures { result ≡ read_query gra.now qry.now }
{
    trammelbud::tb_read_query(gra, qry)
}

// A program: how many steps it has.
#[unsafe(no_mangle)]
pub extern "C" fn tb_read_program(gra: &[u8], rel: &[u8]) -> Answer
    ensures { result ≡ read_program gra.now rel.now }
{
    trammelbud::tb_read_program(gra, rel)
}

// The tables of a document. `out` needs 6 + k + 4n bytes; the length written is the answer.
#[unsafe(no_mangle)]
pub extern "C" fn tb_shred(gra: &[u8], tre: &[u8], out: &mut [u8]) -> Answer
    ensures { Leaves (shredded gra.now tre.now out.old) result out.new }
{
    trammelbud::tb_shred(gra, tre, out)
}

// The document of tables. `out` needs 5 + 5n bytes; the length written is the answer.
#[unsafe(no_mangle)]
pub extern "C" fn tb_rebuild(gra: &[u8], edg: &[u8], out: &mut [u8]) -> Answer
    ensures { Leaves (rebuilt gra.now edg.now out.old) result out.new }
{
    trammelbud::tb_rebuild(gra, edg, out)
}

// The program of a query. `out` needs 6 bytes and 3 for each step; the length written is the answer.
#[unsafe(no_mangle)]
pub extern "C" fn tb_translate(gra: &[u8], qry: &[u8], out: &mut [u8]) -> Answer
    ensures { Leaves (translation gra.now qry.now out.old) result out.new }
{
    trammelbud::tb_translate(gra, qry, out)
}

// What each step of a program may join: for each of 17 kinds, the set of kinds.
#[unsafe(no_mangle)]
pub extern "C" fn tb_check(gra: &[u8], rel: &[u8]) -> Checked
    ensures { result ≡ check_of gra.now rel.now }
{
    trammelbud::tb_check(gra, rel)
}

// Runs a program. `out` needs n+1 bytes for the nodes, `work` 2,048 for each step; the number of nodes is the answer.
#[unsafe(no_mangle)]
pub extern "C" fn tb_run(
    gra: &[u8],
    edg: &[u8],
    rel: &[u8],
    out: &mut [u8],
    work: &mut [u8],
) -> Answer
    ensures { Gives (run_of gra.now edg.now rel.now out.old work.old) result out.new work.new }
{
    trammelbud::tb_run(gra, edg, rel, out, work)
}

// The nodes that a query selects. `out` needs n+1 bytes for them, `work` 2,048 for each step of the query's program; their
// number is the answer.
#[unsafe(no_mangle)]
pub extern "C" fn tb_select(
    gra: &[u8],
    edg: &[u8],
    qry: &[u8],
    out: &mut [u8],
    work: &mut [u8],
) -> Answer
    ensures { Gives (select_of gra.now edg.now qry.now out.old work.old) result out.new work.new }
{
    trammelbud::tb_select(gra, edg, qry, out, work)
}

// The listing of the nodes that a query selects. `text` needs 13(n+2) bytes, which the longest one takes, `work` 2,048 for
// each step of the query's program; the listing's length is the answer.
#[unsafe(no_mangle)]
pub extern "C" fn tb_list(
    gra: &[u8],
    edg: &[u8],
    qry: &[u8],
    text: &mut [u8],
    work: &mut [u8],
) -> Answer
    ensures { Gives (list_of gra.now edg.now qry.now text.old work.old) result text.new work.new }
{
    trammelbud::tb_list(gra, edg, qry, text, work)
}
