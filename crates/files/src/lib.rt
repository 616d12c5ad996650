// The files of a call, read in order: the graph first, then the others under it. The first refusal met is handed on.
#![tactic(auto)]

ghost use Rattle.std.specs.Prelude.{◌≡◌, length};
ghost use Rattle.meaning.specs.Limits.{element_limit};
ghost use Rattle.files.specs.Inside.Opens.{Opens, OfElements, OfQuery, OfProgram, OfTablesThenQuery, OfTablesThenProgram};
ghost use Rattle.files.specs.Files.{document_under, tables_under, query_under, program_under, tables_then_query, tables_then_program};

use meaning::{Element, Graph, Program, Refusal};

// A graph, and what was read under it: how many elements are kept, how many nodes a query has, or a program.
#[derive(Clone, Copy)]
pub struct Under<T> {
    pub graph: Graph,
    pub read: T,
}

// How many elements are kept, and the program to run over them.
#[derive(Clone, Copy)]
pub struct Runnable {
    pub count: usize,
    pub program: Program,
}

pub fn document(gra: &[u8], tre: &[u8], kept: &mut [Element]) -> Result<Under<usize>, Refusal>
    requires { length kept.old ≡ element_limit }
    ensures { Opens (document_under gra.now tre.now) result (OfElements kept.new) }
{
    let graph = graph::read(gra)?;
    let read = document::read(tre, graph, kept)?;
    Ok(Under { graph, read })
}

pub fn tables(gra: &[u8], edg: &[u8], kept: &mut [Element]) -> Result<Under<usize>, Refusal>
    requires { length kept.old ≡ element_limit }
    ensures { Opens (tables_under gra.now edg.now) result (OfElements kept.new) }
{
    let graph = graph::read(gra)?;
    let read = tables::read(edg, graph, kept)?;
    Ok(Under { graph, read })
}

// Taken into its callers: one asks for the count alone, and handing it the graph takes a quarter of a short query's time.
#[inline(always)]
pub fn query(gra: &[u8], qry: &[u8]) -> Result<Under<u8>, Refusal>
    ensures { Opens (query_under gra.now qry.now) result OfQuery }
{
    let graph = graph::read(gra)?;
    let read = query::read(qry, graph.k)?;
    Ok(Under { graph, read })
}

pub fn program(gra: &[u8], rel: &[u8]) -> Result<Under<Program>, Refusal>
    ensures { Opens (program_under gra.now rel.now) result OfProgram }
{
    let graph = graph::read(gra)?;
    let read = program::read(rel, graph.k)?;
    Ok(Under { graph, read })
}

pub fn tables_then_query(
    gra: &[u8],
    edg: &[u8],
    qry: &[u8],
    kept: &mut [Element],
) -> Result<Under<usize>, Refusal>
    requires { length kept.old ≡ element_limit }
    ensures { Opens (tables_then_query gra.now edg.now qry.now) result (OfTablesThenQuery kept.new) }
{
    let opened = tables(gra, edg, kept)?;
    query::read(qry, opened.graph.k)?;
    Ok(opened)
}

pub fn tables_then_program(
    gra: &[u8],
    edg: &[u8],
    rel: &[u8],
    kept: &mut [Element],
) -> Result<Runnable, Refusal>
    requires { length kept.old ≡ element_limit }
    ensures { Opens (tables_then_program gra.now edg.now rel.now) result (OfTablesThenProgram kept.new) }
{
    let Under { graph, read: count } = tables(gra, edg, kept)?;
    let program = program::read(rel, graph.k)?;
    Ok(Runnable { count, program })
}
