// The program that a query asks for: translated into a file, and read from it.
ghost use Rattle.std.specs.Prelude.{◌≡◌, length};
ghost use Rattle.meaning.specs.Limits.{element_limit};
ghost use Rattle.files.specs.Inside.Opens.{Opens};
ghost use Rattle.translator.specs.Inside.Translatable.{AcceptedQuery};
ghost use Rattle.translator.specs.Inside.Translated.{translated_query};
ghost use Rattle.trammelbud.specs.Calls.{asked};
ghost use Rattle.trammelbud.specs.Inside.Parts.{Translated, Planned};

use files::{Runnable, Under};
use meaning::{Element, Graph, Program, Refusal, STEPS};

// The file of a program with as many steps as there may be.
const FILE: usize = 6 + 3 * STEPS;

// The program of a query that was accepted. There is always room for its file, so too many steps are all that can be amiss.
fn translated(g: Graph, qry: &[u8]) -> Result<Program, Refusal>
    requires { AcceptedQuery g qry.now }
    ensures { Opens (translated_query g qry.now) result (Translated g) }
{
    let mut rel = [0u8; FILE];
    let length = translator::write(g, qry, &mut rel)?;
    program::read(&rel[..length as usize], g.k)
}

pub(crate) fn make(
    gra: &[u8],
    edg: &[u8],
    qry: &[u8],
    kept: &mut [Element],
) -> Result<Runnable, Refusal>
    requires { length kept.old ≡ element_limit }
    ensures { Opens (asked gra.now edg.now qry.now) result (Planned kept.new) }
{
    let Under { graph, read: count } = files::tables_then_query(gra, edg, qry, kept)?;
    let program = translated(graph, qry)?;
    Ok(Runnable { count, program })
}
