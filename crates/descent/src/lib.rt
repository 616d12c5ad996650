// The descent through the query, left part first: each part is translated under its own context kinds, and the kinds out
// of a left part are handed to the right one.
#![tactic(auto)]

mod leaves;
mod parts;
mod rows;

ghost use Rattle.std.specs.Prelude.{length};
ghost use Rattle.descent.specs.Inside.Dues.{start, Due, Done};

use crate::rows::Row;
use meaning::{DOCUMENT, Graph};
use steps::Place;

// The descent begins behind the query's header, at the document node.
const START: Place = Place {
    kinds: 1 << DOCUMENT,
    at: 5,
    steps: 0,
};

// The part that begins at a place; answers the place behind it.
fn part(g: &Graph, qry: &[u8], from: Place, out: &mut [u8]) -> Place
    requires { Due g.now qry.now (length out.old) from }
    ensures { Done g.now qry.now out.old out.new from result }
{
    let next = Place {
        at: from.at + 1,
        ..from
    };
    match rows::row_at(qry, from.at) {
        Row::Leaf(leaf) => leaf.write(g, qry, next, out),
        Row::One(ending) => {
            let inner = part(g, qry, next, out);
            ending.end(from.kinds, inner, out)
        }
        Row::Two(second, operator) => {
            let left = part(g, qry, next, out);
            let begun = second.begin(g, from.kinds, left, out);
            let right = part(g, qry, begun, out);
            second.combine(operator, left.kinds, begun, right, out)
        }
    }
}

// The whole query. The graph is lent from here, so that no array goes through the recursion by value.
pub fn query(g: Graph, qry: &[u8], out: &mut [u8]) -> Place
    requires { Due g qry.now (length out.old) start }
    ensures { Done g qry.now out.old out.new start result }
{
    part(&g, qry, START, out)
}
