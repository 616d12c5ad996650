// The reader of the graph's file.
#![tactic(auto)]

ghost use Rattle.std.specs.Prelude.{◌≡◌, ◌≤◌};
ghost use Rattle.meaning.specs.Limits.{types};
ghost use Rattle.fields.specs.Read.{ended};
ghost use Rattle.fields.specs.Inside.Outcomes.{read_of, file_of};
ghost use Rattle.graph.specs.Gra.{all_masks, types_read, graph_file};

use fields::{Cursor, Field};
use meaning::{Graph, Reason, Refusal, TYPES};

// The masks of k types; those from k on are 0.
fn masks(s: &[u8], c: Cursor, k: u8) -> Field<[u16; TYPES]>
    requires { k ≤ types }
    ensures { read_of result ≡ all_masks k s.now c.at }
{
    let mut masks = [0; TYPES];
    let mut cursor = c;
    for i in 0..usize::from(k) {
        let (mask, next) = cursor.mask_below(s, k)?;
        masks[i] = mask;
        cursor = next;
    }
    Ok((masks, cursor))
}

// What follows k: the root type, the masks, the end.
#[tactic(auto, unfolding(crate::specs::Gra::types_read))]
fn rest(s: &[u8], c: Cursor, k: u8) -> Result<Graph, Refusal>
    requires { k ≤ types }
    ensures { result ≡ file_of (ended (types_read k) s.now c.at) }
{
    let (root, c) = c.byte_below(s, k, Reason::Kind)?;
    let (children, c) = masks(s, c, k)?;
    c.end(s)?;
    Ok(Graph { k, root, children })
}

// The reader of the whole file.
#[tactic(auto, using(fields::proofs::Laws::up_to_limit), unfolding(crate::specs::Gra::graph, crate::specs::Gra::graph_file))]
pub fn read(s: &[u8]) -> Result<Graph, Refusal>
    ensures { result ≡ file_of (graph_file s.now 0) }
{
    let (_, c) = Cursor::start().header(s, b'G', b'R', b'A', 1)?;
    let (k, c) = c.byte_up_to(s, TYPES as u8, Reason::Bound)?;
    rest(s, c, k)
}
