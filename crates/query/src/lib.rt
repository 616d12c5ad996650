// The QRY reader. Paths and qualifiers may hold each other, so their readers call each other. A query is not kept:
// each reader answers how many nodes it leaves of those still allowed, and where reading goes on.
#![tactic(auto)]

ghost use Rattle.std.specs.Prelude.{◌≡◌, ◌≤◌, ◌-◌, ℕ, OnOk};
ghost use Rattle.meaning.specs.Limits.{query_limit};
ghost use Rattle.meaning.specs.Queries.{XPath};
ghost use Rattle.fields.specs.Inside.Outcomes.{read_of, file_of};
ghost use Rattle.fields.specs.Read.{mapped};
ghost use Rattle.query.specs.Qry.{path, qualifier, node_code, query_file};
ghost use Rattle.query.specs.Inside.PartsRead.{part_left};

use fields::{Cursor, Field};
use meaning::{Reason, Refusal};

// The nodes that a query may have. How many are left is a usize, as the cursor beside it is: a byte there is copied in pieces,
// and each reader would wait for them.
const LIMIT: usize = 24;

// The code of a node, if one more is allowed.
#[tactic(auto, unfolding(crate::specs::Qry::node_code))]
fn node_code(s: &[u8], c: Cursor, left: usize) -> Field<u8>
    ensures value { read_of result ≡ node_code left s.now c.at }
    ensures some { OnOk result (1 ≤ left) }
{
    if left == 0 {
        return c.refuse(Reason::Bound);
    }
    c.byte(s)
}

// A path, where left nodes are allowed. The codes are the file's bytes, as the table in specs/Qry has them.
#[cycle(path_qualifier)]
#[tactic(auto, using(crate::proofs::Laws::part_step, crate::proofs::Laws::part_falls, crate::proofs::Laws::no_path))]
fn path(s: &[u8], c: Cursor, left: usize, k: u8) -> Field<usize>
    ensures { read_of result ≡ part_left k path left s.now c.at }
{
    let (code, after) = node_code(s, c, left)?;
    let rest = left - 1;
    match code {
        0x01 | 0x03 => Ok((rest, after)),
        0x02 => {
            let (_, next) = after.byte_below(s, k, Reason::Kind)?;
            Ok((rest, next))
        }
        0x04 | 0x05 | 0x06 => {
            let (left, next) = path(s, after, rest, k)?;
            path(s, next, left, k)
        }
        0x07 => {
            let (left, next) = path(s, after, rest, k)?;
            qualifier(s, next, left, k)
        }
        _ => c.refuse(Reason::Code),
    }
}

#[cycle(path_qualifier)]
#[tactic(auto, using(crate::proofs::Laws::part_step, crate::proofs::Laws::part_falls, crate::proofs::Laws::two_qualifiers, crate::proofs::Laws::no_qualifier))]
fn qualifier(s: &[u8], c: Cursor, left: usize, k: u8) -> Field<usize>
    ensures { read_of result ≡ part_left k qualifier left s.now c.at }
{
    let (code, after) = node_code(s, c, left)?;
    let rest = left - 1;
    match code {
        0x11 => path(s, after, rest, k),
        0x12 => {
            let (_, next) = after.word(s)?;
            Ok((rest, next))
        }
        0x13 => qualifier(s, after, rest, k),
        0x14 | 0x15 => {
            let (left, next) = qualifier(s, after, rest, k)?;
            qualifier(s, next, left, k)
        }
        _ => c.refuse(Reason::Code),
    }
}

// How many nodes the query of a file has.
#[tactic(auto, using(crate::proofs::Laws::file_nodes, crate::proofs::Laws::part_falls))]
pub fn read(s: &[u8], k: u8) -> Result<u8, Refusal>
    ensures { result ≡ file_of (mapped (λ (p : XPath × ℕ). query_limit - p.1) (query_file k s.now 0)) }
{
    let (_, body) = Cursor::start().header(s, b'Q', b'R', b'Y', 1)?;
    let (left, after) = path(s, body, LIMIT, k)?;
    after.end(s)?;
    Ok((LIMIT - left) as u8)
}
