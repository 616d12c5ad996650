// Kinds: the edges between them, and sets of them as masks.
#![tactic(auto)]

ghost use Rattle.std.specs.Prelude.{◌≡◌, ◌<◌, cond, eqb};
ghost use Rattle.meaning.specs.Limits.{kinds};
ghost use Rattle.meaning.specs.Sets.{bit, mask};
ghost use Rattle.meaning.specs.Graphs.{child_kind, reachable, live};
ghost use Rattle.meaning.specs.Translation.{image};

use meaning::{DOCUMENT, Graph, KINDS, TYPES};

// Whether the kind is in the set.
#[tactic(auto, using(meaning::proofs::Bits::bit_shifted))]
pub fn has(set: u32, kind: usize) -> bool
    requires { kind < 32 }
    ensures { result ≡ bit set kind }
{
    (set >> kind) % 2 == 1
}

// Whether b is a child kind of a. Numbers that are no kinds have no edge.
#[tactic(auto, using(crate::proofs::Edges::laws))]
pub fn is_child(g: Graph, a: u8, b: u8) -> bool
    ensures { result ≡ child_kind g a b }
{
    let from = usize::from(a);
    let to = usize::from(b);
    if from == DOCUMENT {
        return b == g.root;
    }
    from < TYPES && to < TYPES && has(u32::from(g.children[from]), to)
}

// The set of one kind; of none, where the number is no kind.
#[tactic(auto, using(crate::proofs::KindMasks::laws))]
pub fn single(kind: usize) -> u32
    ensures { result ≡ mask kinds (λ A. eqb A kind) }
{
    if kind < KINDS { 1 << kind } else { 0 }
}

// The child kinds of one kind.
#[tactic(auto, using(crate::proofs::KindMasks::laws))]
pub fn child_kinds(g: Graph, kind: usize) -> u32
    requires { kind < kinds }
    ensures { result ≡ mask kinds (child_kind g kind) }
{
    if kind == DOCUMENT {
        return single(usize::from(g.root));
    }
    u32::from(g.children[kind])
}

// The row of a kind, where the set has the kind; else no kinds.
pub fn chosen(set: u32, kind: usize, row: u32) -> u32
    requires { kind < 32 }
    ensures { result ≡ cond (bit set kind) row 0 }
{
    if has(set, kind) { row } else { 0 }
}

// The child kinds of the kinds in c.
#[tactic(auto, using(crate::proofs::KindMasks::laws))]
pub fn children(g: Graph, c: u32) -> u32
    ensures { result ≡ image (child_kind g) c }
{
    let mut found = 0;
    for kind in 0..KINDS {
        found |= chosen(c, kind, child_kinds(g, kind));
    }
    found
}

// The kinds reachable from those in c by one or more edges: each round adds the children of what the last one found, and
// as many rounds as there are kinds are enough.
#[tactic(auto, using(crate::proofs::KindMasks::laws))]
pub fn reachable(g: Graph, c: u32) -> u32
    ensures { result ≡ image (reachable g) c }
{
    let mut reached = 0;
    for _ in 0..KINDS {
        reached = children(g, c | reached);
    }
    reached
}

// The document node's kind, the root type, and what is reachable from it.
pub fn live(g: Graph) -> u32
    ensures { result ≡ mask kinds (live g) }
{
    let root = single(usize::from(g.root));
    single(DOCUMENT) | root | reachable(g, root)
}
