// Announcements as values: what an operation may join, from what its operands may, and that for each step of a program.
#![tactic(auto)]

ghost use Rattle.std.specs.Prelude.{◌≡◌, true, List, [], ℕ, ◌<◌, length, map};
ghost use Rattle.meaning.specs.declared.Operation.TheVariants.{Table};
ghost use Rattle.meaning.specs.Limits.{kinds};
ghost use Rattle.meaning.specs.Sets.{bit};
ghost use Rattle.meaning.specs.Inside.Diagonal.{diagonal};
ghost use Rattle.meaning.specs.Relations.{nothing, unite, intersection, join, closure, has};
ghost use Rattle.meaning.specs.Graphs.{LegalGraph};
ghost use Rattle.meaning.specs.Operations.{LegalOperation};
ghost use Rattle.meaning.specs.Announcements.{pairs};
ghost use Rattle.meaning.specs.Inside.Records.{operations_in};
ghost use Rattle.masks.specs.Inside.Pairs.{image_of, LegalUnder};
ghost use Rattle.masks.specs.Announcement.{announcement, rel_of};

use meaning::{Graph, KINDS, Operation, Program, STEPS, TYPES};
use std::array;

// The set of all kinds.
const EVERY: u32 = (1 << KINDS) - 1;
// The set of all kinds but the document node's.
const EVERY_TYPE: u32 = (1 << TYPES) - 1;

// What a step may join: bit B of mask A is set for the pair of kinds (A, B).
#[repr(C)]
#[derive(Clone, Copy)]
pub struct Announced {
    pub pairs: [u32; KINDS],
}

#[tactic(auto, using(crate::proofs::Algebra::algebra))]
pub fn nothing() -> Announced
    ensures { rel_of result ≡ nothing }
{
    Announced { pairs: [0; KINDS] }
}

// What the kinds of the set are joined to.
#[tactic(auto, using(crate::proofs::Algebra::algebra))]
fn image(set: u32, a: &Announced) -> u32
    ensures { bit result ≡ image_of (rel_of a.now) (bit set) }
{
    let mut found = 0;
    for (kind, row) in a.pairs.iter().enumerate() {
        found |= kinds::chosen(set, kind, *row);
    }
    found
}

// The pairs of either.
fn union(a: &Announced, b: &Announced) -> Announced
    ensures { rel_of result ≡ unite (rel_of a.now) (rel_of b.now) }
{
    Announced {
        pairs: array::from_fn(|kind| a.pairs[kind] | b.pairs[kind]),
    }
}

// The pairs of both.
fn both(a: &Announced, b: &Announced) -> Announced
    ensures { rel_of result ≡ intersection (rel_of a.now) (rel_of b.now) }
{
    Announced {
        pairs: array::from_fn(|kind| a.pairs[kind] & b.pairs[kind]),
    }
}

// A pair of the first and one of the second as one.
fn joined(a: &Announced, b: &Announced) -> Announced
    ensures { rel_of result ≡ join kinds (rel_of a.now) (rel_of b.now) }
{
    Announced {
        pairs: array::from_fn(|kind| image(a.pairs[kind], b)),
    }
}

// Round by round one step more: among 17 kinds, 17 steps are enough.
#[tactic(auto, using(crate::proofs::Algebra::algebra))]
fn closure(a: &Announced) -> Announced
    ensures { rel_of result ≡ closure kinds (rel_of a.now) }
{
    let mut r = nothing();
    for _ in 0..KINDS {
        r = union(a, &joined(&r, a));
    }
    r
}

// Each kind of the set with itself.
fn diagonal(set: u32) -> Announced
    requires { (A : ℕ) → bit set A ≡ true → A < kinds }
    ensures { rel_of result ≡ diagonal (bit set) }
{
    Announced {
        pairs: array::from_fn(|kind| kinds::single(kind) & set),
    }
}

// Each kind that is joined to some kind, with itself.
fn has(a: &Announced) -> Announced
    ensures { rel_of result ≡ has kinds (rel_of a.now) }
{
    Announced {
        pairs: array::from_fn(|kind| {
            if a.pairs[kind] & EVERY == 0 {
                0
            } else {
                kinds::single(kind)
            }
        }),
    }
}

// The edges from live kinds to types of the mask.
fn table(g: Graph, mask: u16) -> Announced
    requires { LegalGraph g }
    ensures { rel_of result ≡ pairs g [] (Table mask) }
{
    let live = kinds::live(g);
    let types = u32::from(mask);
    Announced {
        pairs: array::from_fn(|kind| {
            let children = kinds::child_kinds(g, kind) & types;
            kinds::chosen(live, kind, children)
        }),
    }
}

// What an operation may join, from what the steps made before it may.
#[tactic(auto, using(crate::proofs::Operations::reading), unfolding(meaning::specs::Operations::LegalOperation, meaning::specs::Announcements::pairs))]
fn pairs(g: Graph, operation: Operation, made: &[Announced]) -> Announced
    requires graph { LegalGraph g }
    requires operands { LegalOperation g.k (length made.now) operation }
    ensures { rel_of result ≡ pairs g (map rel_of made.now) operation }
{
    match operation {
        Operation::Table(mask) => table(g, mask),
        Operation::Itself => diagonal(kinds::live(g)),
        // 0 is the number of no text.
        Operation::Text(0) => nothing(),
        Operation::Text(_) => diagonal(kinds::live(g) & EVERY_TYPE),
        Operation::Join(a, b) => joined(&made[usize::from(a)], &made[usize::from(b)]),
        Operation::Union(a, b) => union(&made[usize::from(a)], &made[usize::from(b)]),
        Operation::Closure(a) => closure(&made[usize::from(a)]),
        Operation::Has(a) => has(&made[usize::from(a)]),
        Operation::Diff(a, _) => made[usize::from(a)],
        Operation::Both(a, b) => both(&made[usize::from(a)], &made[usize::from(b)]),
    }
}

// Step by step, each from those before it.
#[tactic(auto, using(crate::proofs::Loop::turns))]
pub fn announce(g: Graph, p: &Program) -> [Announced; STEPS]
    requires { LegalUnder g p.now }
    ensures { result ≡ announcement g (operations_in p.now) }
{
    let mut steps = [nothing(); STEPS];
    for step in &p.steps[..p.count] {
        let number = usize::from(step.number);
        steps[number] = pairs(g, step.operation, &steps[..number]);
    }
    steps
}
