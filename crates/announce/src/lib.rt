// The check: which kinds each step of a program may join, from the graph alone.
#![tactic(auto)]

ghost use Rattle.std.specs.Prelude.{◌≡◌};
ghost use Rattle.fields.specs.Read.{refused};
ghost use Rattle.announce.specs.Check.{checked, check_of};

use masks::Announced;
use meaning::{Refusal, STEPS};

// What the check answers: 0 and the announcement of each step, with no pairs past the last; or a refusal's number and no pairs. C is handed
// it by value.
#[repr(C)]
#[derive(Clone, Copy)]
pub struct Checked {
    pub number: u8,
    pub steps: [Announced; STEPS],
}

fn refused(refusal: Refusal) -> Checked
    ensures { result ≡ checked (refused refusal) }
{
    Checked {
        number: u8::from(refusal.reason),
        steps: [masks::nothing(); STEPS],
    }
}

// Reads a graph and a program, and announces the pairs of each step.
pub fn check(gra: &[u8], rel: &[u8]) -> Checked
    ensures { result ≡ check_of gra.now rel.now }
{
    match files::program(gra, rel) {
        Ok(opened) => Checked {
            number: 0,
            steps: masks::announce(opened.graph, &opened.read),
        },
        Err(refusal) => refused(refusal),
    }
}
