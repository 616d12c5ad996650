// The codes with no part: one step, and the kinds behind it.
ghost use Rattle.std.specs.Prelude.{◌≡◌, ◌^◌, ◌<◌, length};
ghost use Rattle.meaning.specs.Limits.{types, kinds};
ghost use Rattle.meaning.specs.Translation.{only};
ghost use Rattle.descent.specs.Inside.Rows.{LeafDue, Leads};

use crate::rows::Leaf;
use meaning::{Graph, Operation};
use steps::Place;

// A type, if it is among some kinds.
#[tactic(auto, using(crate::proofs::KindMasks::only_and))]
fn only(t: u8, among: u32) -> u32
    requires t_lt_types { t < types }
    requires among_bound { among < 2 ^ kinds }
    ensures { result ≡ only t among }
{
    (1 << t) & among
}

impl Leaf {
    // The step of a code, whose fields stand at the place.
    #[tactic(auto, using(crate::proofs::KindMasks::image_small, crate::proofs::KindMasks::children_words, crate::proofs::KindMasks::only_words))]
    pub(crate) fn write(self, g: &Graph, qry: &[u8], from: Place, out: &mut [u8]) -> Place
        requires { LeafDue self g.now qry.now (length out.old) from }
        ensures { Leads self g.now qry.now out.old out.new from result }
    {
        let at = usize::from(from.at);
        match self {
            Leaf::Itself => from.add(Operation::Itself, out),
            Leaf::Child => {
                let kinds = only(qry[at], kinds::children(*g, from.kinds));
                let behind = Place {
                    kinds,
                    at: from.at + 1,
                    ..from
                };
                behind.table(kinds, out)
            }
            Leaf::Children => {
                let kinds = kinds::children(*g, from.kinds);
                let behind = Place { kinds, ..from };
                behind.table(kinds, out)
            }
            Leaf::Text => {
                let text = u16::from_be_bytes([qry[at], qry[at + 1]]);
                let behind = Place {
                    at: from.at + 2,
                    ..from
                };
                behind.add(Operation::Text(text), out)
            }
        }
    }
}
