// What stands between two parts, and behind one or two.
ghost use Rattle.std.specs.Prelude.{◌≡◌, ◌^◌, ◌<◌, length};
ghost use Rattle.meaning.specs.Limits.{kinds};
ghost use Rattle.steps.specs.Inside.Writes.{Behind};
ghost use Rattle.descent.specs.Inside.Rows.{ending_count, led, Between, Ended, Finishes, Begins, Combines};

use crate::rows::{Ending, Second};
use meaning::Graph;
use steps::{Operator, Place};

impl Ending {
    // Behind the only part, under the kinds of the whole.
    #[tactic(auto, using(crate::proofs::PartSteps::has_ends))]
    pub(crate) fn end(self, kinds: u32, inner: Place, out: &mut [u8]) -> Place
        requires { Behind (ending_count self) (length out.old) inner inner }
        ensures { Finishes self kinds out.old out.new inner result }
    {
        let behind = Place { kinds, ..inner };
        match self {
            Ending::Has => behind.combine(Operator::Has, behind, out),
            Ending::Not => behind.with_itself(Operator::Diff, out),
        }
    }
}

impl Second {
    // Behind the first of two parts, where the second begins: the whole stands under these kinds.
    #[tactic(auto, using(crate::proofs::KindMasks::reachable_words, crate::proofs::KindMasks::below_or))]
    pub(crate) fn begin(self, g: &Graph, kinds: u32, left: Place, out: &mut [u8]) -> Place
        requires { Between self g.now (length out.old) left }
        ensures { Begins self g.now kinds out.old out.new left result }
    {
        match self {
            Second::After => left,
            Second::Beside => Place { kinds, ..left },
            Second::Deeper => left.below(kinds::reachable(*g, left.kinds), out),
        }
    }

    // The kinds behind two parts, of those behind each.
    #[tactic(auto, using(crate::proofs::KindMasks::together_or))]
    fn led(self, left: u32, right: u32) -> u32
        requires left_bound { left < 2 ^ kinds }
        requires right_bound { right < 2 ^ kinds }
        ensures { result ≡ led self left right }
    {
        match self {
            Second::After | Second::Deeper => right,
            Second::Beside => left | right,
        }
    }

    // Behind two parts, of which the second began there, and the first led to these kinds.
    pub(crate) fn combine(
        self,
        operator: Operator,
        kinds: u32,
        begun: Place,
        right: Place,
        out: &mut [u8],
    ) -> Place
        requires { Ended kinds (length out.old) begun right }
        ensures { Combines self operator kinds out.old out.new begun right result }
    {
        let behind = Place {
            kinds: self.led(kinds, right.kinds),
            ..right
        };
        begun.combine(operator, behind, out)
    }
}
