// The steps of a program, written one behind the other into its file: step n stands at byte 6 + 3n.
#![tactic(auto)]

ghost use Rattle.std.specs.Prelude.{◌≡◌, ◌-◌, ◌≤◌, length};
ghost use Rattle.std.specs.Int.Bits.{bit_or};
ghost use Rattle.meaning.specs.declared.Operation.TheVariants.{Table, Itself, Join, Closure};
ghost use Rattle.meaning.specs.Translation.{step, then, descend};
ghost use Rattle.steps.specs.Inside.Writes.{applied, onto, Goes, StepsFit, Masked, Behind, Descending};

use meaning::Operation;

// Where the descent is: the kinds there, the query's next byte, and how many steps the program has so far. It goes by value
// through the recursion, on a stack that may be small, and is kept to eight bytes: an accepted query has at most 77.
#[derive(Clone, Copy)]
pub struct Place {
    pub kinds: u32,
    pub at: u8,
    pub steps: u8,
}

// An operation that is still without its operands, two steps. HAS and LFP are of the second; DIFF takes the first out of it.
// It is data, since the descent's table of codes hands it on, and a function that does so with a function pointer is refused.
#[derive(Clone, Copy)]
pub enum Operator {
    Join,
    Union,
    Both,
    Diff,
    Has,
    Closure,
}

impl Operator {
    fn applied(self, a: u8, b: u8) -> Operation
        ensures { result ≡ applied self a b }
    {
        match self {
            Operator::Join => Operation::Join(a, b),
            Operator::Union => Operation::Union(a, b),
            Operator::Both => Operation::Both(a, b),
            Operator::Diff => Operation::Diff(b, a),
            Operator::Has => Operation::Has(b),
            Operator::Closure => Operation::Closure(b),
        }
    }
}

impl Place {
    // The number of the last step.
    fn last(self) -> u8
        requires { 1 ≤ self.steps }
        ensures { result ≡ self.steps - 1 }
    {
        self.steps - 1
    }

    // Writes an operation as the next step.
    pub fn add(self, operation: Operation, out: &mut [u8]) -> Place
        requires { StepsFit 1 (length out.old) self.steps }
        ensures { Goes (step operation) 1 self.kinds self.at out.old out.new self.steps result }
    {
        let at = 6 + 3 * usize::from(self.steps);
        out[at..at + 3].copy_from_slice(&rel::step_bytes(operation));
        Place {
            steps: self.steps + 1,
            ..self
        }
    }

    // TABLE, with a mask of types.
    pub fn table(self, types: u32, out: &mut [u8]) -> Place
        requires { Masked 1 (length out.old) types self.steps }
        ensures { Goes (step (Table types)) 1 self.kinds self.at out.old out.new self.steps result }
    {
        self.add(Operation::Table(types as u16), out)
    }

    // An operation on the last step here and that at another place, behind which it stands.
    pub fn combine(self, operator: Operator, right: Place, out: &mut [u8]) -> Place
        requires { Behind 1 (length out.old) self right }
        ensures { Goes (step (applied operator (self.steps - 1) (right.steps - 1))) 1 right.kinds right.at out.old out.new right.steps result }
    {
        let operation = operator.applied(self.last(), right.last());
        right.add(operation, out)
    }

    // SELF, and an operation on what was last and that.
    #[tactic(auto, using(crate::proofs::Laws::itself_goes))]
    pub fn with_itself(self, operator: Operator, out: &mut [u8]) -> Place
        requires { Behind 2 (length out.old) self self }
        ensures { Goes (onto (applied operator) (step Itself)) 2 self.kinds self.at out.old out.new self.steps result }
    {
        let itself = self.add(Operation::Itself, out);
        self.combine(operator, itself, out)
    }

    // TABLE, with a mask of types, and its LFP.
    #[tactic(auto, using(crate::proofs::Laws::closed_goes))]
    fn closed(self, types: u32, out: &mut [u8]) -> Place
        requires { Masked 2 (length out.old) types self.steps }
        ensures { Goes (then Closure (step (Table types))) 2 self.kinds self.at out.old out.new self.steps result }
    {
        let tabled = self.table(types, out);
        tabled.combine(Operator::Closure, tabled, out)
    }

    // Behind the left part of //, from whose kinds these types are reachable: the children of these types, closed, or the
    // node itself, and the left part joined with that. The kinds are then the left part's and those types.
    pub fn below(self, types: u32, out: &mut [u8]) -> Place
        requires { Descending types (length out.old) self }
        ensures { Goes (onto Join (descend types)) 5 (bit_or self.kinds types) self.at out.old out.new self.steps result }
    {
        let closed = self.closed(types, out);
        let either = closed.with_itself(Operator::Union, out);
        let joined = self.combine(Operator::Join, either, out);
        Place {
            kinds: self.kinds | types,
            ..joined
        }
    }
}
