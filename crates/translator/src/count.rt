// How many steps a query takes, before any is written.
ghost use Rattle.std.specs.Prelude.{◌≡◌, ◌≤◌};
ghost use Rattle.translator.specs.Inside.Count.{fields_of, own_steps, StepsCounted};

// The steps that a program may have.
const LIMIT: u8 = meaning::STEPS as u8;

// The bytes that a node has behind its code. Codes are the file's bytes.
fn fields(code: u8) -> usize
    ensures { (result ≡ fields_of code) × (result ≤ 2) }
{
    match code {
        0x02 => 1,
        0x12 => 2,
        _ => 0,
    }
}

// The steps of a node besides those of its parts: five more for //, one more for not. Codes are the file's bytes.
fn own_steps(code: u8) -> u8
    ensures { (result ≡ own_steps code) × (1 ≤ result) × (result ≤ 6) }
{
    match code {
        0x05 => 6,
        0x13 => 2,
        _ => 1,
    }
}

// The steps of an accepted query, those of its nodes, which stand one behind the other; none where there are too many.
#[tactic(auto, using(crate::proofs::Counting::upto_none))]
pub(crate) fn steps(qry: &[u8]) -> Option<u8>
    ensures { StepsCounted qry.now result }
{
    let mut at: usize = 5;
    let mut steps: u8 = 0;
    // No `for`: how far the next node is depends on the code.
    while at < qry.len() {
        let code = qry[at];
        at += 1 + fields(code);
        steps += own_steps(code);
        if LIMIT < steps {
            return None;
        }
    }
    Some(steps)
}
