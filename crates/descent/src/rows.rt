// The table of codes: what follows each, and which steps are made of it. A row is data and no function: whatever hands out
// a function pointer is refused.
ghost use Rattle.std.specs.Prelude.{◌≡◌, ◌<◌, length, slice_index};
ghost use Rattle.descent.specs.Inside.Rows.{row_of};

use steps::Operator;

// A code with no part: SELF; TABLE with the type that follows, or with all children; TEXT with the number that follows.
#[derive(Clone, Copy)]
pub(crate) enum Leaf {
    Itself,
    Child,
    Children,
    Text,
}

// What is made of the one part of a code: HAS, or SELF and the DIFF of that and the part.
#[derive(Clone, Copy)]
pub(crate) enum Ending {
    Has,
    Not,
}

// Where the second of two parts stands: under the kinds out of the first, under those of the whole, or behind the five
// steps that go on from the first to all below, under the kinds of these.
#[derive(Clone, Copy)]
pub(crate) enum Second {
    After,
    Beside,
    Deeper,
}

// Behind two parts stands an operation on both.
#[derive(Clone, Copy)]
pub(crate) enum Row {
    Leaf(Leaf),
    One(Ending),
    Two(Second, Operator),
}

// The row of a code. No `TryFrom`: an accepted query has no other code, so there is nothing to refuse.
#[tactic(auto, unfolding(crate::specs::Inside::Rows::row_of))]
fn row_of(code: u8) -> Row
    ensures { result ≡ row_of code }
{
    match code {
        0x01 => Row::Leaf(Leaf::Itself),
        0x02 => Row::Leaf(Leaf::Child),
        0x03 => Row::Leaf(Leaf::Children),
        0x04 => Row::Two(Second::After, Operator::Join),
        0x05 => Row::Two(Second::Deeper, Operator::Join),
        0x06 => Row::Two(Second::Beside, Operator::Union),
        0x07 => Row::Two(Second::After, Operator::Join),
        0x11 => Row::One(Ending::Has),
        0x12 => Row::Leaf(Leaf::Text),
        0x13 => Row::One(Ending::Not),
        0x14 => Row::Two(Second::After, Operator::Both),
        // 0x15 is the last.
        _ => Row::Two(Second::After, Operator::Union),
    }
}

// The row of the code that stands at a place of the query.
pub(crate) fn row_at(qry: &[u8], at: u8) -> Row
    requires { at < length qry.now }
    ensures { result ≡ row_of (slice_index qry.now at) }
{
    row_of(qry[usize::from(at)])
}
