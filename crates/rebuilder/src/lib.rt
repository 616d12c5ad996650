// The rebuilder: writes the document file of elements.
#![tactic(auto)]

ghost use Rattle.std.specs.Prelude.{◌+◌, ◌≤◌, length};
ghost use Rattle.tre.specs.Tre.{open_of, document_bytes};
ghost use Rattle.writing.specs.Lent.{Leaves, stored};
ghost use Rattle.writing.specs.Inside.Made.{answer_for};
ghost use Rattle.writing.specs.Inside.Wrote.{Wrote};
ghost use Rattle.rebuilder.specs.Inside.TokensFit.{Held, closes_after, tokens_in, TokensFit};

use meaning::{Element, Reason, Refusal};
use writing::Writer;

// Closes what the element that follows does not stand in: from the last one opened up to the next one's parent, which stays
// open. After the last element the document node follows, and all are closed.
#[tactic(auto, using(crate::proofs::Closing::laws))]
fn close_after(elements: &[Element], last: u8, w: &mut Writer<'_>)
    requires there { last ≤ length elements.now }
    requires fits { TokensFit elements.now (closes_after elements.now last) w.old }
    ensures { Wrote (closes_after elements.now last) w.old w.new }
{
    let following = elements::node_at(elements, last + 1);
    let mut number = last;
    // No `for`: the next is the parent of the one closed.
    while number != following.parent {
        w.byte(2);
        number = elements::node_at(elements, number).parent;
    }
}

#[tactic(auto, using(writing::proofs::Writing::wrote_bytes_word))]
fn open(element: Element, w: &mut Writer<'_>)
    requires { w.old.at + 4 ≤ length w.old.out.now }
    ensures { Wrote (open_of element) w.old w.new }
{
    w.byte(1);
    w.byte(element.kind);
    w.word(element.text);
}

// Before each element all those are closed that it does not stand in, and the rest at the end. An element's place in the slice
// is the number of the last one before it.
#[tactic(auto, using(crate::proofs::Tokens::laws))]
fn write_tokens(elements: &[Element], w: &mut Writer<'_>)
    requires { TokensFit elements.now (tokens_in elements.now) w.old }
    ensures { Wrote (tokens_in elements.now) w.old w.new }
{
    for (last, element) in elements.iter().enumerate() {
        close_after(elements, last as u8, w);
        open(*element, w);
    }
    close_after(elements, elements.len() as u8, w);
}

// Writes the document of the elements, where there is room for it, and answers its length. Each element takes five bytes: four
// that open it, and its close.
#[tactic(auto, using(crate::proofs::Whole::no_room))]
pub fn write(elements: &[Element], out: &mut [u8]) -> Result<u32, Refusal>
    requires { Held elements.now }
    ensures { Leaves (stored (document_bytes elements.now) out.old) (answer_for result) out.new }
{
    if out.len() < 5 + 5 * elements.len() {
        return Err(Refusal {
            reason: Reason::Room,
        });
    }
    let mut w = Writer { out, at: 0 };
    w.header(b'T', b'R', b'E', 1);
    write_tokens(elements, &mut w);
    Ok(w.at as u32)
}
