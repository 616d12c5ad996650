// The elements of a document: elements 1 to n at places 0 to n-1 of a lent slice. They are read into an array of the call's
// frame, since a record of elements by value would be copied at each call.
#![tactic(auto)]

ghost use Rattle.std.specs.Prelude.{◌≡◌};
ghost use Rattle.meaning.specs.Documents.{node};

use meaning::{DOCUMENT, Element};

// The document node, which also stands for every element that there isn't.
pub const DOCUMENT_NODE: Element = Element {
    parent: 0,
    kind: DOCUMENT as u8,
    text: 0,
};

// What a place holds before an element is read into it. Zeros are written at once, where any other value is written place by
// place; no reader minds what stood there.
pub const UNREAD: Element = Element {
    parent: 0,
    kind: 0,
    text: 0,
};

// Node v of some elements.
#[tactic(auto, unfolding(meaning::specs::Documents::node))]
pub fn node_at(elements: &[Element], v: u8) -> Element
    ensures { result ≡ node elements.now v }
{
    match v {
        0 => DOCUMENT_NODE,
        _ => elements
            .get(usize::from(v) - 1)
            .copied()
            .unwrap_or(DOCUMENT_NODE),
    }
}
