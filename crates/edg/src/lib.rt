// The tables file: what it reads as and how it is written stands in specs/, and its two laws in proofs/File.
#![tactic(auto)]

use meaning::Element;

// A row: the number of an element, and the element.
#[derive(Clone, Copy)]
pub struct Row {
    pub number: u16,
    pub element: Element,
}
