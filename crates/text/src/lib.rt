// The listing's text, and that of a refusal.
#![tactic(auto)]

ghost use Rattle.std.specs.Prelude.{◌≡◌, ◌++◌, ◌+◌, ◌%◌, ◌≤◌, ◌<◌, length};
ghost use Rattle.meaning.specs.Documents.{view};
ghost use Rattle.fields.specs.Write.{byte_of};
ghost use Rattle.writing.specs.Inside.Put.{Put};
ghost use Rattle.writing.specs.Inside.Wrote.{Wrote};
ghost use Rattle.text.specs.Listing.{decimal, end_of_line, line, lines, listing, refusal};
ghost use Rattle.text.specs.Inside.Listable.{Listable, refusal_limit};

use meaning::Element;
use writing::Writer;

fn digit(n: u16) -> u8
    ensures { result ≡ 48 + n % 10 }
{
    b'0' + (n % 10) as u8
}

// By hand, since a `Display` writes to a formatter and not into a buffer that C lends.
#[tactic(auto, using(crate::proofs::Numbers::laws))]
fn decimal(n: u16, w: &mut Writer<'_>)
    requires { w.old.at + length (decimal n) ≤ length w.old.out.now }
    ensures { Wrote (decimal n) w.old w.new }
{
    if n >= 10 {
        decimal(n / 10, w);
    }
    w.byte(digit(n));
}

// A number and the byte that ends its field.
fn field(n: u16, end: u8, w: &mut Writer<'_>)
    requires { w.old.at + length (decimal n) < length w.old.out.now }
    ensures { Wrote (decimal n ++ byte_of end) w.old w.new }
{
    decimal(n, w);
    w.byte(end);
}

// A node's line: its number, its type and its text number.
#[tactic(auto, using(crate::proofs::Turns::line_laws))]
fn line(elements: &[Element], v: u8, w: &mut Writer<'_>)
    requires { w.old.at + length (line (view elements.now) v) ≤ length w.old.out.now }
    ensures { Wrote (line (view elements.now) v) w.old w.new }
{
    let element = elements::node_at(elements, v);
    field(u16::from(v), b' ', w);
    field(u16::from(element.kind), b' ', w);
    field(element.text, b'\n', w);
}

// A line of a word with the space behind it, and a number.
fn word_line(word: &[u8], n: u16, w: &mut Writer<'_>)
    requires { w.old.at + length word.now + length (decimal n) < length w.old.out.now }
    ensures { Wrote (word.now ++ (decimal n ++ end_of_line)) w.old w.new }
{
    w.bytes(word);
    field(n, b'\n', w);
}

#[tactic(auto, using(crate::proofs::Turns::laws))]
fn lines(elements: &[Element], nodes: &[u8], w: &mut Writer<'_>)
    requires { w.old.at + length (lines (view elements.now) nodes.now) ≤ length w.old.out.now }
    ensures { Wrote (lines (view elements.now) nodes.now) w.old w.new }
{
    for &v in nodes {
        line(elements, v, w);
    }
}

// Writes the listing of some nodes of the elements to the buffer's start, and answers where it ends.
#[tactic(auto, using(crate::proofs::LineLaws::listing_length, crate::proofs::LineLaws::ended_length))]
pub fn write(elements: &[Element], nodes: &[u8], out: &mut [u8]) -> usize
    requires { Listable (view elements.now) nodes.now out.old }
    ensures { Put 0 (listing (view elements.now) nodes.now) out.old out.new result }
{
    let mut w = Writer { out, at: 0 };
    word_line(b"selected ", nodes.len() as u16, &mut w);
    lines(elements, nodes, &mut w);
    w.at
}

// Writes the text of a refusal to the buffer's start, and answers where it ends. Of a refusal a caller has only its number.
#[tactic(auto, unfolding(crate::specs::Listing::refusal), using(crate::proofs::Decimals::five_digits))]
pub fn refusal(number: u8, out: &mut [u8]) -> usize
    requires { refusal_limit ≤ length out.old }
    ensures { Put 0 (refusal number) out.old out.new result }
{
    let mut w = Writer { out, at: 0 };
    word_line(b"refused ", u16::from(number), &mut w);
    w.at
}
