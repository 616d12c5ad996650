// The reader of document files: one loop over the tokens. It needs no stack, for the parent of the innermost open
// element is kept with the element.
#![tactic(auto, unfolding(fields::specs::Read::judged, fields::specs::Read::mapped, fields::specs::Inside::Outcomes::answered, tre::specs::Tre::code, tre::specs::Tre::opened, tre::specs::Tre::popped, tre::specs::Tre::pushed, tre::specs::Tre::token, tre::specs::Tre::document_read, tre::specs::Tre::document_file, crate::specs::Inside::States::open_in))]

ghost use Rattle.std.specs.Prelude.{◌≡◌, ◌<◌, ◌≤◌, length, take};
ghost use Rattle.meaning.specs.Limits.{element_limit};
ghost use Rattle.meaning.specs.Documents.{node};
ghost use Rattle.fields.specs.Read.{mapped};
ghost use Rattle.fields.specs.Inside.Outcomes.{read_of};
ghost use Rattle.elements.specs.Inside.Keeping.{Keeps};
ghost use Rattle.tre.specs.Tre.{pushed, popped, code, new_type, opened, token, tokens, document_file};

use elements::node_at;
use fields::{Cursor, Field};
use meaning::{Element, Graph, Reason, Refusal, SMALL};

// The places where elements are kept.
type Places = [Element; SMALL.elements];

// Where reading stands: how many elements are kept so far, and the innermost that is open. The places where they are kept go
// beside it: with them in it, each contract would have to say that they are still the same ones.
#[derive(Clone, Copy)]
struct Standing {
    count: usize,
    inner: u8,
    ghost few: { count ≤ element_limit },
}

// The code of a token, behind so many elements. 0x01 and 0x02 are the file's bytes.
fn code(s: &[u8], c: Cursor, count: usize) -> Field<u8>
    ensures { read_of result ≡ code element_limit count s.now c.at }
{
    let read = c.byte(s);
    // Not by `?`, which would take apart what is judged whole.
    let Ok((code, _)) = read else {
        return read;
    };
    match code {
        0x01 => c.judged(read, count < SMALL.elements, Reason::Bound),
        0x02 => c.judged(read, 0 < count, Reason::Edge),
        _ => c.refuse(Reason::Code),
    }
}

impl Standing {
    ghost use Rattle.document.specs.Inside.States.{open_in};

    // The innermost that is open.
    fn innermost(self, kept: &Places) -> Element
        ensures { result ≡ node (take self.count kept.now) self.inner }
    {
        node_at(&kept[..self.count], self.inner)
    }

    // The type of an element that may stand in the innermost.
    fn new_type(self, kept: &Places, s: &[u8], g: Graph, c: Cursor) -> Field<u8>
        ensures { read_of result ≡ new_type g (open_in kept.now self) s.now c.at }
    {
        let read = c.byte_below(s, g.k, Reason::Kind);
        // Not by `?`, as in `code`.
        let Ok((t, _)) = read else {
            return read;
        };
        let inner = self.innermost(kept);
        c.judged(read, kinds::is_child(g, inner.kind, t), Reason::Edge)
    }

    // The new element goes behind the last, and is the innermost.
    fn push(self, kept: &mut Places, kind: u8, text: u16) -> Standing
        requires { self.count < element_limit }
        ensures { open_in kept.new result ≡ pushed (open_in kept.old self) kind text }
    {
        kept[self.count] = Element {
            parent: self.inner,
            kind,
            text,
        };
        let count = self.count + 1;
        Standing {
            count,
            inner: count as u8,
        }
    }

    // After 0x01: the type, then the text.
    fn opened(self, kept: &mut Places, s: &[u8], g: Graph, c: Cursor) -> Field<Standing>
        requires { self.count < element_limit }
        ensures { mapped (open_in kept.new) (read_of result) ≡ opened g (open_in kept.old self) s.now c.at }
    {
        let (kind, after) = self.new_type(kept, s, g, c)?;
        let (text, next) = after.word(s)?;
        Ok((self.push(kept, kind, text), next))
    }

    // After 0x02: the parent is the innermost again.
    fn popped(self, kept: &Places) -> Standing
        ensures { open_in kept.now result ≡ popped (open_in kept.now self) }
    {
        Standing {
            count: self.count,
            inner: self.innermost(kept).parent,
        }
    }

    // One token: it opens an element, or closes the innermost.
    fn token(self, kept: &mut Places, s: &[u8], g: Graph, c: Cursor) -> Field<Standing>
        ensures { mapped (open_in kept.new) (read_of result) ≡ token element_limit g (open_in kept.old self) s.now c.at }
    {
        let (code, after) = code(s, c, self.count)?;
        match code {
            0x01 => self.opened(kept, s, g, after),
            _ => Ok((self.popped(kept), after)),
        }
    }

    // The tokens from here on, up to the close of element 1.
    fn read_tokens(self, kept: &mut Places, s: &[u8], g: Graph, c: Cursor) -> Field<Standing>
        ensures { mapped (λ o. o.elements) (mapped (open_in kept.new) (read_of result)) ≡ tokens (length s.now) element_limit g (open_in kept.old self) s.now c.at }
    {
        let mut standing = self;
        let mut cursor = c;
        // No `for`: the file says where element 1 closes.
        loop {
            (standing, cursor) = standing.token(kept, s, g, cursor)?;
            if standing.inner == 0 {
                return Ok((standing, cursor));
            }
        }
    }
}

// The places are lent as a slice whose length is asked for: an array type would ask more of callers.
pub fn read(s: &[u8], g: Graph, kept: &mut [Element]) -> Result<usize, Refusal>
    requires { length kept.old ≡ element_limit }
    ensures { Keeps (document_file element_limit g s.now 0) kept.new result }
{
    let (_, first) = Cursor::start().header(s, b'T', b'R', b'E', 1)?;
    let Some(kept) = kept.as_mut_array() else {
        unreachable!()
    };
    let nothing = Standing { count: 0, inner: 0 };
    let (standing, last) = nothing.read_tokens(kept, s, g, first)?;
    last.end(s)?;
    Ok(standing.count)
}
