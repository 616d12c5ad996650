// The field readers that all five files share: each answers a value with the next cursor, or the refusal.
#![tactic(auto, unfolding(crate::specs::Read::byte, crate::specs::Read::word, crate::specs::Read::mark, crate::specs::Read::header, crate::specs::Read::end, crate::specs::Read::judged, crate::specs::Inside::Outcomes::answered))]

ghost use Rattle.std.specs.Prelude.{◌≡◌, ◌-◌, ◌^◌, ltb, length, Ok, Err};
ghost use Rattle.fields.specs.Inside.Outcomes.{read_of, answered};
ghost use Rattle.fields.specs.Read.{refusal_of, byte, word, byte_below, byte_up_to, mask_below, mark, header, end};

use meaning::{Reason, Refusal};

// Where reading goes on. The bytes go beside it: with them in it, each answer would have to say that the next cursor is over
// the same ones.
#[derive(Clone, Copy)]
pub struct Cursor {
    pub at: usize,
}

// What a field reader answers: a value and where reading goes on, or the refusal. Where a field only has to be passed, the
// value is ().
pub type Field<T> = Result<(T, Cursor), Refusal>;

// Whether a mask has no bit of k or more. It has 16 bits, and a shift by as many or more has no meaning.
fn within(mask: u16, k: u8) -> bool
    ensures { result ≡ ltb mask (2 ^ k) }
{
    16 <= k || mask >> k == 0
}

impl Cursor {
    pub fn start() -> Self
        ensures { result.at ≡ 0 }
    {
        Cursor { at: 0 }
    }

    // The field that stands here turns the input away.
    pub fn refuse<T>(self, reason: Reason) -> Field<T>
        ensures { result ≡ Err (refusal_of reason self.at) }
    {
        Err(Refusal { reason })
    }

    // The answer for a field that stands here, if it passes.
    pub fn judged<T: Drop>(self, field: Field<T>, passes: bool, reason: Reason) -> Field<T>
        ensures { result ≡ answered passes field (refusal_of reason self.at) }
    {
        if passes { field } else { self.refuse(reason) }
    }

    // How many bytes are left.
    fn left(self, s: &[u8]) -> usize
        ensures { result ≡ length s.now - self.at }
    {
        s.len().saturating_sub(self.at)
    }

    pub fn byte(self, s: &[u8]) -> Field<u8>
        ensures { read_of result ≡ byte s.now self.at }
    {
        let at = self.at;
        if s.len() <= at {
            return self.refuse(Reason::Ended);
        }
        Ok((s[at], Cursor { at: at + 1 }))
    }

    pub fn word(self, s: &[u8]) -> Field<u16>
        ensures { read_of result ≡ word s.now self.at }
    {
        let at = self.at;
        if self.left(s) < 2 {
            return self.refuse(Reason::Ended);
        }
        let word = u16::from_be_bytes([s[at], s[at + 1]]);
        Ok((word, Cursor { at: at + 2 }))
    }

    // A byte below a limit. Here and below not by `?`, which would take apart what is judged whole.
    pub fn byte_below(self, s: &[u8], limit: u8, reason: Reason) -> Field<u8>
        ensures { read_of result ≡ byte_below limit reason s.now self.at }
    {
        let read = self.byte(s);
        let Ok((n, _)) = read else {
            return read;
        };
        self.judged(read, n < limit, reason)
    }

    // A byte from 1 to a limit.
    pub fn byte_up_to(self, s: &[u8], limit: u8, reason: Reason) -> Field<u8>
        ensures { read_of result ≡ byte_up_to limit reason s.now self.at }
    {
        let read = self.byte(s);
        let Ok((n, _)) = read else {
            return read;
        };
        self.judged(read, (1..=limit).contains(&n), reason)
    }

    // A mask of types below k.
    pub fn mask_below(self, s: &[u8], k: u8) -> Field<u16>
        ensures { read_of result ≡ mask_below k s.now self.at }
    {
        let read = self.word(s);
        let Ok((mask, _)) = read else {
            return read;
        };
        self.judged(read, within(mask, k), Reason::Kind)
    }

    // The three letters are one field.
    fn mark(self, s: &[u8], a: u8, b: u8, c: u8) -> Field<()>
        ensures { read_of result ≡ mark a b c s.now self.at }
    {
        let at = self.at;
        if self.left(s) < 3 {
            return self.refuse(Reason::Ended);
        }
        if s[at] != a || s[at + 1] != b || s[at + 2] != c {
            return self.refuse(Reason::Mark);
        }
        Ok(((), Cursor { at: at + 3 }))
    }

    // A file's mark, and its version, which is the answer: the reader says up to which it reads.
    pub fn header(self, s: &[u8], a: u8, b: u8, c: u8, latest: u16) -> Field<u16>
        ensures { read_of result ≡ header a b c latest s.now self.at }
    {
        let ((), after) = self.mark(s, a, b, c)?;
        let read = after.word(s);
        let Ok((version, _)) = read else {
            return read;
        };
        after.judged(read, (1..=latest).contains(&version), Reason::Version)
    }

    // The end of the file: nothing may follow.
    pub fn end(self, s: &[u8]) -> Field<()>
        ensures { read_of result ≡ end s.now self.at }
    {
        if self.at < s.len() {
            return self.refuse(Reason::Extra);
        }
        Ok(((), self))
    }
}
