// The field writers that every written file shares, and what a call answers.
#![tactic(auto)]

ghost use Rattle.std.specs.Prelude.{◌≡◌, ◌+◌, ◌<◌, ◌≤◌, length};
ghost use Rattle.fields.specs.Write.{byte_of, word_of, header_of};
ghost use Rattle.writing.specs.Lent.{accepted, turned_away};
ghost use Rattle.writing.specs.Inside.Made.{answer_for};
ghost use Rattle.writing.specs.Inside.Wrote.{Wrote};

use meaning::{Answer, Refusal};

pub fn accepted(count: u32) -> Answer
    ensures { result ≡ accepted count }
{
    Answer { number: 0, count }
}

// No `From`: it would stand beside its types, in `meaning`, and spell out there what is defined here.
pub fn turned_away(refusal: Refusal) -> Answer
    ensures { result ≡ turned_away refusal }
{
    Answer {
        number: u8::from(refusal.reason),
        count: 0,
    }
}

// What is answered for what a call made: its count, or the reason why it was turned away.
pub fn answer(made: Result<u32, Refusal>) -> Answer
    ensures { result ≡ answer_for made }
{
    match made {
        Ok(count) => accepted(count),
        Err(refusal) => turned_away(refusal),
    }
}

// Writes fields one behind the other into a lent buffer.
#[derive(Drop)]
pub struct Writer<'a> {
    pub out: &'a mut [u8],
    pub at: usize,
}

impl Writer<'_> {
    pub fn byte(&mut self, value: u8)
        requires { self.old.at < length self.old.out.now }
        ensures { Wrote (byte_of value) self.old self.new }
    {
        self.out[self.at] = value;
        self.at += 1;
    }

    pub fn bytes(&mut self, bytes: &[u8])
        requires { self.old.at + length bytes.now ≤ length self.old.out.now }
        ensures { Wrote bytes.now self.old self.new }
    {
        let end = self.at + bytes.len();
        self.out[self.at..end].copy_from_slice(bytes);
        self.at = end;
    }

    pub fn word(&mut self, value: u16)
        requires { self.old.at + 2 ≤ length self.old.out.now }
        ensures { Wrote (word_of value) self.old self.new }
    {
        self.bytes(&value.to_be_bytes());
    }

    // A file's mark and its version.
    pub fn header(&mut self, a: u8, b: u8, c: u8, version: u16)
        requires { self.old.at + 5 ≤ length self.old.out.now }
        ensures { Wrote (header_of a b c version) self.old self.new }
    {
        self.bytes(&[a, b, c]);
        self.word(version);
    }
}
