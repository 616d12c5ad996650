// Rows of bits. In the work area a row is so many bytes, and bit w of it is bit w mod 8, lowest first, of its byte w div 8;
// in hand it is two words, so that a whole row is mixed, searched and counted in a few steps.
#![tactic(auto)]

ghost use Rattle.std.specs.Prelude.{◌≡◌, false, ◌+◌, ◌*◌, ◌^◌, ◌/◌, ◌≤◌, ◌<◌, length};
ghost use Rattle.meaning.specs.Limits.{small, row_bits, room_bytes};
ghost use Rattle.meaning.specs.Sets.{bit, mask, listed};
ghost use Rattle.rows.specs.Inside.Rows.{in_row, in_bytes, stretch, rows_from, rows_at, Bits, Placed, including, gathered, mixes, mixed_word, Lowest, RowMade, BitPut, NextIs};
ghost use Rattle.writing.specs.Lent.{over};

use meaning::SMALL;

// The bytes of a row, and those of the rows that one word of it names.
const ROW: usize = SMALL.row;

const ROWS: usize = 64 * SMALL.row;

// A row in hand.
#[derive(Clone, Copy)]
pub struct Row {
    pub words: [u64; 2],
}

// How two rows are mixed: what is in either, in both, or in the first alone. A closure would have to be given with what it
// does to each bit of a word, which is what these names say.
#[derive(Clone, Copy)]
pub enum Mix {
    Either,
    Both,
    First,
}

// The place of the row of v, in the room at base whose rows have so many bytes.
pub fn place(base: usize, v: usize, width: usize) -> usize
    requires { (v < row_bits width) × (base + room_bytes width < 2 ^ 64) }
    ensures { Placed width base v result }
{
    base + width * v
}

// The eight bytes from a place on.
fn read_word(bytes: &[u8], at: usize) -> u64
    requires { at + 8 ≤ length bytes.now }
    ensures { result ≡ mask 64 (in_bytes (stretch 8 bytes.now at)) }
{
    u64::from_le_bytes(*bytes[at..at + 8].as_array().unwrap())
}

// Writes a word to a place.
fn write_word(work: &mut [u8], at: usize, word: u64)
    requires { at + 8 ≤ length work.old }
    ensures { RowMade 8 work.old work.new at (bit word) }
{
    work[at..at + 8].copy_from_slice(&word.to_le_bytes());
}

// Puts w into the row that stands at a place, where it is to be there.
pub fn put(work: &mut [u8], at: usize, w: usize, there: bool)
    requires { at + w / 8 < length work.old }
    ensures { BitPut work.old work.new at w there }
{
    if there {
        work[at + w / 8] |= 1 << (w % 8);
    }
}

// The lowest bit of a word that is set.
#[tactic(auto, using(crate::proofs::Bits::lowest_is))]
fn lowest(word: u64) -> usize
    requires { 0 < word }
    ensures { Lowest 64 word result }
{
    word.trailing_zeros() as usize
}

// The first bit of a word from a number on. A shift by 64 has no meaning.
fn next_in(word: u64, from: usize) -> Option<usize>
    requires { from ≤ 64 }
    ensures { NextIs 64 (bit word) from result }
{
    if from < 64 && word >> from != 0 {
        Some(from + lowest(word >> from))
    } else {
        None
    }
}

#[tactic(auto, using(crate::proofs::Bits::laws))]
fn mixed_word(how: Mix, x: u64, y: u64) -> u64
    ensures { result ≡ mixed_word how x y }
{
    match how {
        Mix::Either => x | y,
        Mix::Both => x & y,
        Mix::First => x & !y,
    }
}

// How many bits of a word are set.
fn ones(word: u64) -> u32
    ensures { (result ≡ length (listed 64 (bit word))) × (result ≤ 64) }
{
    word.count_ones()
}

impl Row {
    // The row that has no w.
    pub fn empty() -> Row
        ensures { Bits result.words (λ w. false) }
    {
        Row { words: [0; 2] }
    }

    // The row that stands at a place.
    #[tactic(auto, using(crate::proofs::Words::row_taken))]
    pub fn read(bytes: &[u8], at: usize) -> Row
        requires { at + small.row ≤ length bytes.now }
        ensures { Bits result.words (in_bytes (stretch small.row bytes.now at)) }
    {
        Row {
            words: [read_word(bytes, at), read_word(bytes, at + 8)],
        }
    }

    // Writes the row to a place.
    pub fn write(self, work: &mut [u8], at: usize)
        requires { at + small.row ≤ length work.old }
        ensures { RowMade small.row work.old work.new at (in_row self.words) }
    {
        write_word(work, at, self.words[0]);
        write_word(work, at + 8, self.words[1]);
    }

    // The row with w in it, where it is to be there. Each word has a line of its own: at a place that is known only when it
    // runs, a word would be kept in memory and not in a register.
    #[tactic(auto, using(crate::proofs::Rows::with_none, crate::proofs::Rows::with_one))]
    pub fn with(mut self, w: usize, there: bool) -> Row
        requires { w < row_bits small.row }
        ensures { Bits result.words (including (in_row self.words) w there) }
    {
        if there {
            if w < 64 {
                self.words[0] |= 1 << w;
            } else {
                self.words[1] |= 1 << (w - 64);
            }
        }
        self
    }

    // The first w from a number on.
    pub fn next(self, from: usize) -> Option<usize>
        requires { from ≤ row_bits small.row }
        ensures { NextIs (row_bits small.row) (in_row self.words) from result }
    {
        let [low, high] = self.words;
        match next_in(low, from.min(64)) {
            Some(w) => Some(w),
            None => next_in(high, from.saturating_sub(64)).map(|w| 64 + w),
        }
    }

    pub fn mixed(self, how: Mix, other: Row) -> Row
        ensures { Bits result.words (λ w. mixes how (in_row self.words w) (in_row other.words w)) }
    {
        let [a, b] = self.words;
        let [c, d] = other.words;
        Row {
            words: [mixed_word(how, a, c), mixed_word(how, b, d)],
        }
    }

    // The row with those rows taken in, of the 64 from a place on, that a word names. Trailing zeros find the next one, so
    // this is no loop over places.
    fn gather_word(self, bytes: &[u8], at: usize, which: u64) -> Row
        requires { at + 64 * small.row ≤ length bytes.now }
        ensures { Bits result.words (gathered 64 (rows_from small.row bytes.now at) (bit which) (in_row self.words)) }
    {
        let mut all = self;
        let mut left = which;
        while left != 0 {
            let row = Row::read(bytes, at + ROW * lowest(left));
            all = all.mixed(Mix::Either, row);
            left &= left - 1;
        }
        all
    }

    // The row with those rows taken in, of the room at base, that `which` names.
    pub fn gather(self, bytes: &[u8], base: usize, which: Row) -> Row
        requires { base + room_bytes small.row ≤ length bytes.now }
        ensures { Bits result.words (gathered (row_bits small.row) (rows_at small.row bytes.now base) (in_row which.words) (in_row self.words)) }
    {
        let [low, high] = which.words;
        let first = self.gather_word(bytes, base, low);
        first.gather_word(bytes, base + ROWS, high)
    }

    // How many w the row has.
    pub fn count(self) -> u32
        ensures { result ≡ length (listed (row_bits small.row) (in_row self.words)) }
    {
        ones(self.words[0]) + ones(self.words[1])
    }

    // Lists the w that are below size, ascending: each place takes the next.
    pub fn list(self, size: usize, out: &mut [u8])
        requires { (size ≤ row_bits small.row) × (size ≤ length out.old) }
        ensures { out.new ≡ over 0 (listed size (in_row self.words)) out.old }
    {
        let mut next = self.next(0);
        for place in out.iter_mut() {
            let Some(w) = next else {
                return;
            };
            if size <= w {
                return;
            }
            *place = w as u8;
            next = self.next(w + 1);
        }
    }
}
