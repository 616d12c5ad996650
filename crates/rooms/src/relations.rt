// The relations that are made in a room, of a document or of rooms that stand before it.
ghost use Rattle.std.specs.Prelude.{◌≡◌, ◌+◌, ◌≤◌, ◌<◌, length, []};
ghost use Rattle.meaning.specs.declared.Operation.TheVariants.{Table};
ghost use Rattle.meaning.specs.Limits.{small, row_bits, room_bytes};
ghost use Rattle.meaning.specs.Inside.Diagonal.{diagonal};
ghost use Rattle.meaning.specs.Relations.{join, closure};
ghost use Rattle.meaning.specs.Documents.{view};
ghost use Rattle.meaning.specs.Operations.{rows};
ghost use Rattle.rows.specs.Inside.Rows.{Bits, rows_at, mixed_rows};
ghost use Rattle.rooms.specs.Inside.FitToRun.{Nodes};
ghost use Rattle.rooms.specs.Inside.Rooms.{up_to, columns, starting, passing, combined, Places, Testable, RoomMade, TakenIn, Swept, Closable};

use crate::room::Room;
use meaning::Element;
use rows::{Mix, Row};

// What is asked of a number: nothing, that its element has a text number, or that a room has a row from it. A closure would
// be no plainer: it would be handed the work area at each turn, which is written meanwhile, and would have to come with what
// it answers of it.
#[derive(Clone, Copy)]
pub enum Test {
    Always,
    Text(u16),
    Related(Room),
}

// How a row is made of two rooms: the two rows of its number, mixed; or those rows of the second that the first's row names,
// through numbers that are there. A closure would be no plainer, as for a test.
#[derive(Clone, Copy)]
pub enum Way {
    Mixed(Mix),
    Joined(Row),
}

impl Test {
    fn passes(self, work: &[u8], elements: &[Element], v: usize) -> bool
        requires { Testable small.row (length work.now) elements.now self × (v ≤ length elements.now) }
        ensures { result ≡ passing small.row (view elements.now) work.now self v }
    {
        match self {
            Test::Always => true,
            Test::Text(number) => v != 0 && elements[v - 1].text == number,
            Test::Related(a) => a.first(work, v).is_some_and(|w| w <= elements.len()),
        }
    }
}

impl Way {
    // The row of v in a room that is made of rooms a and b.
    fn row(self, work: &[u8], a: Room, b: Room, v: usize) -> Row
        requires { (a.base + room_bytes small.row ≤ length work.now) × (b.base + room_bytes small.row ≤ length work.now) × (v < row_bits small.row) }
        ensures { Bits result.words (combined (row_bits small.row) self (rows_at small.row work.now a.base) (rows_at small.row work.now b.base) v) }
    {
        let left = a.read(work, v);
        match self {
            Way::Mixed(how) => left.mixed(how, b.read(work, v)),
            Way::Joined(there) => b.gather(work, left.mixed(Mix::Both, there), Row::empty()),
        }
    }
}

impl Room {
    // TABLE: each element whose type the mask names, from its parent.
    pub fn table(self, work: &mut [u8], elements: &[Element], mask: u16)
        requires { (self.base + room_bytes small.row ≤ length work.old) × Nodes elements.now }
        ensures { RoomMade small.row work.old work.new self.base (rows (view elements.now) [] (Table mask)) }
    {
        self.clear(work);
        for (i, element) in elements.iter().enumerate() {
            let there = kinds::has(u32::from(mask), usize::from(element.kind));
            self.put(work, usize::from(element.parent), i + 1, there);
        }
    }

    // SELF, TEXT, HAS: each node that passes a test, to itself.
    pub fn diagonal(self, work: &mut [u8], elements: &[Element], test: Test)
        requires { (self.base + room_bytes small.row ≤ length work.old) × Testable small.row self.base elements.now test }
        ensures { RoomMade small.row work.old work.new self.base (columns (length elements.now + 1) (diagonal (passing small.row (view elements.now) work.old test))) }
    {
        self.clear(work);
        for v in 0..elements.len() + 1 {
            let there = test.passes(work, elements, v);
            self.put(work, v, v, there);
        }
    }

    // The numbers below size from which the room has a row.
    fn starts(self, work: &[u8], size: usize) -> Row
        requires { (self.base + room_bytes small.row ≤ length work.now) × (size ≤ row_bits small.row) }
        ensures { Bits result.words (starting (row_bits small.row) size (rows_at small.row work.now self.base)) }
    {
        let mut all = Row::empty();
        for v in 0..size {
            all = all.with(v, self.first(work, v).is_some());
        }
        all
    }

    // Rooms a and b, combined row by row.
    fn combine(self, work: &mut [u8], a: Room, b: Room, size: usize, way: Way)
        requires { Places small.row (length work.old) self.base a.base b.base size }
        ensures { RoomMade small.row work.old work.new self.base (up_to size (combined (row_bits small.row) way (rows_at small.row work.old a.base) (rows_at small.row work.old b.base))) }
    {
        self.clear(work);
        for v in 0..size {
            let made = way.row(work, a, b, v);
            self.write(work, v, made);
        }
    }

    // UNION, AND, DIFF.
    pub fn mix(self, work: &mut [u8], a: Room, b: Room, size: usize, how: Mix)
        requires { Places small.row (length work.old) self.base a.base b.base size }
        ensures { RoomMade small.row work.old work.new self.base (up_to size (mixed_rows how (rows_at small.row work.old a.base) (rows_at small.row work.old b.base))) }
    {
        self.combine(work, a, b, size, Way::Mixed(how));
    }

    // JOIN. Most names lead to an empty row, so those that don't are found first.
    pub fn join(self, work: &mut [u8], a: Room, b: Room, size: usize)
        requires { Places small.row (length work.old) self.base a.base b.base size }
        ensures { RoomMade small.row work.old work.new self.base (up_to size (join size (rows_at small.row work.old a.base) (rows_at small.row work.old b.base))) }
    {
        let there = b.starts(work, size);
        self.combine(work, a, b, size, Way::Joined(there));
    }

    // The row of v takes in those rows of its room that room a names for v. Whether it grew.
    fn take_in(self, work: &mut [u8], a: Room, v: usize) -> bool
        requires { Places small.row (length work.old) self.base a.base a.base (row_bits small.row) × (v < row_bits small.row) }
        ensures { TakenIn small.row work.old work.new self.base a.base v result }
    {
        let before = self.read(work, v);
        let after = self.gather(work, a.read(work, v), before);
        self.write(work, v, after);
        after.mixed(Mix::First, before).next(0).is_some()
    }

    // Each row takes in, the last first: so one sweep is enough where a row names higher numbers only. Whether another may
    // add to it.
    fn sweep(self, work: &mut [u8], a: Room, size: usize) -> bool
        requires { Places small.row (length work.old) self.base a.base a.base size }
        ensures { Swept small.row size work.old work.new self.base a.base result }
    {
        let mut grew = false;
        let mut back = false;
        for v in (0..size).rev() {
            grew |= self.take_in(work, a, v);
            back |= a.first(work, v).is_some_and(|w| w <= v);
        }
        grew & back
    }

    // LFP: room a, closed under one or more steps. A sweep adds a step at least, and size steps are always enough.
    pub fn closure(self, work: &mut [u8], a: Room, size: usize)
        requires { Closable small.row work.old self.base a.base size }
        ensures { RoomMade small.row work.old work.new self.base (closure size (rows_at small.row work.old a.base)) }
    {
        self.mix(work, a, a, size, Mix::Either);
        for _ in 1..size {
            if !self.sweep(work, a, size) {
                return;
            }
        }
    }
}
