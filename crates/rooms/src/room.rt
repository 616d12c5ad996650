// What a room of the work area is: where it starts, and its rows.
ghost use Rattle.std.specs.Prelude.{◌≡◌, ◌+◌, ◌*◌, ◌≤◌, ◌<◌, length};
ghost use Rattle.meaning.specs.Limits.{small, row_bits, room_bytes};
ghost use Rattle.meaning.specs.Relations.{nothing};
ghost use Rattle.rows.specs.Inside.Rows.{in_row, rows_at, gathered, Bits, NextIs};
ghost use Rattle.rooms.specs.Inside.Rooms.{changed, added, RoomMade};

use meaning::SMALL;
use rows::Row;

// The bytes of a row, its bits, and the bytes of a room, which has as many rows as a row has bits.
const WIDTH: usize = SMALL.row;

pub const BITS: usize = 8 * WIDTH;

const BYTES: usize = WIDTH * BITS;

// A room is named by the place where it starts. The work area goes beside it: with it in each room that is read or made, two
// would hold it at once.
#[derive(Clone, Copy)]
pub struct Room {
    base: usize,
}

impl Room {
    // The room of a step: each stands behind the one before.
    pub fn of(step: usize) -> Room
        requires { step < 256 }
        ensures { result.base ≡ room_bytes small.row * step }
    {
        Room { base: BYTES * step }
    }

    pub fn base(self) -> usize
        ensures { result ≡ self.base }
    {
        self.base
    }

    // No rows.
    pub fn clear(self, work: &mut [u8])
        requires { self.base + room_bytes small.row ≤ length work.old }
        ensures { RoomMade small.row work.old work.new self.base nothing }
    {
        work[self.base..self.base + BYTES].fill(0);
    }

    pub fn read(self, work: &[u8], v: usize) -> Row
        requires { (self.base + room_bytes small.row ≤ length work.now) × (v < row_bits small.row) }
        ensures { Bits result.words (rows_at small.row work.now self.base v) }
    {
        Row::read(work, rows::place(self.base, v, WIDTH))
    }

    pub fn write(self, work: &mut [u8], v: usize, row: Row)
        requires { (self.base + room_bytes small.row ≤ length work.old) × (v < row_bits small.row) }
        ensures { RoomMade small.row work.old work.new self.base (changed v (in_row row.words) (rows_at small.row work.old self.base)) }
    {
        row.write(work, rows::place(self.base, v, WIDTH));
    }

    // Puts w into the row of v, where it is to be there.
    pub fn put(self, work: &mut [u8], v: usize, w: usize, there: bool)
        requires { (self.base + room_bytes small.row ≤ length work.old) × (v < row_bits small.row) × (w < row_bits small.row) }
        ensures { RoomMade small.row work.old work.new self.base (added v w there (rows_at small.row work.old self.base)) }
    {
        rows::put(work, rows::place(self.base, v, WIDTH), w, there);
    }

    // The first number that the row of v has.
    pub fn first(self, work: &[u8], v: usize) -> Option<usize>
        requires { (self.base + room_bytes small.row ≤ length work.now) × (v < row_bits small.row) }
        ensures { NextIs (row_bits small.row) (rows_at small.row work.now self.base v) 0 result }
    {
        self.read(work, v).next(0)
    }

    // A row with those rows of the room taken in that `which` names.
    pub fn gather(self, work: &[u8], which: Row, start: Row) -> Row
        requires { self.base + room_bytes small.row ≤ length work.now }
        ensures { Bits result.words (gathered (row_bits small.row) (rows_at small.row work.now self.base) (in_row which.words) (in_row start.words)) }
    {
        start.gather(work, self.base, which)
    }
}
