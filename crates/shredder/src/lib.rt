// The shredder: writes the tables file of elements.
#![tactic(auto)]

ghost use Rattle.std.specs.Prelude.{◌+◌, ◌≤◌, length};
ghost use Rattle.edg.specs.Edg.{rows_of, row_bytes, rows_bytes, table_bytes, tables_of, tables_bytes};
ghost use Rattle.writing.specs.Lent.{Leaves, stored};
ghost use Rattle.writing.specs.Inside.Made.{answer_for};
ghost use Rattle.writing.specs.Inside.Wrote.{Wrote};
ghost use Rattle.shredder.specs.Inside.RowsFit.{HeldUnder, RowsFit};

use meaning::{Element, Graph, Reason, Refusal};
use writing::Writer;

#[tactic(auto, using(writing::proofs::Writing::wrote_bytes_word))]
fn write_row(element: Element, number: u8, w: &mut Writer<'_>)
    requires { w.old.at + 4 ≤ length w.old.out.now }
    ensures { Wrote (row_bytes (record { number = number; element = element })) w.old w.new }
{
    w.byte(element.parent);
    w.byte(number);
    w.word(element.text);
}

// The rows of type t, in document order. An element's number is one more than its place in the slice.
#[tactic(auto, using(crate::proofs::Rows::laws))]
fn write_rows(t: u8, elements: &[Element], w: &mut Writer<'_>)
    requires { RowsFit elements.now (rows_bytes (rows_of t 1 elements.now)) w.old }
    ensures { Wrote (rows_bytes (rows_of t 1 elements.now)) w.old w.new }
{
    for (i, element) in elements.iter().enumerate() {
        if element.kind == t {
            write_row(*element, (i + 1) as u8, w);
        }
    }
}

// A table: how many rows it has, and the rows.
#[tactic(auto, unfolding(edg::specs::Edg::table_bytes))]
fn write_table(t: u8, elements: &[Element], w: &mut Writer<'_>)
    requires { RowsFit elements.now (table_bytes (rows_of t 1 elements.now)) w.old }
    ensures { Wrote (table_bytes (rows_of t 1 elements.now)) w.old w.new }
{
    let rows = elements.iter().filter(|element| element.kind == t).count();
    w.byte(rows as u8);
    write_rows(t, elements, w);
}

// The tables of k types, in order.
#[tactic(auto, using(crate::proofs::Tables::laws))]
fn write_tables(k: u8, elements: &[Element], w: &mut Writer<'_>)
    requires { RowsFit elements.now (tables_of elements.now 0 k) w.old }
    ensures { Wrote (tables_of elements.now 0 k) w.old w.new }
{
    for t in 0..k {
        write_table(t, elements, w);
    }
}

// Writes the tables of the elements, where there is room for them, and answers their length: a byte for each type, and four
// for each element.
#[tactic(auto, using(crate::proofs::Whole::no_room))]
pub fn write(elements: &[Element], g: Graph, out: &mut [u8]) -> Result<u32, Refusal>
    requires { HeldUnder g elements.now }
    ensures { Leaves (stored (tables_bytes g elements.now) out.old) (answer_for result) out.new }
{
    if out.len() < 6 + usize::from(g.k) + 4 * elements.len() {
        return Err(Refusal {
            reason: Reason::Room,
        });
    }
    let mut w = Writer { out, at: 0 };
    w.header(b'E', b'D', b'G', 1);
    w.byte(g.k);
    write_tables(g.k, elements, &mut w);
    Ok(w.at as u32)
}
