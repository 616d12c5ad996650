// The reader of tables files.
#![tactic(auto, unfolding(fields::specs::Read::judged, fields::specs::Inside::Outcomes::answered, edg::specs::Edg::row_rule, edg::specs::Edg::row_fields, edg::specs::Edg::row_read, edg::specs::Edg::head, edg::specs::Edg::element_judged))]

ghost use Rattle.std.specs.Prelude.{ℕ, ◌≡◌, ◌&&◌, ◌||◌, [], ◌+◌, ◌*◌, ◌≤◌, ◌<◌, min, eqb, ltb, length, get_or};
ghost use Rattle.meaning.specs.Limits.{element_limit};
ghost use Rattle.meaning.specs.Documents.{node, view, below, parent_rule, edge_rule};
ghost use Rattle.fields.specs.Inside.Outcomes.{read_of};
ghost use Rattle.fields.specs.Read.{mapped};
ghost use Rattle.meaning.specs.declared.Reason.TheVariants.{Number};
ghost use Rattle.elements.specs.Inside.Keeping.{Keeps};
ghost use Rattle.edg.specs.Inside.GoodRow.{GoodRow};
ghost use Rattle.edg.specs.Edg.{row_rule, row_read, rows_read, count_read, tables_read, head, rows_file, ones, judge_here, element_judged, elements_judged, tables_file};
ghost use Rattle.tables.specs.Inside.Gathered.{row_length, gathered_in, none, put, put_all, Sound, GatheredRead};

use edg::Row;
use elements::{DOCUMENT_NODE, node_at};
use fields::{Cursor, Field};
use meaning::{Element, Graph, Reason, Refusal, SMALL};

// The numbers of the rows so far: how often each came, and how many rows there were. This stands beside the elements: they go
// into places that the caller lends, and a number may come twice, which is judged only behind the last row.
#[derive(Drop)]
struct Numbers {
    times: [u8; SMALL.elements],
    total: usize,
}

fn keeps_row_rule(before: u16, row: Row) -> bool
    ensures { result ≡ row_rule element_limit before row }
{
    let number = row.number;
    (1..=SMALL.elements).contains(&usize::from(number))
        && before < number
        && u16::from(row.element.parent) < number
}

// A row of a table, behind the row numbered `before`. Its bytes are one field, so they are judged when all are there.
fn read_row(part: &[u8], cursor: Cursor, kind: u8, before: u16) -> Field<Row>
    ensures { read_of result ≡ row_read element_limit kind before part.now cursor.at }
{
    let (parent, second) = cursor.byte(part)?;
    let (number, third) = second.byte(part)?;
    let (text, after) = third.word(part)?;
    let row = Row {
        number: u16::from(number),
        element: Element { parent, kind, text },
    };
    cursor.judged(
        Ok((row, after)),
        keeps_row_rule(before, row),
        Reason::Number,
    )
}

// Keeps one more row: the element in its number's place, and that the number came.
#[tactic(auto, unfolding(crate::specs::Inside::Gathered::put))]
fn keep(kept: &mut [Element], numbers: &mut Numbers, row: Row)
    requires { Sound (gathered_in kept.old numbers.old) × (numbers.old.total < element_limit) × GoodRow element_limit row }
    ensures { gathered_in kept.new numbers.new ≡ put (gathered_in kept.old numbers.old) row }
{
    let at = usize::from(row.number) - 1;
    kept[at] = row.element;
    numbers.times[at] += 1;
    numbers.total += 1;
}

// The rows of one type: `part` holds their bytes, as far as the file has them.
fn read_table(
    part: &[u8],
    kind: u8,
    count: u8,
    kept: &mut [Element],
    numbers: &mut Numbers,
) -> Field<()>
    requires { Sound (gathered_in kept.old numbers.old) × (numbers.old.total + count ≤ element_limit) }
    ensures { GatheredRead result (gathered_in kept.new numbers.new) (mapped (put_all (gathered_in kept.old numbers.old)) (rows_read element_limit kind 0 count part.now 0)) }
{
    let mut cursor = Cursor::start();
    let mut last = 0;
    for _ in 0..count {
        let (row, after) = read_row(part, cursor, kind, last)?;
        keep(kept, numbers, row);
        cursor = after;
        last = row.number;
    }
    Ok(((), cursor))
}

// How many rows the next table has, behind `total` rows. The byte's answer is itself judged, so `?` doesn't hand it on.
fn read_count(s: &[u8], cursor: Cursor, total: usize) -> Field<u8>
    requires { total ≤ element_limit }
    ensures { read_of result ≡ count_read element_limit total s.now cursor.at }
{
    let read = cursor.byte(s);
    let Ok((count, _)) = read else {
        return read;
    };
    cursor.judged(
        read,
        total + usize::from(count) <= SMALL.elements,
        Reason::Bound,
    )
}

// Where so many rows from a on end: at the end of the file where that comes first.
fn stretch_end(s: &[u8], a: usize, count: u8) -> usize
    ensures { result ≡ min (a + count * row_length) (length s.now) }
{
    a.saturating_add(usize::from(count) * (2 * SMALL.number + 2))
        .min(s.len())
}

// The rows of a type are a stretch in the middle of the file, which ends with them or with the file.
fn read_tables(
    s: &[u8],
    start: Cursor,
    k: u8,
    kept: &mut [Element],
    numbers: &mut Numbers,
) -> Field<()>
    requires { gathered_in kept.old numbers.old ≡ none }
    ensures { GatheredRead result (gathered_in kept.new numbers.new) (mapped (put_all none) (tables_read element_limit 0 0 k s.now start.at)) }
{
    let mut cursor = start;
    for kind in 0..k {
        let (count, after) = read_count(s, cursor, numbers.total)?;
        let a = after.at;
        let e = stretch_end(s, a, count);
        let part = &s[a..e];
        read_table(part, kind, count, kept, numbers)?;
        cursor = Cursor { at: e };
    }
    Ok(((), cursor))
}

// Header and k, which is the graph's. Of k too the byte's answer is judged.
fn read_head(s: &[u8], k: u8) -> Field<u8>
    ensures { read_of result ≡ head k s.now 0 }
{
    let (_, first) = Cursor::start().header(s, b'E', b'D', b'G', 1)?;
    let read = first.byte(s);
    let Ok((n, _)) = read else {
        return read;
    };
    first.judged(read, n == k, Reason::Bound)
}

// Header, k and the tables.
fn read_rows(s: &[u8], k: u8, kept: &mut [Element], numbers: &mut Numbers) -> Field<()>
    requires { gathered_in kept.old numbers.old ≡ none }
    ensures { GatheredRead result (gathered_in kept.new numbers.new) (mapped (put_all none) (rows_file element_limit k s.now 0)) }
{
    let (_, after) = read_head(s, k)?;
    let ((), last) = read_tables(s, after, k, kept, numbers)?;
    if numbers.total == 0 {
        return last.refuse(Reason::Bound);
    }
    Ok(((), last))
}

// Whether each number from 1 to the total came once.
fn each_once(times: &[u8]) -> bool
    ensures { result ≡ ones (length times.now) (λ i. get_or times.now i 0) }
{
    times.iter().all(|&t| t == 1)
}

// Elements of which parents lead up to the document node, since each has a smaller number than its child.
#[derive(Clone, Copy)]
struct Climbable<'a> {
    elements: &'a [Element],
    ghost most: { length elements.now ≤ element_limit },
    ghost falling: { (v : ℕ) → 0 < v → (node elements.now v).parent < v },
}

impl Climbable<'_> {
    fn node_at(self, v: u8) -> Element
        ensures { result ≡ node self.entry.elements.now v }
    {
        node_at(self.elements, v)
    }

    // Whether v is an element and is met on the way up from w, which may be v. Parents lead the way, so no range gives it.
    fn is_at_or_above(self, v: u8, w: u8) -> bool
        requires { w ≤ length self.elements.now }
        ensures { result ≡ ltb 0 v && (eqb v w || below (view self.entry.elements.now) v w) }
    {
        let mut node = w;
        while node > 0 {
            if v == node {
                return true;
            }
            node = self.node_at(node).parent;
        }
        false
    }

    #[tactic(auto, unfolding(meaning::specs::Documents::parent_rule, meaning::specs::Documents::view))]
    fn keeps_parent_rule(self, i: u8) -> bool
        requires { (1 ≤ i) × (i ≤ length self.elements.now) }
        ensures { result ≡ parent_rule (view self.entry.elements.now) i }
    {
        let parent = self.node_at(i).parent;
        if i == 1 {
            return parent == 0;
        }
        self.is_at_or_above(parent, i - 1)
    }

    #[tactic(auto, unfolding(meaning::specs::Documents::edge_rule, meaning::specs::Documents::view))]
    fn keeps_edge_rule(self, g: Graph, i: u8) -> bool
        ensures { result ≡ edge_rule g (view self.entry.elements.now) i }
    {
        let element = self.node_at(i);
        let parent = self.node_at(element.parent);
        kinds::is_child(g, parent.kind, element.kind)
    }

    // The file has ended: nothing is read any more, and the cursor stays.
    fn judge_element(self, g: Graph, i: u8, end: Cursor) -> Field<()>
        requires { (1 ≤ i) × (i ≤ length self.elements.now) }
        ensures { read_of result ≡ element_judged g self.entry.elements.now i [] end.at }
    {
        if !self.keeps_parent_rule(i) {
            return end.refuse(Reason::Number);
        }
        if !self.keeps_edge_rule(g, i) {
            return end.refuse(Reason::Edge);
        }
        Ok(((), end))
    }

    fn judge_elements(self, g: Graph, end: Cursor) -> Field<()>
        ensures { read_of result ≡ elements_judged g self.entry.elements.now 1 (length self.entry.elements.now) [] end.at }
    {
        for i in 1..=self.elements.len() as u8 {
            self.judge_element(g, i, end)?;
        }
        Ok(((), end))
    }
}

fn judge_numbers(times: &[u8], end: Cursor) -> Field<()>
    ensures { read_of result ≡ judge_here (ones (length times.now) (λ i. get_or times.now i 0)) Number [] end.at }
{
    end.judged(Ok(((), end)), each_once(times), Reason::Number)
}

// Reads the elements into places that are lent for them.
// They are a slice whose length is asked for: an array type would ask more of callers.
pub fn read(s: &[u8], g: Graph, kept: &mut [Element]) -> Result<usize, Refusal>
    requires { length kept.old ≡ element_limit }
    ensures { Keeps (tables_file element_limit g s.now 0) kept.new result }
{
    let mut numbers = Numbers {
        times: [0; SMALL.elements],
        total: 0,
    };
    kept.fill(DOCUMENT_NODE);
    let ((), last) = read_rows(s, g.k, kept, &mut numbers)?;
    let ((), end) = last.end(s)?;
    let total = numbers.total;
    judge_numbers(&numbers.times[..total], end)?;
    let elements = &kept[..total];
    Climbable { elements }.judge_elements(g, end)?;
    Ok(total)
}
