// Lists the nodes that query.qry selects from tables.edg under graph.gra, all in the folder that it runs in.
#![tactic(auto)]

ghost use Rattle.std.specs.Prelude.{◌≡◌, ◌+◌, ◌*◌, ◌≤◌, length};
ghost use Rattle.meaning.specs.Limits.{small, element_limit, step_limit, room_bytes};

use loading::load;
use meaning::{Answer, SMALL, STEPS};
use std::io;

// The text is inside the buffer, as the contract of the call that wrote it says; to ask once more spares main a contract of
// its own.
fn print_text(rt: &impl Print, text: &[u8], length: usize) -> io::Result<()> {
    if let Some(written) = text.get(..length) {
        rt.write_all(written)?;
    }
    Ok(())
}

fn print_refused(rt: &impl Print, number: u8) -> io::Result<()> {
    let mut line = [0u8; 14];
    let length = text::refusal(number, &mut line);
    print_text(rt, &line, length)
}

fn print(rt: &impl Print, answer: Answer, listing: &[u8]) -> io::Result<()> {
    if answer.number == 0 {
        print_text(rt, listing, answer.count as usize)
    } else {
        print_refused(rt, answer.number)
    }
}

// What a listing and its work area can take: a line for each node and one before them, and a room for each step.
const TEXT: usize = 13 * (SMALL.elements + 2);

const WORK: usize = 2048 * STEPS;

// The listing of what the query selects. With this much lent, want of room is never the answer.
fn listed(gra: &[u8], edg: &[u8], qry: &[u8], text: &mut [u8], work: &mut [u8]) -> Answer
    requires { (13 * (element_limit + 2) ≤ length text.old) × (room_bytes small.row * step_limit ≤ length work.old) }
    ensures { result.number ≡ 12 → ⊥ }
{
    trammelbud::tb_list(gra, edg, qry, text, work)
}

// No file of 1,024 bytes is accepted: a graph has at most 39, tables 530, a query fewer than 78. So a longer file is judged
// by its first 1,024 bytes as the whole of it would be.
fn main(rt: HostRuntime) {
    let mut room = [0u8; 1024];
    let gra = load(&rt, b"graph.gra", &mut room);
    let mut room = [0u8; 1024];
    let edg = load(&rt, b"tables.edg", &mut room);
    let mut room = [0u8; 1024];
    let qry = load(&rt, b"query.qry", &mut room);
    let mut listing = [0u8; TEXT];
    let mut work = [0u8; WORK];
    let answer = listed(gra, edg, qry, &mut listing, &mut work);
    // Whether the output took it or not, the program ends with status 0.
    let _ = print(&rt, answer, &listing);
}
