// Reads the files that its arguments name, in pairs of a graph and a file, and prints for each file its name and
// what the reader of its kind answers.
#![tactic(auto)]

use loading::{argument, is_there, load};
use meaning::Answer;
use std::env::Env;
use std::fs::Files;
use std::io;

// What a file is, by the letter with which its name's ending begins.
#[derive(Clone, Copy)]
enum Kind {
    Document,
    Tables,
    Query,
    Program,
    Graph,
}

fn kind_of(name: &[u8]) -> Kind {
    match name {
        [.., b't', _, _] => Kind::Document,
        [.., b'e', _, _] => Kind::Tables,
        [.., b'q', _, _] => Kind::Query,
        [.., b'r', _, _] => Kind::Program,
        _ => Kind::Graph,
    }
}

fn answer(kind: Kind, gra: &[u8], file: &[u8]) -> Answer {
    match kind {
        Kind::Document => trammelbud::tb_read_document(gra, file),
        Kind::Tables => trammelbud::tb_read_tables(gra, file),
        Kind::Query => trammelbud::tb_read_query(gra, file),
        Kind::Program => trammelbud::tb_read_program(gra, file),
        Kind::Graph => trammelbud::tb_read_graph(file),
    }
}

fn print(rt: &impl Print, name: &[u8], answer: Answer) -> io::Result<()> {
    rt.write_all(name)?;
    let Answer { number, count } = answer;
    println!(rt; " {number} {count}")
}

// The buffers are longer than any file among the vectors.
fn judge(rt: &(impl Files + Print), graph: &[u8], name: &[u8]) -> io::Result<()> {
    let mut room = [0u8; 1024];
    let gra = load(rt, graph, &mut room);
    let mut room = [0u8; 1024];
    let file = load(rt, name, &mut room);
    print(rt, name, answer(kind_of(name), gra, file))
}

fn judge_pair(rt: &(impl Env + Files + Print), first: usize, second: usize) -> io::Result<()> {
    let mut room = [0u8; 64];
    let graph = argument(rt, first, &mut room);
    let mut room = [0u8; 64];
    let name = argument(rt, second, &mut room);
    judge(rt, graph, name)
}

// The arguments are counted from 1; argument 0 is the program's own name.
fn main(rt: HostRuntime) -> io::Result<()> {
    for pair in 0..usize::MAX / 2 {
        if !is_there(&rt, 2 * pair + 1) {
            break;
        }
        judge_pair(&rt, 2 * pair + 1, 2 * pair + 2)?;
    }
    Ok(())
}
