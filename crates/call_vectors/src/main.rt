// Makes the calls that its arguments name and prints what each answers, and what it leaves in the buffers lent to it. A
// case is six arguments: its name, which begins with the call's; the graph and two more files; the rooms of `out` and of
// `work`. A call that takes fewer files or buffers has arguments that it doesn't look at.
#![tactic(auto)]

ghost use Rattle.std.specs.Prelude.{◌+◌, ◌≤◌, ◌^◌, length};

use announce::Checked;
use loading::{argument, is_there, load};
use masks::Announced;
use meaning::{Answer, STEPS};
use std::env::Env;
use std::fs::Files;
use std::io;

// Arguments of a case.
const WORDS: usize = 6;
// The most that can be lent of each buffer; the longest listing has 1,563 bytes, and 24 steps take 49,152.
const OUT: usize = 2048;

const WORK: usize = 2048 * STEPS;
// Sums of bytes are taken modulo this prime, 2^56 - 5.
const MODULUS: u64 = 72057594037927931;

// What a lent buffer holds at a place before the call.
fn pattern(place: usize) -> u8 {
    ((place % 256 * 7 + 3) % 256) as u8
}

fn fill(buffer: &mut [u8]) {
    for (place, byte) in buffer.iter_mut().enumerate() {
        *byte = pattern(place);
    }
}

fn is_as_filled(buffer: &[u8]) -> bool {
    buffer
        .iter()
        .enumerate()
        .all(|(place, byte)| *byte == pattern(place))
}

// The bytes as the digits of a number to the base 251, behind a digit 1 that makes leading zeros count.
fn sum(buffer: &[u8]) -> u64 {
    let mut sum: u64 = 1;
    for byte in buffer {
        sum = (251 * sum + u64::from(*byte)) % MODULUS;
    }
    sum
}

fn print_state(rt: &impl Print, buffer: &[u8]) -> io::Result<()> {
    if is_as_filled(buffer) {
        print!(rt; " same ")
    } else {
        print!(rt; " changed ")
    }
}

fn print_bytes(rt: &impl Print, bytes: &[u8]) -> io::Result<()> {
    for byte in bytes {
        print!(rt; "{byte:02x}")?;
    }
    Ok(())
}

fn print_out(rt: &impl Print, out: &[u8]) -> io::Result<()> {
    print!(rt; "out")?;
    print_state(rt, out)?;
    print_bytes(rt, out)?;
    println!(rt; "")
}

fn print_work(rt: &impl Print, work: &[u8]) -> io::Result<()> {
    print!(rt; "work")?;
    print_state(rt, work)?;
    let sum = sum(work);
    println!(rt; "{sum:014x}")
}

fn print_answer(rt: &impl Print, name: &[u8], answer: Answer) -> io::Result<()> {
    rt.write_all(name)?;
    let Answer { number, count } = answer;
    println!(rt; " {number} {count}")
}

fn print_pairs_from(rt: &impl Print, step: usize, kind: usize, kinds: u32) -> io::Result<()> {
    if kinds != 0 {
        print!(rt; " {step}:{kind}:{kinds:x}")?;
    }
    Ok(())
}

fn print_pairs(rt: &impl Print, step: usize, announced: &Announced) -> io::Result<()> {
    for (kind, kinds) in announced.pairs.iter().enumerate() {
        print_pairs_from(rt, step, kind, *kinds)?;
    }
    Ok(())
}

fn print_steps(rt: &impl Print, checked: &Checked) -> io::Result<()> {
    for (step, announced) in checked.steps.iter().enumerate() {
        print_pairs(rt, step, announced)?;
    }
    Ok(())
}

fn print_checked(rt: &impl Print, name: &[u8], checked: Checked) -> io::Result<()> {
    rt.write_all(name)?;
    let number = checked.number;
    print!(rt; " {number}\npairs")?;
    print_steps(rt, &checked)?;
    println!(rt; "")
}

// The calls that write one buffer, and those that write two.
#[derive(Clone, Copy)]
enum Converting {
    Shred,
    Rebuild,
    Translate,
}

#[derive(Clone, Copy)]
enum Asking {
    Run,
    Select,
    List,
}

#[derive(Clone, Copy)]
enum Call {
    Check,
    Convert(Converting),
    Ask(Asking),
}

// A case: the files that it names, and how much of `out` and of `work` it lends.
#[derive(Clone, Copy)]
struct Case<'a> {
    name: &'a [u8],
    gra: &'a [u8],
    second: &'a [u8],
    third: &'a [u8],
    out_room: u32,
    work_room: u32,
}

// The third letter of each call's name is its own.
fn call_of(name: &[u8]) -> Call {
    match name.get(2) {
        Some(b'e') => Call::Check,
        Some(b'r') => Call::Convert(Converting::Shred),
        Some(b'b') => Call::Convert(Converting::Rebuild),
        Some(b'n') => Call::Ask(Asking::Run),
        Some(b'l') => Call::Ask(Asking::Select),
        Some(b's') => Call::Ask(Asking::List),
        _ => Call::Convert(Converting::Translate),
    }
}

fn convert(which: Converting, case: Case<'_>, out: &mut [u8]) -> Answer {
    match which {
        Converting::Shred => trammelbud::tb_shred(case.gra, case.second, out),
        Converting::Rebuild => trammelbud::tb_rebuild(case.gra, case.second, out),
        Converting::Translate => trammelbud::tb_translate(case.gra, case.second, out),
    }
}

fn ask(which: Asking, case: Case<'_>, out: &mut [u8], work: &mut [u8]) -> Answer {
    let Case {
        gra,
        second,
        third,
        ..
    } = case;
    match which {
        Asking::Run => trammelbud::tb_run(gra, second, third, out, work),
        Asking::Select => trammelbud::tb_select(gra, second, third, out, work),
        Asking::List => trammelbud::tb_list(gra, second, third, out, work),
    }
}

fn show_convert(
    rt: &impl Print,
    which: Converting,
    case: Case<'_>,
    out: &mut [u8],
) -> io::Result<()> {
    fill(out);
    print_answer(rt, case.name, convert(which, case, out))?;
    print_out(rt, out)
}

fn show_ask(
    rt: &impl Print,
    which: Asking,
    case: Case<'_>,
    out: &mut [u8],
    work: &mut [u8],
) -> io::Result<()> {
    fill(out);
    fill(work);
    print_answer(rt, case.name, ask(which, case, out, work))?;
    print_out(rt, out)?;
    print_work(rt, work)
}

// As much of a buffer as a case lends.
fn lent<'a>(room: u32, buffer: &'a mut [u8]) -> &'a mut [u8]
    ensures { length result.now ≤ length buffer.old }
{
    let n = (room as usize).min(buffer.len());
    &mut buffer[..n]
}

fn lend_one(rt: &impl Print, which: Converting, case: Case<'_>) -> io::Result<()> {
    let mut out = [0u8; OUT];
    show_convert(rt, which, case, lent(case.out_room, &mut out))
}

fn lend_two(rt: &impl Print, which: Asking, case: Case<'_>) -> io::Result<()> {
    let mut out = [0u8; OUT];
    let mut work = [0u8; WORK];
    let out = lent(case.out_room, &mut out);
    let work = lent(case.work_room, &mut work);
    show_ask(rt, which, case, out, work)
}

fn make(rt: &impl Print, case: Case<'_>) -> io::Result<()> {
    match call_of(case.name) {
        Call::Check => print_checked(rt, case.name, trammelbud::tb_check(case.gra, case.second)),
        Call::Convert(which) => lend_one(rt, which, case),
        Call::Ask(which) => lend_two(rt, which, case),
    }
}

// The number that an argument spells in decimal, with five digits at most.
fn number(rt: &impl Env, at: usize) -> u32 {
    let mut text = [0u8; 5];
    decimal(argument(rt, at, &mut text))
}

// Not `str::parse`, which refuses what isn't a number: any bytes have to give the number that they gave before.
fn decimal(text: &[u8]) -> u32 {
    let mut value: u32 = 0;
    for glyph in text {
        value = (10 * value + u32::from(*glyph % 16)) % 100000;
    }
    value
}

// The file that an argument names.
fn file<'a>(rt: &(impl Env + Files), at: usize, buffer: &'a mut [u8]) -> &'a [u8]
    ensures { length result.now ≤ length buffer.old }
{
    let mut name = [0u8; 64];
    load(rt, argument(rt, at, &mut name), buffer)
}

// The buffers are longer than any file among the vectors.
fn judge(rt: &(impl Env + Files + Print), first: usize) -> io::Result<()>
    requires { first + 6 ≤ 2 ^ 64 }
{
    let mut name = [0u8; 64];
    let mut gra = [0u8; 1024];
    let mut second = [0u8; 1024];
    let mut third = [0u8; 1024];
    let case = Case {
        name: argument(rt, first, &mut name),
        gra: file(rt, first + 1, &mut gra),
        second: file(rt, first + 2, &mut second),
        third: file(rt, first + 3, &mut third),
        out_room: number(rt, first + 4),
        work_room: number(rt, first + 5),
    };
    make(rt, case)
}

// The arguments are counted from 1, since argument 0 is the program's own name; a case needs all but its last.
fn main(rt: HostRuntime) -> io::Result<()> {
    for case in 0..usize::MAX / WORDS {
        if !is_there(&rt, WORDS * case + 5) {
            break;
        }
        judge(&rt, WORDS * case + 1)?;
    }
    Ok(())
}
