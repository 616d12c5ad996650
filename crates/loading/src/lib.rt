// Files and arguments, as the programs take them.
#![tactic(auto)]

ghost use Rattle.std.specs.Prelude.{◌≤◌, length};

use std::env::{Env, FillError};
use std::fs;
use std::fs::Files;
use std::io::Read;

// What the reader gives until the buffer is full, it ends or a read fails.
fn fill<R: Read>(reader: &mut R, buffer: &mut [u8]) -> usize
    ensures { result ≤ length buffer.new }
{
    let mut done: usize = 0;
    // No `for`: how far a read comes is the reader's.
    while done < buffer.len() {
        match reader.read(&mut buffer[done..]) {
            Ok(n) if 0 < n => done += n,
            _ => return done,
        }
    }
    done
}

// What the file holds from its start on, up to the buffer's length. One that is missing or can't be read counts as empty.
pub fn load<'a, R: Files>(rt: &R, name: &[u8], buffer: &'a mut [u8]) -> &'a [u8]
    ensures { length result.now ≤ length buffer.old }
{
    let Ok(path) = str::from_utf8(name) else {
        return &[];
    };
    let Ok(mut file) = fs::open(rt, path) else {
        return &[];
    };
    let n = fill(&mut file, buffer);
    &buffer[..n]
}

// An argument; one that is missing or too long counts as empty.
pub fn argument<'a>(rt: &impl Env, at: usize, buffer: &'a mut [u8]) -> &'a [u8]
    ensures { length result.now ≤ length buffer.old }
{
    let n = rt.arg(at, buffer).unwrap_or(0);
    &buffer[..n]
}

// Whether there is such an argument; the list of them ends at the first that is missing.
pub fn is_there(rt: &impl Env, argument: usize) -> bool {
    !matches!(rt.arg(argument, &mut [0; 0]), Err(FillError::NotPresent))
}
