// Standard output and standard input: nothing is lost in silence. A write or a read that cannot be done is tried again where that helps, a
// bounded number of times, and else a line goes to standard error and the caller is told to stop. Which bytes go or come, no contract says.
#![tactic(auto)]

ghost use Rattle.std.specs.Prelude.{◌≤◌, ◌<◌, ◌+◌, ◌≡◌, ◌⊎◌, length};

use std::io::{Error, ErrorKind, Read};

// How often a write or a read that would have to wait is tried again, and how often the processor is left to others before each. By how busy
// the machine is that makes some seconds in all, or some minutes.
const TRIES: usize = 4096;

const YIELDS: usize = 10000;

// Writes out what stands before a place, and hands back the buffer's start; or, where it cannot be written or could not before, a place past
// the buffer's end, at which nothing is put any more.
pub fn write_out(rt: &(impl Print + Eprint), out: &[u8], at: usize) -> usize
    ensures { (result ≡ 0) ⊎ (length out.now < result) }
{
    if out.len() < at {
        return at;
    }
    let mut last = Error::from(ErrorKind::WriteZero);
    if write_all(rt, &out[0..at], &mut last) {
        return 0;
    }
    eprintln!(rt; "mudwicket: the answers cannot be written: {last}").is_ok();
    out.len() + 1
}

// Writes all of the bytes, and says whether it could. The error of the last write that failed is left in `last`.
fn write_all(rt: &impl Print, bytes: &[u8], last: &mut Error) -> bool {
    let mut done: usize = 0;
    let mut tries: usize = TRIES;
    while done < bytes.len() {
        if tries == 0 {
            return false;
        }
        let next = write_behind(rt, bytes, done, last);
        tries = tries_left(done, next, tries, last);
        done = next;
    }
    true
}

// How many tries are left after a write: one less where it took nothing and may be tried again, none where that does not help.
fn tries_left(done: usize, next: usize, tries: usize, last: &Error) -> usize
    requires { 0 < tries }
    ensures { (result ≤ tries) × (next ≡ done → result < tries) }
{
    if next != done {
        return tries;
    }
    if !again(last) {
        return 0;
    }
    pause();
    tries - 1
}

// One write of the bytes from a place on, and the place up to which they are written then.
fn write_behind(rt: &impl Print, bytes: &[u8], done: usize, last: &mut Error) -> usize
    requires { done ≤ length bytes.now }
    ensures { (done ≤ result) × (result ≤ length bytes.now) }
{
    let put = write_part(rt, &bytes[done..], last);
    done + put
}

fn write_part(rt: &impl Print, part: &[u8], last: &mut Error) -> usize
    ensures { result ≤ length part.now }
{
    match rt.write_some(part) {
        Ok(put) => put,
        Err(error) => {
            *last = error;
            0
        }
    }
}

// Reads into the room: how many bytes came, none where the input ends, and one more than there is room for where it cannot be read.
pub fn read_in(rt: &(impl Input + Eprint), room: &mut [u8]) -> usize
    ensures { result ≤ length room.old + 1 }
{
    let mut last = Error::from(ErrorKind::UnexpectedEof);
    let n = read_tried(rt, room, &mut last);
    if room.len() < n {
        eprintln!(rt; "mudwicket: the commands cannot be read: {last}").is_ok();
    }
    n
}

fn read_tried(rt: &impl Input, room: &mut [u8], last: &mut Error) -> usize
    ensures { result ≤ length room.old + 1 }
{
    let mut n = read_once(rt, room, last);
    let mut tries: usize = TRIES;
    while tries > 0 && room.len() < n {
        n = read_again(rt, room, n, last);
        tries -= 1;
    }
    n
}

// Another read where the last one failed and it helps.
fn read_again(rt: &impl Input, room: &mut [u8], n: usize, last: &mut Error) -> usize
    requires { n ≤ length room.old + 1 }
    ensures { result ≤ length room.old + 1 }
{
    if !again(last) {
        return n;
    }
    pause();
    read_once(rt, room, last)
}

fn read_once(rt: &impl Input, room: &mut [u8], last: &mut Error) -> usize
    ensures { result ≤ length room.old + 1 }
{
    let mut input = rt.reader();
    match input.read(room) {
        Ok(got) => got,
        Err(error) => {
            *last = error;
            room.len() + 1
        }
    }
}

// Whether the last call that failed was interrupted, or would have had to wait.
fn again(last: &Error) -> bool {
    let kind = last.kind();
    kind == ErrorKind::Interrupted || kind == ErrorKind::WouldBlock
}

// Leaves the processor to others for a little while.
fn pause() {
    let mut i: usize = 0;
    while i < YIELDS {
        std::thread::yield_now();
        i += 1;
    }
}
