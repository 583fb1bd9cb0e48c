// Reads requests as text from standard input, and prints their answers, as docs/REPLAY.md says. A read or a write that fails ends the program with its error.
#![tactic(auto)]

mod answering;
mod sheets;

use field::Word;
use requests::request::{ROOM, Request, Wanted, dropped, started};
use requests::storing::{Lists, room};
use requests::{reading, storing};
use std::io;
use std::io::{Read, Write};

// The most bytes of a line.
const LINE_ROOM: usize = 1048576;

// What is read of a request, and how much of a line: its number, and how many of its bytes, or none where it has more than there is room for.
#[derive(Clone, Copy)]
pub struct Course {
    pub request: Request,
    pub number: u64,
    pub length: Option<usize>,
}

// The line after one, of which nothing is read.
fn next_line(number: u64, request: Request) -> Course {
    Course {
        request,
        number: number.saturating_add(1),
        length: Some(0),
    }
}

// A byte of a line, where there is room for it. How many bytes the line has then.
fn put_byte(line: &mut [u8], b: u8, length: Option<usize>) -> Option<usize> {
    match length {
        Some(at) if at < line.len() => {
            line[at] = b;
            Some(at + 1)
        }
        _ => None,
    }
}

// A whole line. A request that is complete is answered.
fn take_line<W: Write>(
    to: &mut W,
    number: u64,
    line: &[u8],
    request: Request,
    lists: &mut Lists,
) -> io::Result<Request> {
    let read = storing::read_line(to, number, line, request, lists)?;
    if read.wanted == Wanted::Complete {
        answering::answer(to, read, lists)?;
        return Ok(started(None, Wanted::Outside));
    }
    Ok(read)
}

// The end of a line.
fn end_line<W: Write>(
    to: &mut W,
    line: &[u8],
    course: Course,
    lists: &mut Lists,
) -> io::Result<Course> {
    let number = course.number;
    let next = match course.length {
        Some(length) => {
            let end = length.min(line.len());
            take_line(to, number, &line[..end], course.request, lists)?
        }
        None => {
            reading::complain(to, number, b"more than 1048576 bytes")?;
            dropped(course.request)
        }
    };
    Ok(next_line(number, next))
}

// A piece of the input.
fn feed<W: Write>(
    to: &mut W,
    piece: &[u8],
    line: &mut [u8],
    course: Course,
    lists: &mut Lists,
) -> io::Result<Course> {
    let mut now = course;
    for b in piece {
        if *b == b'\n' {
            now = end_line(to, line, now, lists)?;
        } else {
            now.length = put_byte(line, *b, now.length);
        }
    }
    Ok(now)
}

// The end of the input. A last line may lack its line feed.
fn finish<W: Write>(to: &mut W, line: &[u8], course: Course, lists: &mut Lists) -> io::Result<()> {
    let mut last = course;
    if course.length != Some(0) {
        last = end_line(to, line, course, lists)?;
    }
    reading::take_end(to, last.number, last.request)
}

// All of the input, piece by piece.
fn replay<R: Read, W: Write>(
    from: &mut R,
    to: &mut W,
    piece: &mut [u8],
    line: &mut [u8],
    lists: &mut Lists,
) -> io::Result<()> {
    let mut course = next_line(0, started(None, Wanted::Outside));
    for _ in 0..u64::MAX {
        let count = from.read(piece)?;
        if count == 0 {
            break;
        }
        course = feed(to, &piece[..count], line, course, lists)?;
    }
    finish(to, line, course, lists)
}

fn main(rt: HostRuntime) -> io::Result<()> {
    let mut circuit = room::<Word, ROOM>(0);
    let mut prep = room::<Word, ROOM>(0);
    let mut inputs = room::<Word, ROOM>(0);
    let mut scratch = room::<Word, ROOM>(0);
    let mut words = room::<Word, ROOM>(0);
    let mut nonces = room::<Word, ROOM>(0);
    let mut out = room::<Word, ROOM>(0);
    let mut outputs = room::<Word, ROOM>(0);
    let mut lists = Lists {
        circuit: &mut circuit,
        prep: &mut prep,
        inputs: &mut inputs,
        scratch: &mut scratch,
        words: &mut words,
        nonces: &mut nonces,
        out: &mut out,
        outputs: &mut outputs,
    };
    replay(
        &mut rt.stdin(),
        &mut rt.stdout(),
        &mut room::<u8, ROOM>(0),
        &mut room::<u8, LINE_ROOM>(0),
        &mut lists,
    )
}
