// Reading a line of a request, and storing its list. An error is the writer's, where a complaint is printed; the lists then have what was stored before it.
ghost use Rattle.std.specs.Prelude.{◌≡◌, length};

use crate::bytes::all_bytes;
use crate::naming::Field;
use crate::reading::{complain, complain_numbers, take_line};
use crate::request::{ROOM, Request, Wanted, dropped, moved_on, with_number};
use field::Word;
use std::io;
use std::io::Write;

// Room for a list of each field that is one; a list has no more numbers than its room.
#[derive(Drop)]
pub struct Lists<'a> {
    pub circuit: &'a mut [Word],
    pub prep: &'a mut [Word],
    pub inputs: &'a mut [Word],
    pub scratch: &'a mut [Word],
    pub words: &'a mut [Word],
    pub nonces: &'a mut [Word],
    pub out: &'a mut [Word],
    pub outputs: &'a mut [Word],
}

impl Lists<'_> {
    fn room(&mut self, field: Field) -> Option<&mut [Word]> {
        match field {
            Field::Circuit => Some(&mut *self.circuit),
            Field::Prep => Some(&mut *self.prep),
            Field::Inputs => Some(&mut *self.inputs),
            Field::Scratch => Some(&mut *self.scratch),
            Field::Words => Some(&mut *self.words),
            Field::Nonces => Some(&mut *self.nonces),
            Field::Out => Some(&mut *self.out),
            Field::Outputs => Some(&mut *self.outputs),
            Field::Parties | Field::Party | Field::Position => None,
        }
    }
}

// Room of a size, in which nothing is yet.
pub fn room<T: Copy, const N: usize>(zero: T) -> [T; N]
    ensures { length result ≡ N }
{
    [zero; N]
}

// Is what is wanted bytes? A text is, and so are nonces.
fn wants_bytes(request: Request) -> bool {
    request.wanted == Wanted::Field(Field::Nonces) || request.wanted_name() == b"text".as_slice()
}

// Reads the list that is wanted, which begins at a place of the line, into its room.
fn take_list<W: Write>(
    to: &mut W,
    number: u64,
    line: &[u8],
    from: usize,
    request: Request,
    list: &mut [Word],
) -> io::Result<Request> {
    let start = from.min(line.len());
    let read = text::read_numbers(&line[start..], list);
    complain_numbers(to, number, read)?;
    match read {
        Ok(n) => {
            let count = n.min(list.len());
            if wants_bytes(request) && !all_bytes(&list[..count]) {
                complain(to, number, "a byte above 255")?;
                return Ok(dropped(request));
            }
            Ok(moved_on(with_number(request, n.min(ROOM) as u32)))
        }
        Err(_) => Ok(dropped(request)),
    }
}

// Reads a line. The list that it has is stored in its room.
pub fn read_line<W: Write>(
    to: &mut W,
    number: u64,
    line: &[u8],
    request: Request,
    lists: &mut Lists,
) -> io::Result<Request> {
    let step = take_line(to, number, line, request)?;
    let next = step.request;
    let (Some(from), Wanted::Field(field)) = (step.list, next.wanted) else {
        return Ok(next);
    };
    match lists.room(field) {
        Some(list) => take_list(to, number, line, from, next, list),
        None => Ok(next),
    }
}
