// What is read of a request.
ghost use Rattle.std.specs.Prelude.{◌≤◌, ◌≡◌};
ghost use Rattle.requests.specs.Order as O;

use crate::naming::{Entry, FIELDS, Field, field_name, has};
use circuit::Round;
use party::Position;
use protocol::Stage;

// The most numbers of a list.
pub const ROOM: usize = 65536;

// What the next line is to have: a field; or none, for the request is complete, has not begun, or is dropped.
#[derive(Clone, Copy, PartialEq, Eq)]
pub enum Wanted {
    Field(Field),
    Complete,
    Outside,
    Lost,
}

// The entry, what comes next, the position, and the number that is read of each field: of a list it is the length.
#[derive(Clone, Copy)]
pub struct Request {
    pub entry: Option<Entry>,
    pub wanted: Wanted,
    pub at: Position,
    pub read: [u32; 11],
}

impl Request {
    // The name of the field that is wanted; it is empty where none is.
    pub fn wanted_name(self) -> &'static [u8]
        ensures { result.now ≡ O.wanted_name self.entry self.wanted }
    {
        match self.wanted {
            Wanted::Field(field) => field_name(self.entry, field),
            _ => b"",
        }
    }

    // The number that is read of a field.
    pub fn number(self, field: Field) -> usize
        ensures { result ≡ O.number_of self field }
    {
        self.read[field.place()] as usize
    }

    // The length of the list of a field, no more than there is room for.
    pub fn count(self, field: Field) -> usize
        ensures { result ≤ 65536 }
    {
        self.number(field).min(ROOM)
    }
}

// A request of which only the entry is known.
pub fn started(entry: Option<Entry>, wanted: Wanted) -> Request
    ensures { result ≡ O.started entry wanted }
{
    Request {
        entry,
        wanted,
        at: Position {
            gate: 0,
            stage: Stage::Send(Round::Own),
            held: 0,
        },
        read: [0; 11],
    }
}

// What comes next in a request of an entry: the first field after one that the entry has.
fn following(entry: Option<Entry>, field: Field) -> Wanted
    ensures { result ≡ O.following entry field }
{
    let after = field.place() + 1;
    match FIELDS[after..].iter().find(|next| has(entry, **next)) {
        Some(next) => Wanted::Field(*next),
        None => Wanted::Complete,
    }
}

// After no field a request is complete.
pub fn moved_on(request: Request) -> Request
    ensures { result ≡ O.moved_on request }
{
    let wanted = match request.wanted {
        Wanted::Field(field) => following(request.entry, field),
        _ => Wanted::Complete,
    };
    Request { wanted, ..request }
}

pub fn dropped(request: Request) -> Request
    ensures { result ≡ O.dropped request }
{
    Request {
        wanted: Wanted::Lost,
        ..request
    }
}

// A request with the number that was wanted, or with the length of the list that was.
pub fn with_number(request: Request, n: u32) -> Request
    ensures { result ≡ O.with_number request n }
{
    let mut next = request;
    if let Wanted::Field(field) = request.wanted {
        next.read[field.place()] = n;
    }
    next
}

pub fn with_position(request: Request, at: Position) -> Request
    ensures { result ≡ O.standing request at }
{
    Request { at, ..request }
}
