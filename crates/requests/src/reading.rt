// Reading a line of a request. An error is the writer's, where a complaint is printed, and leaves what is lent as it was.
ghost use Rattle.std.specs.Prelude.{◌≡◌, ◌⊎◌, true, IfOk, IsOk, OnErr};
ghost use Rattle.requests.specs.Order.{placed, awaits, dropped as drops};
ghost use Rattle.requests.specs.Lines as L;
ghost use Rattle.requests.specs.Lines.{goes as skips, one_in, position_in, goes, take_number, take_position, take_wanted, take_field, take_line};

use crate::naming::{Entry, Field, entry_named, nth_word, stage_named};
use crate::request::{Request, Wanted, dropped, moved_on, started, with_number, with_position};
use party::Position;
use protocol::Stage;
use std::convert::AsSlice;
use std::io;
use std::io::Write;
use text::Fault;

const HASH: u8 = b'#';

// What a line leads to: the request goes on; where it wants a list, that begins at a place of the line.
#[derive(Clone, Copy)]
pub struct Step {
    pub request: Request,
    pub list: Option<usize>,
}

// A message is a text or its bytes.
pub fn complain<W: Write, M: AsSlice<u8> + Drop>(
    to: &mut W,
    number: u64,
    message: M,
) -> io::Result<()> {
    write!(to, "line {number}: ")?;
    to.write_all(message.as_slice())?;
    writeln!(to)
}

// What was to come in a request, or outside of one.
fn complain_wanted<W: Write>(to: &mut W, number: u64, request: Request) -> io::Result<()> {
    write!(to, "line {number}: ")?;
    match request.wanted {
        Wanted::Outside => write!(to, "the name of an entry")?,
        _ => to.write_all(request.wanted_name())?,
    }
    writeln!(to, " is wanted")
}

// What is wrong with numbers, where anything is.
pub fn complain_numbers<W: Write>(
    to: &mut W,
    number: u64,
    read: Result<usize, Fault>,
) -> io::Result<()>
    ensures { IsOk read → IsOk result }
{
    match read {
        Ok(_) => Ok(()),
        Err(Fault::Unlike) => complain(to, number, "not a number"),
        Err(Fault::TooLarge) => complain(to, number, "a number above 4294967295"),
        Err(Fault::TooMany) => complain(to, number, "more than 65536 numbers"),
    }
}

// The number that is all of a text; TooMany where there is not just one.
fn one_number(rest: &[u8]) -> Result<u32, Fault>
    ensures { result ≡ one_in rest.now }
{
    let mut list = [0u32; 1];
    match text::read_numbers(rest, &mut list)? {
        1 => Ok(list[0]),
        _ => Err(Fault::TooMany),
    }
}

fn complain_one<W: Write>(to: &mut W, number: u64, fault: Fault) -> io::Result<()> {
    match fault {
        Fault::TooMany => complain(to, number, "one number is wanted"),
        _ => complain_numbers(to, number, Err(fault)),
    }
}

// A request for which a number was wanted: that of the parties, or of this party.
fn take_number<W: Write>(
    to: &mut W,
    number: u64,
    rest: &[u8],
    request: Request,
) -> io::Result<Request>
    ensures told { IfOk result (λ r. r ≡ take_number rest.now request) }
    ensures err { OnErr result (take_number rest.now request ≡ drops request) }
{
    match one_number(rest) {
        Ok(n) => Ok(moved_on(with_number(request, n))),
        Err(fault) => {
            complain_one(to, number, fault)?;
            Ok(dropped(request))
        }
    }
}

// The position that is all of a text.
fn position_in(rest: &[u8]) -> Option<Position>
    ensures { result ≡ position_in rest.now }
{
    let first = nth_word(rest, 0);
    let second = nth_word(rest, 1);
    let third = nth_word(rest, 2);
    let last = nth_word(rest, 3);
    if last.start < last.end {
        return None;
    }
    let gate = one_number(&rest[first.start..first.end]);
    let stage = stage_named(&rest[second.start..second.end]);
    let held = one_number(&rest[third.start..third.end]);
    position_of(gate, stage, held)
}

// A gate, a stage and a check share, where each is read.
fn position_of(
    gate: Result<u32, Fault>,
    stage: Option<Stage>,
    held: Result<u32, Fault>,
) -> Option<Position>
    ensures { result ≡ placed gate stage held }
{
    Some(Position {
        gate: gate.ok()? as usize,
        stage: stage?,
        held: held.ok()?,
    })
}

fn take_position<W: Write>(
    to: &mut W,
    number: u64,
    rest: &[u8],
    request: Request,
) -> io::Result<Request>
    ensures told { IfOk result (λ r. r ≡ take_position rest.now request) }
    ensures err { OnErr result (take_position rest.now request ≡ drops request) }
{
    match position_in(rest) {
        Some(at) => Ok(moved_on(with_position(request, at))),
        None => {
            complain(to, number, "a gate, a stage and a check share are wanted")?;
            Ok(dropped(request))
        }
    }
}

fn goes(request: Request) -> Step
    ensures { result ≡ goes request }
{
    Step {
        request,
        list: None,
    }
}

// The line of what is wanted; its list begins at a place.
fn take_wanted<W: Write>(
    to: &mut W,
    number: u64,
    rest: &[u8],
    start: usize,
    request: Request,
) -> io::Result<Step>
    ensures told { IfOk result (λ s. s ≡ take_wanted request.wanted rest.now start request) }
    ensures err { OnErr result (take_wanted request.wanted rest.now start request ≡ skips (drops request)) }
{
    match request.wanted {
        Wanted::Field(Field::Parties | Field::Party) => {
            Ok(goes(take_number(to, number, rest, request)?))
        }
        Wanted::Field(Field::Position) => Ok(goes(take_position(to, number, rest, request)?)),
        _ => Ok(Step {
            request,
            list: Some(start),
        }),
    }
}

// A line that begins with no entry's name.
fn take_field<W: Write>(
    to: &mut W,
    number: u64,
    name: &[u8],
    rest: &[u8],
    start: usize,
    request: Request,
) -> io::Result<Step>
    ensures told { IfOk result (λ s. s ≡ take_field name.now rest.now start request) }
    ensures err { OnErr result (take_field name.now rest.now start request ≡ skips (drops request)) }
{
    match request.wanted {
        Wanted::Lost => Ok(goes(request)),
        _ if name == request.wanted_name() => take_wanted(to, number, rest, start, request),
        _ => {
            complain_wanted(to, number, request)?;
            Ok(goes(dropped(request)))
        }
    }
}

// A line that begins with an entry's name; bare says that nothing else is there.
fn begin<W: Write>(
    to: &mut W,
    number: u64,
    entry: Option<Entry>,
    bare: bool,
    request: Request,
) -> io::Result<Request>
    ensures told { IfOk result (λ r. r ≡ L.begin entry bare request) }
    ensures err { OnErr result ((awaits request.wanted ≡ true) ⊎ (L.begin entry bare request ≡ drops request)) }
{
    take_end(to, number, request)?;
    if !bare {
        complain(to, number, "nothing may follow the name of an entry")?;
        return Ok(dropped(request));
    }
    Ok(started(entry, Wanted::Field(Field::Parties)))
}

// A line of the input.
pub fn take_line<W: Write>(
    to: &mut W,
    number: u64,
    line: &[u8],
    request: Request,
) -> io::Result<Step>
    ensures told { IfOk result (λ s. s ≡ take_line line.now request) }
    ensures err { OnErr result ((awaits request.wanted ≡ true) ⊎ (take_line line.now request ≡ skips (drops request))) }
{
    let word = text::word_from(line, 0);
    if word.start == word.end || line[0] == HASH {
        return Ok(goes(request));
    }
    match entry_named(&line[word.start..word.end]) {
        Some(entry) => {
            let after = text::word_from(line, word.end);
            let bare = after.start == after.end;
            Ok(goes(begin(to, number, Some(entry), bare, request)?))
        }
        None => take_field(
            to,
            number,
            &line[word.start..word.end],
            &line[word.end..],
            word.end,
            request,
        ),
    }
}

// The end of the input, or of a request: nothing may be wanted.
pub fn take_end<W: Write>(to: &mut W, number: u64, request: Request) -> io::Result<()>
    ensures { OnErr result (awaits request.wanted ≡ true) }
{
    if let Wanted::Field(_) = request.wanted {
        complain_wanted(to, number, request)?;
    }
    Ok(())
}
