// One command of a run at a time, read from bytes. An inner crate: the library's own crates alone call it.
#![tactic(auto)]

ghost use Rattle.std.specs.Prelude.{◌≡◌};
ghost use Rattle.model.specs.Transcript.{command_kinds};
ghost use Rattle.decode.specs.Asked.{size_told, request_of, request_at};

// What a record asks for. Tickets have two bytes, the rest one; the node stands first, so that in every case the tickets lie at the same places and the
// back end keeps them apart.
#[derive(Clone, Copy)]
pub enum Request {
    // Node, ticket.
    Start(u8, u16),
    // Node, parent, ticket.
    Call(u8, u16, u16),
    Return(u16),
    Ask(u16),
    // Site, level.
    Room(u8, u8),
    TakeBack(u16),
}

// What else may stand where a command is due.
#[derive(Clone, Copy, PartialEq, Eq)]
pub enum Unread {
    // Nothing.
    End,
    // The input ends where a body byte is due.
    Cut,
    Unknown,
}

// How many bytes the body of a kind has, where the kind is known.
fn body_size(kind: u8) -> Option<usize>
    ensures { size_told result ≡ command_kinds kind }
{
    match kind {
        0x10 => Some(3),
        0x11 => Some(5),
        0x12..=0x15 => Some(2),
        _ => None,
    }
}

// The request of a known kind by the bytes of its body.
fn request_in(kind: u8, body: &[u8]) -> Request
    ensures { result ≡ request_of kind body.now }
{
    let first = record::byte(body, 0);
    let second = record::byte(body, 1);
    let third = record::byte(body, 2);
    let ticket = u16::from_be_bytes([first, second]);
    match kind {
        0x10 => Request::Start(third, ticket),
        0x11 => {
            let fourth = record::byte(body, 3);
            let called = u16::from_be_bytes([third, fourth]);
            Request::Call(record::byte(body, 4), ticket, called)
        }
        0x12 => Request::Return(ticket),
        0x13 => Request::Ask(ticket),
        0x15 => Request::TakeBack(ticket),
        _ => Request::Room(first, second),
    }
}

// The request at an offset, and the offset behind it.
pub fn next_request(bytes: &[u8], at: usize) -> Result<(Request, usize), Unread>
    ensures { result ≡ request_at bytes.now at }
{
    if bytes.len() <= at {
        return Err(Unread::End);
    }
    let kind = bytes[at];
    let Some(size) = body_size(kind) else {
        return Err(Unread::Unknown);
    };
    if bytes.len() - at - 1 < size {
        return Err(Unread::Cut);
    }
    let start = at + 1;
    let end = start + size;
    Ok((request_in(kind, &bytes[start..end]), end))
}
