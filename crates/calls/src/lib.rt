// The lines of the program `handlers` as calls: a firm, what it asks for, a slot; one space between. A message is the rest of its line.
#![tactic(auto)]

ghost use Rattle.std.specs.Prelude.{◌≡◌, drop};
ghost use Rattle.std.specs.Option.{option_copied};
ghost use Rattle.text.specs.Words.{before};
ghost use Rattle.calls.specs.Lines.{number_in, rest_of, place_as, slot_as, verb_as, asked};

// What a firm can ask for.
const FILE: &[u8] = b"FILE";

const UPDATE: &[u8] = b"UPDATE";

const CLEAR: &[u8] = b"CLEAR";

const LOOK: &[u8] = b"LOOK";

const LIST: &[u8] = b"LIST";

// A call on the board. A message is the line from a place on.
#[derive(Clone, Copy)]
pub enum Call {
    File { firm: u8, from: usize },
    Update { firm: u8, slot: usize, from: usize },
    Clear { firm: u8, slot: usize },
}

// What a line asks for.
#[derive(Clone, Copy)]
pub enum Ask {
    Calls(Call),
    Look { firm: u8, slot: usize },
    List(u8),
}

// The number of a word of digits: that of one digit; 10 for any other. None where it is no such word.
fn number_in(w: &[u8]) -> Option<u8>
    ensures { result ≡ number_in w.now }
{
    if !w.iter().all(|b| b.is_ascii_digit()) {
        return None;
    }
    match w {
        [] => None,
        [digit] => Some(*digit - b'0'),
        _ => Some(10),
    }
}

// What stands before the first space, and what stands behind it.
fn cut<'a>(s: &'a [u8]) -> (&'a [u8], Option<&'a [u8]>)
    ensures first { result.0.now ≡ before 32 s.now }
    ensures rest { option_copied result.1 ≡ rest_of s.now }
{
    match s.iter().position(|&b| b == b' ') {
        Some(e) => (&s[..e], Some(&s[e + 1..])),
        None => (s, None),
    }
}

// A call that names a slot, from its verb and what stands behind the slot.
fn place_as(firm: u8, slot: usize, long: usize, verb: &[u8], more: Option<&[u8]>) -> Option<Ask>
    ensures { result ≡ place_as firm slot long verb.now (option_copied more.entry) }
{
    match more {
        Some(message) if verb == UPDATE => Some(Ask::Calls(Call::Update {
            firm,
            slot,
            from: long.saturating_sub(message.len()),
        })),
        None if verb == CLEAR => Some(Ask::Calls(Call::Clear { firm, slot })),
        None if verb == LOOK => Some(Ask::Look { firm, slot }),
        _ => None,
    }
}

// What stands from the slot on, behind a verb.
fn slot_as(firm: u8, long: usize, verb: &[u8], s: &[u8]) -> Option<Ask>
    ensures { result ≡ slot_as firm long verb.now s.now }
{
    let (slot, more) = cut(s);
    place_as(firm, number_in(slot)? as usize, long, verb, more)
}

// A call, from its verb and what stands behind it.
fn verb_as(firm: u8, long: usize, verb: &[u8], more: Option<&[u8]>) -> Option<Ask>
    ensures { result ≡ verb_as firm long verb.now (option_copied more.entry) }
{
    match more {
        Some(message) if verb == FILE => Some(Ask::Calls(Call::File {
            firm,
            from: long.saturating_sub(message.len()),
        })),
        Some(place) => slot_as(firm, long, verb, place),
        None if verb == LIST => Some(Ask::List(firm)),
        None => None,
    }
}

// What a line asks for.
pub fn ask_in(line: &[u8]) -> Option<Ask>
    ensures { result ≡ asked line.now }
{
    let (number, more) = cut(line);
    let firm = number_in(number)?;
    let (verb, more) = cut(more?);
    verb_as(firm, line.len(), verb, more)
}

// The message of a call: its line from a place on.
pub fn message_of<'a>(line: &'a [u8], from: usize) -> &'a [u8]
    ensures { result.now ≡ drop from line.now }
{
    line.get(from..).unwrap_or(&[])
}
