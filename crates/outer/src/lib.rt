// Numbers 1 to 3 of a message as sent: its length, its parentheses, its alphabet.
#![tactic(auto)]

ghost use Rattle.std.specs.Prelude.{◌≡◌, is_ok};
ghost use Rattle.outer.specs.Refusal.{refusal};
ghost use Rattle.outer.specs.Outer.{parens, letters_from, outer};

// A refusal of document 01's table: its number, the number of the field that it names, 0 for none, and its place in the message.
// The number stays a number: document 01 numbers the refusals, and the client, the C interface and every theorem speak of the number.
#[derive(Clone, Copy, PartialEq, Eq)]
pub struct Refusal {
    pub number: u8,
    pub field: u8,
    pub place: usize,
}

impl Refusal {
    // A refusal that names no field, at the start.
    pub fn of(number: u8) -> Refusal
        ensures { result ≡ refusal number 0 0 }
    {
        Refusal {
            number,
            field: 0,
            place: 0,
        }
    }

    // A refusal that names no field.
    pub fn at(number: u8, place: usize) -> Refusal
        ensures { result ≡ refusal number 0 place }
    {
        Refusal {
            number,
            field: 0,
            place,
        }
    }
}

// The most bytes that a message may have.
pub const MOST_BYTES: usize = 1800;

// Number 2: the first byte is `(`, and the first parenthesis behind it is a `)` that stands last.
fn check_parens(msg: &[u8]) -> Result<(), Refusal>
    ensures { result ≡ parens msg.now }
{
    if msg.len() == 0 || msg[0] != b'(' {
        return Err(Refusal::of(2));
    }
    let rest = &msg[1..];
    let n = rest
        .iter()
        .position(|&b| b == b'(' || b == b')')
        .unwrap_or(rest.len());
    if n + 1 == rest.len() && rest[n] == b')' {
        return Ok(());
    }
    // A `)` that is not last.
    if n < rest.len() && rest[n] == b')' {
        return Err(Refusal::at(2, n + 1));
    }
    // A `(`, or no parenthesis up to the end.
    Err(Refusal::at(2, n + 1))
}

// Number 3.
fn check_letters(msg: &[u8]) -> Result<(), Refusal>
    ensures { result ≡ letters_from 0 msg.now }
{
    let n = alphabet::known_bytes(msg);
    if n < msg.len() {
        return Err(Refusal::at(3, n));
    }
    Ok(())
}

// Whether a message passes, by one walk over what stands between its first byte and its last.
fn passes(msg: &[u8]) -> bool
    ensures { result ≡ is_ok (outer msg.now) }
{
    if msg.len() > MOST_BYTES {
        return false;
    }
    if msg.len() < 2 {
        return false;
    }
    if msg[0] != b'(' {
        return false;
    }
    let last = msg.len() - 1;
    if msg[last] != b')' {
        return false;
    }
    let between = &msg[1..last];
    let n = alphabet::inner_bytes(between);
    n == between.len()
}

// Numbers 1 to 3, in that order. A message that passes is walked once; for any other the number and the place are looked for.
pub fn check_outer(msg: &[u8]) -> Result<(), Refusal>
    ensures { result ≡ outer msg.now }
{
    if passes(msg) {
        return Ok(());
    }
    if msg.len() > MOST_BYTES {
        return Err(Refusal::at(1, MOST_BYTES));
    }
    check_parens(msg)?;
    check_letters(msg)
}
