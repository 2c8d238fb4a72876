// The line of a piece, as `listing` prints it: `OK`, type and spelling, or `NO`, number, field and place.
#![tactic(auto)]

ghost use Rattle.std.specs.Prelude.{◌≡◌, ◌++◌, ◌+◌, ◌≤◌, length, take, drop};
ghost use Rattle.text.specs.Lent.{front};
ghost use Rattle.lines.specs.Lines.{numbered, opening, accepted_line, refused_line, line_more, no_room, Tells};

use kinds::MessageType;
use message::Answer;
use outer::Refusal;

// What was told of a piece: the answer to it, and how many bytes its line takes.
#[derive(Clone, Copy)]
pub struct Told {
    pub answer: Answer,
    pub length: usize,
}

// A line takes at most so many bytes more than its piece.
const LINE_MORE: usize = 12;

// Writes a number in decimal, and the byte behind it, from `at` on.
fn put_number(n: u64, end: u8, at: usize, out: &mut [u8]) -> usize
    requires { at + length (numbered n end) ≤ length out.old }
    ensures { (result ≡ at + length (numbered n end))
        × (out.new ≡ take at out.old ++ front (numbered n end) (drop at out.old)) }
{
    let mut digits = [0u8; 20];
    let k = io::decimal(n, &mut digits);
    let e = at + text::put(&digits[..k], &mut out[at..]);
    out[e] = end;
    e + 1
}

// Writes the line of a refusal at the front of `out`.
fn put_refused(refusal: Refusal, out: &mut [u8]) -> usize
    requires { length (refused_line refusal.number refusal.field refusal.place) ≤ length out.old }
    ensures { (result ≡ length (refused_line refusal.number refusal.field refusal.place))
        × (out.new ≡ front (refused_line refusal.number refusal.field refusal.place) out.old) }
{
    let o = text::put(b"NO ", out);
    let p = put_number(refusal.number as u64, b' ', o, out);
    let q = put_number(refusal.field as u64, b' ', p, out);
    put_number(refusal.place as u64, b'\n', q, out)
}

// What stands before the spelling.
#[tactic(auto, unfolding(crate::specs::Lines::opening))]
fn opening_of(t: MessageType) -> [u8; 7]
    ensures { result ≡ opening t }
{
    let [a, b, c] = t.letters();
    [b'O', b'K', b' ', a, b, c, b' ']
}

// Writes what stands around a spelling of n bytes that is in its place already.
fn put_around(t: MessageType, n: usize, out: &mut [u8]) -> usize
    requires { n + 8 ≤ length out.old }
    ensures { (result ≡ n + 8) × (out.new ≡ front (accepted_line t (take n (drop 7 out.old))) out.old) }
{
    let o = text::put(&opening_of(t), out) + n;
    out[o] = b'\n';
    o + 1
}

// Reads a piece, the spelling straight into its place in the line, and writes the rest of the line.
fn put_line(piece: &[u8], out: &mut [u8]) -> Told
    requires { length piece.now + line_more ≤ length out.old }
    ensures { Tells piece.now out.old result out.new }
{
    let answer = message::read(piece, &mut out[7..]);
    let length = match answer {
        Ok((t, n)) => put_around(t, n, out),
        Err(refusal) => put_refused(refusal, out),
    };
    Told { answer, length }
}

fn no_room() -> Told
    ensures { result ≡ no_room }
{
    Told {
        answer: Err(Refusal::of(11)),
        length: 0,
    }
}

// Writes the line of a piece at the front of `out`. Where `out` has not `LINE_MORE` bytes more than the piece, nothing is
// written, and the answer is 11.
pub fn line(piece: &[u8], out: &mut [u8]) -> Told
    ensures { Tells piece.now out.old result out.new }
{
    if out.len() < LINE_MORE {
        return no_room();
    }
    if out.len() - LINE_MORE < piece.len() {
        return no_room();
    }
    put_line(piece, out)
}
