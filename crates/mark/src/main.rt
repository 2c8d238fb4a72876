// Marks places: each piece of standard input on the line that `listing` prints, and for a refusal two lines more. They are the line of the message,
// as sent, on which the place stands, and below it `^` under the byte of the place.
// The line is what stands from behind the last CR or LF before the place to the next CR or LF, or to the piece's end. Where the place is at a CR or LF or
// just behind the message, something is missing there, and the mark stands behind the line's last byte. Every byte has one column: a tab is shown as
// a space, any other byte that is not printable as `?`. A refusal with 11, whose place says nothing, does not come up: the room lent is always enough.
#![tactic(auto)]

ghost use Rattle.std.specs.Prelude.{◌≡◌, ◌+◌, ◌*◌, ◌≤◌, length};
ghost use Rattle.io.specs.Counts.{IsPrefixLen};
ghost use Rattle.text.specs.Lent.{front};
ghost use Rattle.mark.specs.Mark.{
  ends_line,
  line_start,
  line_end,
  shown_as,
  shown_all,
  blanks,
  shown_line,
  mark_line,
  drawn_at,
  drawn,
  marked_of,
  marked,
};

use say::Console;
use std::process::ExitCode;

#[tactic(auto, unfolding(crate::specs::Mark::ends_line))]
fn ends_line(b: u8) -> bool
    ensures { result ≡ ends_line b }
{
    matches!(b, b'\r' | b'\n')
}

// Where the line begins on which a place stands: behind the last CR or LF before it.
fn line_start(s: &[u8], place: usize) -> usize
    requires { place ≤ length s.now }
    ensures value { result ≡ line_start s.now place }
    ensures upper_bound { result ≤ place }
{
    let before = s[..place].iter().rev().position(|&b| ends_line(b));
    place - before.unwrap_or(place)
}

// Where that line ends.
fn line_end(s: &[u8], place: usize) -> usize
    requires { place ≤ length s.now }
    ensures value { result ≡ line_end s.now place }
    ensures lower_bound { (place ≤ result) × (result ≤ length s.now) }
{
    let behind = &s[place..];
    place
        + behind
            .iter()
            .position(|&b| ends_line(b))
            .unwrap_or(behind.len())
}

// A byte as it is shown.
#[tactic(auto, unfolding(crate::specs::Mark::shown_as))]
fn shown(b: u8) -> u8
    ensures { result ≡ shown_as b }
{
    match b {
        b'\t' => b' ',
        b' '..=b'~' => b,
        _ => b'?',
    }
}

// Writes the bytes of a line, as they are shown, at the front of `out`.
fn put_shown(line: &[u8], out: &mut [u8]) -> usize
    requires { length line.now ≤ length out.old }
    ensures { (result ≡ length (shown_all line.now)) × (out.new ≡ front (shown_all line.now) out.old) }
{
    for i in 0..line.len() {
        out[i] = shown(line[i]);
    }
    line.len()
}

// Writes so many blanks at the front of `out`.
fn put_blanks(count: usize, out: &mut [u8]) -> usize
    requires { count ≤ length out.old }
    ensures { (result ≡ length (blanks count)) × (out.new ≡ front (blanks count) out.old) }
{
    out[..count].fill(b' ');
    count
}

// The line as it is shown, and its LF.
fn put_line(line: &[u8], out: &mut [u8]) -> usize
    requires { length line.now + 1 ≤ length out.old }
    ensures { (result ≡ length (shown_line line.now)) × (out.new ≡ front (shown_line line.now) out.old) }
{
    let n = put_shown(line, out);
    n + text::put(b"\n", &mut out[n..])
}

// The mark below the byte that stands in a column, and the LF.
fn put_mark(column: usize, out: &mut [u8]) -> usize
    requires { column + 2 ≤ length out.old }
    ensures { (result ≡ length (mark_line column)) × (out.new ≡ front (mark_line column) out.old) }
{
    let n = put_blanks(column, out);
    n + text::put(b"^\n", &mut out[n..])
}

// Writes both lines at the front of `out`, for a place in s or just behind it.
fn draw_at(s: &[u8], place: usize, out: &mut [u8]) -> usize
    requires { (place ≤ length s.now) × (length s.now + length s.now + 3 ≤ length out.old) }
    ensures { (result ≡ length (drawn_at s.now place)) × (out.new ≡ front (drawn_at s.now place) out.old) }
{
    let start = line_start(s, place);
    let end = line_end(s, place);
    let n = put_line(&s[start..end], out);
    n + put_mark(place - start, &mut out[n..])
}

// Writes both lines at the front of `out`. No place beyond the end is given by reading; one would be marked at the end.
fn draw(s: &[u8], place: usize, out: &mut [u8]) -> usize
    requires { length s.now + length s.now + 3 ≤ length out.old }
    ensures { (result ≡ length (drawn s.now place)) × (out.new ≡ front (drawn s.now place) out.old) }
{
    if s.len() < place {
        return draw_at(s, s.len(), out);
    }
    draw_at(s, place, out)
}

// Writes the line of a piece at the front of `out`, and both others if it is refused. They take fourteen times its bytes at most.
fn put_marked(piece: &[u8], out: &mut [u8]) -> usize
    requires { (1 ≤ length piece.now) × (14 * length piece.now ≤ length out.old) }
    ensures value { (result ≡ length (marked_of piece.now)) × (out.new ≡ front (marked_of piece.now) out.old) }
    ensures upper_bound { result ≤ 14 * length piece.now }
{
    let told = lines::line(piece, out);
    let answer = told.answer;
    let n = told.length;
    match answer {
        Ok(_) => n,
        Err(refusal) => n + draw(piece, refusal.place, &mut out[n..]),
    }
}

// Writes the same of each piece of an input at the front of `out`.
fn put_marks(s: &[u8], out: &mut [u8]) -> usize
    requires { 14 * length s.now ≤ length out.old }
    ensures value { (result ≡ length (marked s.now)) × (out.new ≡ front (marked s.now) out.old) }
    ensures prefix_len { IsPrefixLen result out.new }
{
    let mut o = 0;
    let mut at = pieces::skip_white(s, 0);
    while at < s.len() {
        let e = pieces::piece_end(s, at);
        o += put_marked(&s[at..e], &mut out[o..]);
        at = pieces::skip_white(s, e);
    }
    o
}

// The same, with room for every input that is read.
fn mark(s: &[u8], out: &mut [u8; 917504]) -> usize
    requires { length s.now ≤ 65536 }
    ensures value { (result ≡ length (marked s.now)) × (out.new ≡ front (marked s.now) out.old) }
    ensures prefix_len { IsPrefixLen result out.new }
{
    put_marks(s, out)
}

fn main(rt: HostRuntime) -> ExitCode {
    let console = Console::new(&rt, rt.stderr());
    // A fixed room: nothing is allocated.
    let mut buffer = [0u8; 65537];
    let n = console.messages(&mut rt.stdin(), &mut buffer);
    // A fixed room: nothing is allocated.
    let mut out = [0u8; 917504];
    let k = mark(&buffer[..n], &mut out);
    console.print(&out[..k]);
    console.status()
}
