// Answers questions, one to a line of standard input, which may be of any length. `R message` and `r ROOM message` read a message;
// `H STATE strip` holds a strip, unchecked; `U message` and `u ROOM message` offer a message to the strip held; `F NUMBER message` asks for
// the field in force; `W message` asks why the strip held is not updated by a message; `C FORM content` holds a content alone to a form. In a
// message, strip or content `\` and two hexadecimal digits stand for a byte. A line that asks nothing is answered `BAD LINE`.
#![tactic(auto)]

ghost use Rattle.std.specs.Prelude.{◌≡◌, ◌+◌, ◌≤◌, ◌<◌, IfSome, length};

use aerodromes::Aerodrome;
use asked::Place;
use kinds::Form;
use say::Console;
use shape::Clock;
use state::{State, Strip};
use std::process::ExitCode;
use text::Kind;

// The most bytes of a line that is answered, the greatest room that can be lent, and the greatest field number that can be asked for.
const MOST_LINE: usize = 8192;

const MOST_ROOM: usize = 1800;

const MOST_ASKED: usize = 255;

// Room for a line, for the strip held, and for what is written.
type Line = [u8; 8192];

type Out = [u8; 1800];

fn say_bad<R: Print>(console: &Console<'_, R>) {
    console.print(b"BAD LINE\n");
}

// BYTES WRITTEN AS TEXT

// The value of a hexadecimal digit, in small letters.
fn hex_digit(b: u8) -> Option<u8>
    ensures { IfSome result (λ digit. digit ≤ 15) }
{
    match b {
        b'0'..=b'9' => Some(b - b'0'),
        b'a'..=b'f' => Some(b - b'a' + 10),
        _ => None,
    }
}

// The byte that is written from i on in a line of n bytes, and how many bytes it takes there.
fn byte_at(line: &Line, i: usize, n: usize) -> Option<(u8, usize)>
    requires { (i < n) × (n ≤ 8192) }
    ensures { IfSome result (λ found. 1 ≤ found.1) × IfSome result (λ found. found.1 ≤ 3) }
{
    let b = line[i];
    if !matches!(b, b' '..=b'~') {
        return None;
    }
    if b != b'\\' {
        return Some((b, 1));
    }
    if n - i < 3 {
        return None;
    }
    let high = hex_digit(line[i + 1])?;
    let low = hex_digit(line[i + 2])?;
    Some((16 * high + low, 3))
}

// Puts the bytes that the text from a place on stands for in its place, in a line of n bytes, and gives where they end, if it stands for any.
fn decode(line: &mut Line, from: usize, n: usize) -> Option<usize>
    requires { (from ≤ 10000) × (n ≤ 8192) }
    ensures { IfSome result (λ e. from ≤ e) }
{
    let mut i = from;
    let mut e = from;
    // A loop: the bytes are put into the line that is read, and no iterator reads a line and writes it.
    while i < n {
        let (b, long) = byte_at(line, i, n)?;
        line[e] = b;
        e += 1;
        i += long;
    }
    Some(e)
}

// STATES AS WORDS

// The minute that the four digits from a place on say; it may be beyond the day.
fn minute_at(w: &[u8], at: usize) -> Clock
    requires { at + 3 < length w.now }
{
    Clock((shape::four(w, at) % 10000) as u16)
}

// As `D0600`.
fn departed(w: &[u8]) -> Option<State>
    requires { length w.now ≡ 5 }
{
    if !shape::fits(b"D0000", w) {
        return None;
    }
    Some(State::Departed(minute_at(w, 1)))
}

// When a flight departed that arrived, or that it is not known.
fn departure(w: &[u8]) -> Option<Clock>
    requires { length w.now ≡ 15 }
{
    if w[1] == b'-' {
        return None;
    }
    Some(minute_at(w, 1))
}

// As `A0600/EDDF/0700`, or `A----/EDDF/0700` where the departure is not known.
fn arrived(w: &[u8]) -> Option<State>
    requires { length w.now ≡ 15 }
{
    if !shape::any(b"A0000/ A----/", &w[..6]) {
        return None;
    }
    if !shape::fits(b"/0000", &w[10..]) {
        return None;
    }
    Some(State::Arrived(departure(w), Aerodrome::of(&w[6..]), minute_at(w, 11)))
}

fn state_of(w: &[u8]) -> Option<State> {
    match w.len() {
        1 => grounded(w[0]),
        5 => departed(w),
        15 => arrived(w),
        _ => None,
    }
}

fn grounded(b: u8) -> Option<State> {
    match b {
        b'F' => Some(State::Filed),
        b'C' => Some(State::Cancelled),
        _ => None,
    }
}

// ANSWERS

// What is kept from line to line: how many bytes of a line are gathered, unless there are too many; how many bytes the strip held has; its state.
#[derive(Clone, Copy)]
struct Run {
    gathered: Option<usize>,
    length: usize,
    held: Strip,
}

// What an output holds before a call: no byte of the alphabet.
const BEFORE: u8 = 255;

// The n bytes that are written. No answer has more than the room, and if one had, all would be shown.
fn spelling(out: &Out, n: usize) -> &[u8] {
    &out[..n.min(MOST_ROOM)]
}

// Says so if a byte from n on is not as it was.
fn check_kept<R: Print>(console: &Console<'_, R>, out: &Out, n: usize) {
    if out[n.min(MOST_ROOM)..].iter().any(|&b| b != BEFORE) {
        console.print(b"CHANGED\n");
    }
}

fn read<R: Print>(console: &Console<'_, R>, msg: &[u8], room: Option<usize>) {
    let room = match room {
        Some(n) if n <= MOST_ROOM => n,
        _ => {
            say_bad(console);
            return;
        }
    };
    let mut out = [BEFORE; 1800];
    match message::read(msg, &mut out[0..room]) {
        Ok((t, n)) => {
            console.accepted(t, spelling(&out, n));
            check_kept(console, &out, n);
        }
        Err(refusal) => {
            console.refusal(refusal.number, refusal.field, refusal.place);
            check_kept(console, &out, 0);
        }
    }
}

// A part of a strip or of a CHG: where it stands, and what it is.
fn say_part<R: Print>(
    console: &Console<'_, R>,
    place: &[u8],
    from: usize,
    to: usize,
    content: &[u8],
) {
    console.print(place);
    console.decimal(from as u64);
    console.print(b" ");
    console.decimal(to as u64);
    console.spelled(content);
}

// Asks for the field in force of a strip and a CHG: where it stands, and its content.
fn show<'a, R: Print>(
    console: &Console<'_, R>,
    chg: &'a [u8],
    number: Option<usize>,
    held: Strip,
    strip: &'a [u8],
) {
    let number = match number {
        Some(n) if n <= MOST_ASKED => n as u8,
        _ => {
            say_bad(console);
            return;
        }
    };
    let content = asked::in_force(strip, held, chg, number);
    match asked::ask(strip, held, chg, number) {
        Ok(Place::InStrip { from, to }) => say_part(console, b"IN STRIP ", from, to, content),
        Ok(Place::InChange { from, to }) => say_part(console, b"IN CHG ", from, to, content),
        Err(refusal) => console.refusal(refusal.number, refusal.field, refusal.place),
    }
}

// The form that a word names.
fn form_of(word: &[u8]) -> Option<Form> {
    match word {
        b"3" => Some(Form::Field3),
        b"7" => Some(Form::Field7),
        b"8" => Some(Form::Field8),
        b"9" => Some(Form::Field9),
        b"10" => Some(Form::Field10),
        b"13" => Some(Form::Field13),
        b"13open" => Some(Form::Field13Open),
        b"15" => Some(Form::Field15),
        b"16" => Some(Form::Field16),
        b"16plan" => Some(Form::Field16Plan),
        b"17" => Some(Form::Field17),
        b"18" => Some(Form::Field18),
        b"19" => Some(Form::Field19),
        _ => None,
    }
}

// Holds a content to the form that a word names.
fn fit<R: Print>(console: &Console<'_, R>, word: &[u8], content: &[u8]) {
    let Some(form) = form_of(word) else {
        say_bad(console);
        return;
    };
    if forms::fits_form(form, content) {
        console.print(b"FITS\n");
    } else {
        console.print(b"NO\n");
    }
}

// The n bytes of the strip held. It has no more than a line, so none is left out.
fn strip_held(plan: &Line, n: usize) -> &[u8] {
    &plan[..n.min(MOST_LINE)]
}

// What leaves the strip as it is.
fn tell<'a, R: Print>(
    console: &Console<'_, R>,
    letter: u8,
    word: &[u8],
    msg: &'a [u8],
    held: Strip,
    strip: &'a [u8],
) {
    match letter {
        b'R' => read(console, msg, Some(MOST_ROOM)),
        b'r' => read(console, msg, number_of(word)),
        b'F' => show(console, msg, number_of(word), held, strip),
        b'W' => say_cause::line(console, causes::cause_of(strip, held, msg)),
        b'C' => fit(console, word, msg),
        _ => say_bad(console),
    }
}

// Puts a strip into `plan`, and gives how many bytes it has. There is room for every line's; one with more would not be held.
fn keep(strip: &[u8], plan: &mut Line) -> usize {
    if MOST_LINE < strip.len() {
        return 0;
    }
    text::put(strip, plan)
}

// Holds a strip, in `plan`, with the state that a word says.
fn hold<R: Print>(
    console: &Console<'_, R>,
    word: &[u8],
    strip: &[u8],
    run: Run,
    plan: &mut Line,
) -> Run {
    match state_of(word) {
        Some(state) => {
            console.print(b"HELD\n");
            Run {
                gathered: Some(0),
                length: keep(strip, plan),
                held: Strip { state },
            }
        }
        None => {
            say_bad(console);
            run
        }
    }
}

// Offers a message to the strip held.
fn offer<R: Print>(
    console: &Console<'_, R>,
    msg: &[u8],
    room: Option<usize>,
    run: Run,
    plan: &mut Line,
) -> Run {
    let room = match room {
        Some(n) if n <= MOST_ROOM => n,
        _ => {
            say_bad(console);
            return run;
        }
    };
    let mut out = [BEFORE; 1800];
    match strip::update(
        strip_held(plan, run.length),
        run.held,
        msg,
        &mut out[0..room],
    ) {
        Ok((next, n)) => {
            let new = spelling(&out, n);
            console.strip(next, new);
            check_kept(console, &out, n);
            Run {
                gathered: Some(0),
                length: keep(new, plan),
                held: next,
            }
        }
        Err(refusal) => {
            console.refusal(refusal.number, refusal.field, refusal.place);
            check_kept(console, &out, 0);
            run
        }
    }
}

// WHAT A LINE ASKS

// The number that a word of one to four digits says.
fn number_of(w: &[u8]) -> Option<usize> {
    if !text::all_of(Kind::Digit, w) {
        return None;
    }
    match w.len() {
        1 => Some(shape::one(w[0])),
        2 => Some(shape::two(w, 0)),
        3 => Some(shape::three(w, 0)),
        4 => Some(shape::four(w, 0)),
        _ => None,
    }
}

// Answers what a line asks of the bytes that it has from a place up to another; a word may stand before them.
fn ask<R: Print>(
    console: &Console<'_, R>,
    line: &Line,
    from: usize,
    e: usize,
    run: Run,
    plan: &mut Line,
) -> Run
    requires { (from ≤ e) × (e ≤ 8192) }
{
    let whole = &line[..];
    let w = text::find(whole, 2, b' ');
    let word = &whole[2..w];
    let msg = &whole[from..e];
    let letter = line[0];
    match letter {
        b'U' => offer(console, msg, Some(MOST_ROOM), run, plan),
        b'u' => offer(console, msg, number_of(word), run, plan),
        b'H' => hold(console, word, msg, run, plan),
        _ => {
            tell(
                console,
                letter,
                word,
                msg,
                run.held,
                strip_held(plan, run.length),
            );
            run
        }
    }
}

// Where the text begins of which a line asks, if it is so long; no other line asks of one. A letter and a space stand before it, and but for
// `R`, `U` and `W` a word and a space.
fn text_from(line: &Line) -> Option<usize>
    ensures { IfSome result (λ from. from ≤ 10000) }
{
    if line[1] != b' ' {
        return None;
    }
    if matches!(line[0], b'R' | b'U' | b'W') {
        return Some(2);
    }
    Some(text::find(line, 2, b' ') + 1)
}

// Answers a line of n bytes, or one that is too long.
fn answer<R: Print>(
    console: &Console<'_, R>,
    n: Option<usize>,
    line: &mut Line,
    run: Run,
    plan: &mut Line,
) -> Run {
    let n = match n {
        Some(n) if n <= MOST_LINE => n,
        _ => {
            console.print(b"TOO LONG\n");
            return run;
        }
    };
    let Some(from) = text_from(line) else {
        say_bad(console);
        return run;
    };
    match decode(line, from, n) {
        Some(e) if e <= n => ask(console, line, from, e, run, plan),
        _ => {
            say_bad(console);
            run
        }
    }
}

// THE LINES OF STANDARD INPUT: they are gathered from blocks, and each is answered once it ends

// Puts a byte behind the n bytes that are gathered of a line, and gives how many there are then, unless there are too many.
fn gather(b: u8, n: usize, line: &mut Line) -> Option<usize> {
    if MOST_LINE <= n {
        return None;
    }
    line[n] = b;
    Some(n + 1)
}

// Answers the lines that end in a block, and gathers what is left of it.
fn each_byte<R: Print>(
    console: &Console<'_, R>,
    block: &[u8],
    line: &mut Line,
    run: Run,
    plan: &mut Line,
) -> Run {
    let mut kept = run;
    for &b in block {
        if b == b'\n' {
            kept = answer(console, kept.gathered, line, kept, plan);
            kept.gathered = Some(0);
        } else if let Some(n) = kept.gathered {
            kept.gathered = gather(b, n, line);
        }
    }
    kept
}

// Reads blocks up to one that is not full. A loop has to end, so the blocks are counted, up to a number that no run reaches. The last line may have no
// line feed behind it.
fn main(rt: HostRuntime) -> ExitCode {
    let console = Console::new(&rt, rt.stderr());
    // A fixed room: nothing is allocated.
    let mut block = [0u8; 65536];
    let mut line = [0u8; 8192];
    // A fixed room: nothing is allocated.
    let mut plan = [0u8; 8192];
    let mut run = Run {
        gathered: Some(0),
        length: 0,
        held: Strip {
            state: State::Filed,
        },
    };
    for _ in 0..u64::MAX {
        let n = console.input(&mut rt.stdin(), &mut block);
        run = each_byte(&console, &block[..n], &mut line, run, &mut plan);
        if n < 65536 {
            break;
        }
    }
    if run.gathered != Some(0) {
        answer(&console, run.gathered, &mut line, run, &mut plan);
    }
    console.status()
}
