// The desk: the first accepted FPL of standard input becomes the strip, and each later piece is offered to it. One line for each piece: `OK`,
// the state and the strip, or `NO`, number, field, place and the cause.
#![tactic(auto)]

ghost use Rattle.outer.specs.Outer.{most};
ghost use Rattle.std.specs.Prelude.{◌≡◌, ◌≤◌, None, Some, length};
ghost use Rattle.pieces.specs.Pieces.{pieces_of};
ghost use Rattle.desk.specs.Desk.{standing_in, cause_to, standing_after, after_all, InRoom, Offering};

use causes::Cause;
use outer::Refusal;
use racks::Flight;
use say::Console;
use state::{State, Strip};
use std::process::ExitCode;
use strip::Updated;

// Before there is a strip: an accepted FPL becomes it, and another type is not fit.
fn file(piece: &[u8], strip: &mut [u8]) -> Updated
    requires { length strip.old ≡ most }
    ensures { Offering None strip.old piece.now result strip.new }
{
    let (t, n) = message::read(piece, strip)?;
    if !message::is_plan(t) {
        return Err(Refusal::of(14));
    }
    let filed = Strip {
        state: State::Filed,
    };
    Ok((filed, n))
}

// Offers a piece to the strip in the first bytes of `strip`, and puts the new strip in its place.
fn offer(flight: Flight, piece: &[u8], strip: &mut [u8]) -> Updated
    requires { (length strip.old ≡ most) × (flight.length ≤ most) }
    ensures { Offering (Some flight) strip.old piece.now result strip.new }
{
    // A fixed room: nothing is allocated.
    let mut new = [0u8; outer::MOST_BYTES];
    let (next, k) = strip::update(&strip[..flight.length], flight.held, piece, &mut new)?;
    text::put(&new[..k], strip);
    Ok((next, k))
}

// The answer to a piece, with what the desk then holds in `strip`.
fn answer(desk: Option<Flight>, piece: &[u8], strip: &mut [u8]) -> Updated
    requires { (length strip.old ≡ most) × InRoom desk }
    ensures { Offering desk strip.old piece.now result strip.new }
{
    match desk {
        None => file(piece, strip),
        Some(flight) => offer(flight, piece, strip),
    }
}

// Why a piece is refused; before there is a strip, nothing more is shown.
fn cause(desk: Option<Flight>, piece: &[u8], strip: &[u8]) -> Cause
    requires { (length strip.now ≡ most) × InRoom desk }
    ensures { result ≡ cause_to (standing_in desk strip.now) piece.now }
{
    match desk {
        None => Cause::NothingMore,
        Some(flight) => causes::cause_of(&strip[..flight.length], flight.held, piece),
    }
}

// Takes a piece: prints its line and hands back what the desk then holds.
fn take<R: Print>(
    console: &Console<'_, R>,
    desk: Option<Flight>,
    piece: &[u8],
    strip: &mut [u8],
) -> Option<Flight>
    requires { (length strip.old ≡ most) × InRoom desk }
    ensures { (standing_in result strip.new ≡ standing_after (standing_in desk strip.old) piece.now) × InRoom result }
{
    match answer(desk, piece, strip) {
        Ok((held, length)) => {
            console.strip(held, &strip[..length]);
            Some(Flight { held, length })
        }
        Err(refusal) => {
            let why = cause(desk, piece, strip);
            say_cause::refusal(console, refusal.number, refusal.field, refusal.place, why);
            desk
        }
    }
}

// Takes each piece of an input in its turn.
fn run<R: Print>(console: &Console<'_, R>, s: &[u8], strip: &mut [u8]) -> Option<Flight>
    requires { length strip.old ≡ most }
    ensures { standing_in result strip.new ≡ after_all None (pieces_of s.now) }
{
    let mut desk = None;
    for piece in pieces::of(s) {
        desk = take(console, desk, piece, strip);
    }
    desk
}

fn main(rt: HostRuntime) -> ExitCode {
    let console = Console::new(&rt, rt.stderr());
    // A fixed room: nothing is allocated.
    let mut buffer = [0u8; 65537];
    let n = console.messages(&mut rt.stdin(), &mut buffer);
    // A fixed room: nothing is allocated.
    let mut strip = [0u8; outer::MOST_BYTES];
    run(&console, &buffer[..n], &mut strip);
    console.status()
}
