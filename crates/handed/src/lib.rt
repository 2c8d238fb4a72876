// A strip's state as eight plain numbers, as callers in other languages hand it in and get it back. include/beechdoublet.h names each number.
#![tactic(auto)]

ghost use Rattle.std.specs.Prelude.{◌≡◌};
ghost use Rattle.handed.specs.States.{arrived_numbers, state_numbers, kept, departure_of, state_of, handed_as};

use aerodromes::Aerodrome;
use shape::Clock;
use state::{State, Strip};

// The numbers of an arrived flight.
fn arrived_numbers(d: Option<Clock>, a: Aerodrome, t: Clock) -> [u64; 8]
    ensures { result ≡ arrived_numbers d a t }
{
    let (known, off) = match d {
        Some(off) => (1, off.0 as u64),
        None => (0, 0),
    };
    [
        2, known, off, a.0 as u64, a.1 as u64, a.2 as u64, a.3 as u64, t.0 as u64,
    ]
}

// The numbers of a state.
pub fn state_numbers(s: State) -> [u64; 8]
    ensures { result ≡ state_numbers s }
{
    match s {
        State::Filed => [0, 0, 0, 0, 0, 0, 0, 0],
        State::Departed(t) => [1, 1, t.0 as u64, 0, 0, 0, 0, 0],
        State::Arrived(d, a, t) => arrived_numbers(d, a, t),
        State::Cancelled => [3, 0, 0, 0, 0, 0, 0, 0],
    }
}

// A number of at most 65,535; any other becomes 0.
fn minute_of(n: u64) -> u16
    ensures { result ≡ kept 65536 n }
{
    u16::try_from(n).unwrap_or(0)
}

// A number of at most 255; any other becomes 0.
pub fn byte_of(n: u64) -> u8
    ensures { result ≡ kept 256 n }
{
    u8::try_from(n).unwrap_or(0)
}

fn departure_of(known: u64, minute: u64) -> Option<Clock>
    ensures { result ≡ departure_of known minute }
{
    if known == 0 {
        return None;
    }
    Some(Clock(minute_of(minute)))
}

// The state that numbers mean, if they are those of a state.
pub fn state_of(n: &[u64; 8]) -> State
    ensures { result ≡ state_of n.now }
{
    match n[0] {
        1 => State::Departed(Clock(minute_of(n[2]))),
        2 => State::Arrived(
            departure_of(n[1], n[2]),
            Aerodrome(byte_of(n[3]), byte_of(n[4]), byte_of(n[5]), byte_of(n[6])),
            Clock(minute_of(n[7])),
        ),
        3 => State::Cancelled,
        _ => State::Filed,
    }
}

// The strip whose state a caller hands in; numbers that are not those of a state are none.
pub fn hand_in(n: &[u64; 8]) -> Option<Strip>
    ensures { result ≡ handed_as n.now }
{
    let state = state_of(n);
    if state_numbers(state) != *n {
        return None;
    }
    Some(Strip { state })
}
