// Where a content of field 13, 16 or 17 that does not fit goes wrong.
#![tactic(auto)]

ghost use Rattle.std.specs.Prelude.{◌≡◌};
ghost use Rattle.aerodromes_places.specs.Places.{joined_place, place13, place16, plan, plan_place, place16plan};
ghost use Rattle.aerodromes_places.specs.Places.{landed, landed_place, place17};

use shape::{Clock, Elapsed};
use text::Kind;

// The place of four letters that are none.
pub fn place_field16(s: &[u8]) -> usize
    ensures { result ≡ place16 s.now }
{
    places::run_place(4, Kind::Letter, s)
}

// The place of four letters and a time, for a greatest hour.
fn place_joined(most: usize, s: &[u8]) -> usize
    ensures { result ≡ joined_place most s.now }
{
    places::time_behind(Kind::Letter, 4, most, s)
}

// The place of a content of field 13 that does not fit, also where the time may be absent.
pub fn place_field13(s: &[u8]) -> usize
    ensures { result ≡ place13 s.now }
{
    place_joined(shape::CLOCK_HOURS, s)
}

// How many words of field 16 in FPL and SPL there are with one more behind n, if it may stand there.
fn plan_after(n: usize, w: &[u8]) -> Option<usize>
    ensures { result ≡ plan.after n w.now }
{
    if n == 0 {
        if Elapsed::is_elapsed(aerodromes::at_elapsed(w)) {
            return Some(1);
        }
        return None;
    }
    if n <= 2 && aerodromes::four_letters(w) {
        return Some(n + 1);
    }
    None
}

// The place in that word.
fn plan_place(n: usize, w: &[u8]) -> usize
    ensures { result ≡ plan_place n w.now }
{
    if n == 0 {
        return place_joined(shape::ELAPSED_HOURS, w);
    }
    if n > 2 {
        return 0;
    }
    place_field16(w)
}

// The place of a content of field 16 in FPL and SPL that does not fit.
pub fn place_field16_plan(s: &[u8]) -> usize
    ensures { result ≡ place16plan s.now }
{
    places::words_place(0, plan_after, |n| n <= 2, plan_place, s)
}

// What is known behind some words of field 17.
#[derive(Clone, Copy)]
enum Arrival {
    // There are none.
    Start,
    // There is an aerodrome that is listed.
    Listed,
    // There is one that is not.
    Unlisted,
    // There are words behind it.
    Named,
}

// What is known behind one word more, if it may stand there.
fn landed_after(known: Arrival, w: &[u8]) -> Option<Arrival>
    ensures { result ≡ landed.after known w.now }
{
    match known {
        Arrival::Start => {
            if !Clock::is_time_of_day(aerodromes::at_clock(w)) {
                return None;
            }
            if text::same_bytes(aerodromes::aerodrome_of(w), b"ZZZZ") {
                return Some(Arrival::Unlisted);
            }
            Some(Arrival::Listed)
        }
        Arrival::Listed => None,
        Arrival::Unlisted | Arrival::Named => {
            if text::is_text_word(w) {
                return Some(Arrival::Named);
            }
            None
        }
    }
}

// Whether a further word may follow.
fn landed_goes(known: Arrival) -> bool
    ensures { result ≡ landed.goes known }
{
    !matches!(known, Arrival::Listed)
}

// The place in that word.
fn landed_place(known: Arrival, w: &[u8]) -> usize
    ensures { result ≡ landed_place known w.now }
{
    match known {
        Arrival::Start => place_joined(shape::CLOCK_HOURS, w),
        Arrival::Listed => 0,
        Arrival::Unlisted | Arrival::Named => places::front_of(Kind::Text, w),
    }
}

// The place of a content of field 17 that does not fit.
pub fn place_field17(s: &[u8]) -> usize
    ensures { result ≡ place17 s.now }
{
    places::words_place(Arrival::Start, landed_after, landed_goes, landed_place, s)
}
