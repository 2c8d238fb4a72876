// Where a content of field 3, 7, 8 or 9 that does not fit goes wrong.
#![tactic(auto)]

ghost use Rattle.std.specs.Prelude.{◌≡◌, ◌≤◌, length};
ghost use Rattle.places.specs.Parts.{no_more};
ghost use Rattle.head_places.specs.Places.{Reaches, unit_then, to_digits, number_then, numbers_place, place3};
ghost use Rattle.head_places.specs.Places.{place7, place8, type_place, wake_place, aircraft_place, place9};

use text::Kind;

// The standard types.
pub const TYPES: [u8; 63] = *b"FPL CHG CNL DLA DEP ARR RQP RQS SPL ALR RCF CPL EST CDN ACP LAM";

// How far 1 to 4 letters go: Ok to where what follows them begins, or Err to where they are stuck.
fn past_unit(w: &[u8]) -> Result<usize, usize>
    ensures { Reaches unit_then w.now result }
{
    let n = places::front_of(Kind::Letter, w);
    if n < w.len() && head::is_unit(&w[..n]) {
        return Ok(n);
    }
    Err(places::run_place(4, Kind::Letter, &w[..n]))
}

// The same of a number, to its digits.
fn to_digits(w: &[u8]) -> Result<usize, usize>
    ensures { Reaches to_digits w.now result }
{
    let n = past_unit(w)?;
    if n == w.len() {
        return Err(n);
    }
    if w[n] != b'/' {
        return Err(n);
    }
    match past_unit(&w[n + 1..]) {
        Ok(m) => Ok(n + 1 + m),
        Err(m) => Err(n + 1 + m),
    }
}

// The place of a last number.
fn place_number(w: &[u8]) -> usize
    ensures { result ≡ number_then no_more w.now }
{
    match to_digits(w) {
        Ok(n) => n + places::run_place(3, Kind::Digit, &w[n..]),
        Err(n) => n,
    }
}

// The place of a number that another may follow.
fn place_numbers(w: &[u8]) -> usize
    ensures { result ≡ numbers_place w.now }
{
    let n = match to_digits(w) {
        Ok(n) => n,
        Err(n) => return n,
    };
    let digits = places::front_of(Kind::Digit, &w[n..]);
    if digits < 3 {
        return n + digits;
    }
    n + 3 + place_number(&w[n + 3..])
}

// The place of a content of field 3 that does not fit.
pub fn place_field3(s: &[u8]) -> usize
    ensures { result ≡ place3 s.now }
{
    if s.len() < 3 {
        return entries::any_of(&TYPES, s);
    }
    if !text::in_list(&s[..3], &TYPES) {
        return entries::any_of(&TYPES, s);
    }
    3 + place_numbers(&s[3..])
}

// The place of a content of field 7 that does not fit.

pub fn place_field7(s: &[u8]) -> usize
    ensures { result ≡ place7 s.now }
{
    places::cut_place(
        b'/',
        head::is_identification,
        |w| places::run_place(7, Kind::Sign, w),
        |w| places::along_shape(b"Aoooo", w),
        s,
    )
}

// The place of a content of field 8 that does not fit.
#[tactic(auto, unfolding(crate::specs::Places::place8))]
pub fn place_field8(s: &[u8]) -> usize
    ensures { result ≡ place8 s.now }
{
    match s {
        [a, b, ..] if shape::one_of(*a, b"IVYZ") && shape::one_of(*b, b"SNGMX") => 2,
        [a, ..] if shape::one_of(*a, b"IVYZ") => 1,
        _ => 0,
    }
}

fn place_type(w: &[u8]) -> usize
    ensures { result ≡ type_place w.now }
{
    match w {
        [a, rest @ ..] if alphabet::is_letter(*a) => 1 + places::run_place(3, Kind::Sign, rest),
        _ => 0,
    }
}

fn place_wake(w: &[u8]) -> usize
    ensures { result ≡ wake_place w.now }
{
    match w {
        [b'H' | b'M' | b'L', ..] => 1,
        _ => 0,
    }
}

#[tactic(auto, unfolding(crate::specs::Places::aircraft_place))]
fn place_aircraft(t: &[u8]) -> usize
    ensures { result ≡ aircraft_place t.now }
{
    places::cut_place(b'/', head::is_type, place_type, place_wake, t)
}

// The place of a content of field 9 that does not fit.
pub fn place_field9(s: &[u8]) -> usize
    ensures { result ≡ place9 s.now }
{
    let d = head::run(true, s);
    if d == s.len() {
        return places::two_digits(b'1', b'9', &s[..d]);
    }
    if !head::is_count(&s[..d]) {
        return places::two_digits(b'1', b'9', &s[..d]);
    }
    d + place_aircraft(&s[d..])
}
