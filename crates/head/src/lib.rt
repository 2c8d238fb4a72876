// Fields 3, 7, 8 and 9: type and number, identification, rules, aircraft.
#![tactic(auto)]

ghost use Rattle.std.specs.Prelude.{◌≡◌, ◌≤◌, ◌&&◌, length, leb};
ghost use Rattle.alphabet.specs.Alphabet.{digit};
ghost use Rattle.text.specs.Words.{before, all};
ghost use Rattle.text.specs.Kinds.{of_kind};
ghost use Rattle.head.specs.Runs.{lead};
ghost use Rattle.head.specs.Field3.{unit, receiver, serial, number_fits, numbers_fit, fits3};
ghost use Rattle.head.specs.Field7.{identification_fits, fits7};
ghost use Rattle.head.specs.Field8.{rules_fit, fits8};
ghost use Rattle.head.specs.Field9.{count_fits, type_fits, is_wake, aircraft, aircraft_fits, fits9};

use text::Kind;

// How many bytes at the front are digits, or are none.
pub fn run(digits: bool, s: &[u8]) -> usize
    ensures { (result ≡ lead digits s.now) × (result ≤ length s.now) }
{
    s.iter()
        .position(|&b| alphabet::is_digit(b) != digits)
        .unwrap_or(s.len())
}

// 1 to 4 letters.
pub fn is_unit(w: &[u8]) -> bool
    ensures { result ≡ unit w.now }
{
    text::some_of(Kind::Letter, 1, 4, w)
}

// A message's number: a unit, the oblique, a unit and 3 digits.
fn is_number(w: &[u8]) -> bool
    ensures { result ≡ number_fits w.now }
{
    let o = text::find(w, 0, b'/');
    if o == w.len() {
        return false;
    }
    if !is_unit(&w[..o]) {
        return false;
    }
    is_receiver(&w[o + 1..])
}

// A unit and 3 digits.
fn is_receiver(w: &[u8]) -> bool
    ensures { result ≡ (unit (receiver w.now) && all digit (serial w.now)) }
{
    if w.len() < 3 {
        return false;
    }
    let k = w.len() - 3;
    if !is_unit(&w[..k]) {
        return false;
    }
    text::all_of(Kind::Digit, &w[k..])
}

// None, one or two numbers, joined.
fn are_numbers(w: &[u8]) -> bool
    ensures { result ≡ numbers_fit w.now }
{
    if w.len() == 0 {
        return true;
    }
    let e = run(false, w);
    if w.len() - e <= 3 {
        return is_number(w);
    }
    let e = e + 3;
    if !is_number(&w[..e]) {
        return false;
    }
    is_number(&w[e..])
}

// Whether a content fits field 3's form.
pub fn fits_field3(s: &[u8]) -> bool
    ensures { result ≡ fits3 s.now }
{
    if s.len() < 3 {
        return false;
    }
    if !text::in_cells(
        &s[..3],
        4,
        b"FPL CHG CNL DLA DEP ARR RQP RQS SPL ALR RCF CPL EST CDN ACP LAM ",
    ) {
        return false;
    }
    are_numbers(&s[3..])
}

// 2 to 7 signs.
pub fn is_identification(w: &[u8]) -> bool
    ensures { result ≡ identification_fits w.now }
{
    text::some_of(Kind::Sign, 2, 7, w)
}

// Whether a content fits field 7's form.
pub fn fits_field7(s: &[u8]) -> bool
    ensures { result ≡ fits7 s.now }
{
    let o = text::find(s, 0, b'/');
    if o == s.len() {
        return is_identification(s);
    }
    if !is_identification(&s[..o]) {
        return false;
    }
    shape::fits(b"Aoooo", &s[o + 1..])
}

// The identification in a content of field 7.
pub fn identification<'a>(s: &'a [u8]) -> &'a [u8]
    ensures { result.now ≡ before 47 s.now }
{
    let o = text::find(s, 0, b'/');
    &s[..o]
}

// The rules: one of four letters.
fn is_rules(b: u8) -> bool
    ensures { result ≡ rules_fit b }
{
    shape::one_of(b, b"IVYZ")
}

// Whether a content fits field 8's form.
pub fn fits_field8(s: &[u8]) -> bool
    ensures { result ≡ fits8 s.now }
{
    match s {
        [rules] => is_rules(*rules),
        [rules, flight] => is_rules(*rules) && shape::one_of(*flight, b"SNGMX"),
        _ => false,
    }
}

// Of digits: none, or 2 to 99 without leading zero.
pub fn is_count(w: &[u8]) -> bool
    ensures { result ≡ count_fits w.now }
{
    match w {
        [] => true,
        [ones] => b'2' <= *ones,
        [tens, _] => b'1' <= *tens,
        _ => false,
    }
}

// 2 to 4 signs, the first a letter.
pub fn is_type(w: &[u8]) -> bool
    ensures { result ≡ type_fits w.now }
{
    match w.first() {
        Some(b) => alphabet::is_letter(*b) && text::some_of(Kind::Sign, 2, 4, w),
        None => false,
    }
}

fn is_wake(w: &[u8]) -> bool
    ensures { result ≡ is_wake w.now }
{
    match w {
        [b] => shape::one_of(*b, b"HML"),
        _ => false,
    }
}

// A type of aircraft, the oblique and the wake category.
fn is_aircraft(t: &[u8]) -> bool
    ensures { result ≡ aircraft_fits t.now }
{
    let o = text::find(t, 0, b'/');
    if o == t.len() {
        return false;
    }
    if !is_type(&t[..o]) {
        return false;
    }
    is_wake(&t[o + 1..])
}

// Whether a content fits field 9's form.
#[tactic(auto, unfolding(crate::specs::Field9::fits9))]
pub fn fits_field9(s: &[u8]) -> bool
    ensures { result ≡ fits9 s.now }
{
    let d = run(true, s);
    if !is_count(&s[..d]) {
        return false;
    }
    is_aircraft(&s[d..])
}

// The type of aircraft in a content of field 9.
pub fn aircraft_type<'a>(s: &'a [u8]) -> &'a [u8]
    ensures { result.now ≡ before 47 (aircraft s.now) }
{
    let d = run(true, s);
    let o = text::find(s, d, b'/');
    &s[d..o]
}
