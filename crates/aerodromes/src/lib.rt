// Fields 13, 16 and 17: aerodromes and the times joined to them.
#![tactic(auto)]

ghost use Rattle.std.specs.Prelude.{◌≡◌, ℕ, take, drop, get_or};
ghost use Rattle.std.specs.Bool.{then_some};
ghost use Rattle.std.specs.Option.{option_copied};
ghost use Rattle.text.specs.Words.{all, split, text_word};
ghost use Rattle.aerodromes.specs.Aerodromes.{four_letters, at_clock, at_elapsed, aerodrome_of};
ghost use Rattle.aerodromes.specs.Field13.{fits13, fits13open};
ghost use Rattle.aerodromes.specs.Field16.{fits16, fits16plan, fits16entry, few_aerodromes, most_alternates};
ghost use Rattle.aerodromes.specs.Field17.{fits17};
ghost use Rattle.aerodromes.specs.Asked.{clock_at, elapsed_at, has_alternate, aerodrome_in, is_letters};

use shape::{Clock, Elapsed};

// Whether w is four letters.
pub fn four_letters(w: &[u8]) -> bool
    ensures { result ≡ four_letters w.now }
{
    text::some_of(text::Kind::Letter, 4, 4, w)
}

// What is joined to an aerodrome: the bytes behind the four letters that w begins with, if it does.
fn joined_to<'a>(w: &'a [u8]) -> Option<&'a [u8]>
    ensures { option_copied result ≡ then_some (four_letters (take 4 w.now)) (drop 4 w.now) }
{
    let (aerodrome, joined) = w.split_at_checked(4)?;
    if four_letters(aerodrome) {
        Some(joined)
    } else {
        None
    }
}

// The time of day joined to an aerodrome, if w is the two.
pub fn at_clock(w: &[u8]) -> Option<Clock>
    ensures { result ≡ at_clock w.now }
{
    Clock::read(joined_to(w)?)
}

// The elapsed time joined to an aerodrome, if w is the two.
pub fn at_elapsed(w: &[u8]) -> Option<Elapsed>
    ensures { result ≡ at_elapsed w.now }
{
    Elapsed::read(joined_to(w)?)
}

pub fn fits_field13(s: &[u8]) -> bool
    ensures { result ≡ fits13 s.now }
{
    Clock::is_time_of_day(at_clock(s))
}

// Field 13 in RQP, where the time may be absent.
pub fn fits_field13_open(s: &[u8]) -> bool
    ensures { result ≡ fits13open s.now }
{
    if four_letters(s) {
        return true;
    }
    Clock::is_time_of_day(at_clock(s))
}

pub fn fits_field16(s: &[u8]) -> bool
    ensures { result ≡ fits16 s.now }
{
    four_letters(s)
}

const MOST_ALTERNATES: usize = 2;

// Whether the words of a list, which have one space between them, are alternates: aerodromes, and not too many. Each takes four bytes, and five with a
// space behind it: a longer list is refused unseen.
fn alternates(list: &[u8]) -> bool
    ensures { result ≡ few_aerodromes most_alternates (split 32 list.now) }
{
    if 5 * MOST_ALTERNATES < list.len() {
        return false;
    }
    if MOST_ALTERNATES < list.split(|&b| b == b' ').count() {
        return false;
    }
    list.split(|&b| b == b' ').all(|w| four_letters(w))
}

// Field 16 in FPL and SPL, with an elapsed time and alternates.
pub fn fits_field16_plan(s: &[u8]) -> bool
    ensures { result ≡ fits16plan s.now }
{
    let e = text::find(s, 0, b' ');
    if !Elapsed::is_elapsed(at_elapsed(&s[..e])) {
        return false;
    }
    if e == s.len() {
        return true;
    }
    alternates(&s[e + 1..])
}

// Field 16 as an entry of a CHG: four letters alone, or as in FPL.
pub fn fits_field16_entry(s: &[u8]) -> bool
    ensures { result ≡ fits16entry s.now }
{
    if four_letters(s) {
        return true;
    }
    fits_field16_plan(s)
}

// Whether the words of a list, which have one space between them, are text words.
fn text_words(list: &[u8]) -> bool
    ensures { result ≡ all text_word (split 32 list.now) }
{
    list.split(|&b| b == b' ').all(|w| text::is_text_word(w))
}

// For an aerodrome that has no four letters.
const UNLISTED: &[u8] = b"ZZZZ";

pub fn fits_field17(s: &[u8]) -> bool
    ensures { result ≡ fits17 s.now }
{
    let e = text::find(s, 0, b' ');
    if !Clock::is_time_of_day(at_clock(&s[..e])) {
        return false;
    }
    if aerodrome_of(&s[..e]) == UNLISTED {
        if e == s.len() {
            return false;
        }
        return text_words(&s[e + 1..]);
    }
    e == s.len()
}

// The first four bytes of a content, where its aerodrome stands; the whole where it is shorter.
pub fn aerodrome_of<'a>(s: &'a [u8]) -> &'a [u8]
    ensures { result.now ≡ aerodrome_of s.now }
{
    if s.len() < 4 {
        return s;
    }
    &s[..4]
}

// The time of day behind the first four bytes, if one stands there.
pub fn clock(s: &[u8]) -> Option<Clock>
    ensures { result ≡ clock_at s.now }
{
    Clock::read(s.get(4..8)?)
}

// The elapsed time behind the first four bytes, if one stands there.
pub fn elapsed(s: &[u8]) -> Option<Elapsed>
    ensures { result ≡ elapsed_at s.now }
{
    Elapsed::read(s.get(4..8)?)
}

// Whether an aerodrome of that name is one of the alternates.
pub fn has_alternate(s: &[u8], name: &[u8]) -> bool
    ensures { result ≡ has_alternate s.now name.now }
{
    let e = text::find(s, 0, b' ');
    if e == s.len() {
        return false;
    }
    text::in_list(name, &s[e + 1..])
}

// An aerodrome by its four bytes.
#[derive(Clone, Copy)]
pub struct Aerodrome(pub u8, pub u8, pub u8, pub u8);

// The byte at i, or 0 where there is none, as `aerodrome_in` has it.
fn byte_at(s: &[u8], i: usize) -> u8
    ensures { result ≡ get_or s.now i 0 }
{
    s.get(i).copied().unwrap_or(0)
}

impl Aerodrome {
    // The first four bytes of a content; 0 where one is missing.
    pub fn of(s: &[u8]) -> Aerodrome
        ensures { result ≡ aerodrome_in s.now }
    {
        Aerodrome(byte_at(s, 0), byte_at(s, 1), byte_at(s, 2), byte_at(s, 3))
    }

    // Whether all four are letters.
    pub fn is_letters(self) -> bool
        ensures { result ≡ is_letters self }
    {
        alphabet::is_letter(self.0)
            && alphabet::is_letter(self.1)
            && alphabet::is_letter(self.2)
            && alphabet::is_letter(self.3)
    }
}
