// The date in field 18.
#![tactic(auto)]

ghost use Rattle.std.specs.Prelude.{◌≡◌, ◌++◌, ◌≤◌, length};
ghost use Rattle.text.specs.Words.{elem};
ghost use Rattle.dates.specs.Dates.{date_in, flight_date, key_in, keys_behind, with_date, DatePlace, Puts};

use other::Rule;

// A day, its year counted in full.
#[derive(Clone, Copy)]
pub struct Date {
    pub year: usize,
    pub month: usize,
    pub day: usize,
}

// The word under DOF; nothing where there is none.
pub fn date_word<'a>(s: &'a [u8]) -> &'a [u8]
    ensures { result.now ≡ date_in s.now }
{
    other::words_of(s, b"DOF")
}

// The day that it is, if it is one.
pub fn date_in(s: &[u8]) -> Option<Date>
    ensures { result ≡ flight_date (date_in s.now) }
{
    let w = date_word(s);
    if !other::word_fits(Rule::Day, w) {
        return None;
    }
    Some(Date {
        year: 2000 + shape::two(w, 0),
        month: shape::two(w, 2),
        day: shape::two(w, 4),
    })
}

// The key of a word that begins an item; nothing of any other.
fn key_in<'a>(w: &'a [u8]) -> &'a [u8]
    ensures { result.now ≡ key_in w.now }
{
    let o = text::find(w, 0, b'/');
    if o == w.len() {
        return &w[..0];
    }
    &w[..o]
}

// Whether a key stands behind DOF.
fn is_behind(key: &[u8]) -> bool
    ensures { result ≡ elem key.now keys_behind }
{
    text::in_cells(
        key,
        4,
        b"REG EET SEL TYP CODEDLE OPR ORGNPER ALTNRALTTALTRIF RMK ",
    )
}

// Where an item goes.
#[derive(Clone, Copy)]
enum Place {
    Instead { from: usize, to: usize },
    Before(usize),
    Last,
}

// Where a date goes.
fn place_of(s: &[u8]) -> Place
    ensures { DatePlace s.now result }
{
    if text::same_bytes(s, b"0") {
        return Place::Instead {
            from: 0,
            to: s.len(),
        };
    }
    let mut at = 0;
    for word in s.split(|&b| b == b' ') {
        let e = at + word.len();
        let key = key_in(word);
        if text::same_bytes(key, b"DOF") {
            return Place::Instead { from: at, to: e };
        }
        if is_behind(key) {
            return Place::Before(at);
        }
        at = e + 1;
    }
    Place::Last
}

// Writes two parts, one behind the other, at the front of `out`.
pub fn put_two<'a>(first: &'a [u8], second: &'a [u8], out: &mut [u8]) -> usize
    requires { length (first.now ++ second.now) ≤ length out.old }
    ensures { Puts (first.now ++ second.now) result out.old out.new }
{
    let n = text::put(first, out);
    n + text::put(second, &mut out[n..])
}

// Writes a date between two parts on each side.
fn put_around<'a>(
    head: &'a [u8],
    lead: &'a [u8],
    date: &'a [u8],
    gap: &'a [u8],
    tail: &'a [u8],
    out: &mut [u8],
) -> usize
    requires { length (((head.now ++ lead.now) ++ date.now) ++ (gap.now ++ tail.now)) ≤ length out.old }
    ensures { Puts (((head.now ++ lead.now) ++ date.now) ++ (gap.now ++ tail.now))
        result out.old out.new }
{
    let n = put_two(head, lead, out);
    let m = n + text::put(date, &mut out[n..]);
    m + put_two(gap, tail, &mut out[m..])
}

// Writes a content that takes a date.
pub fn put_dated<'a>(own: &'a [u8], date: &'a [u8], out: &mut [u8]) -> usize
    requires { length (with_date date.now own.now) ≤ length out.old }
    ensures { Puts (with_date date.now own.now) result out.old out.new }
{
    match place_of(own) {
        Place::Instead { from, to } => {
            put_around(&own[..from], b"DOF/", date, b"", &own[to..], out)
        }
        Place::Before(at) => put_around(&own[..at], b"DOF/", date, b" ", &own[at..], out),
        Place::Last => put_around(own, b" DOF/", date, b"", b"", out),
    }
}
