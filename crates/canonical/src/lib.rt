// Field 19 in its canonical spelling: letters in the order of their set, counts without leading zeros.
#![tactic(auto)]

ghost use Rattle.std.specs.Prelude.{◌≡◌, true, cond, ◌≤◌, eqb, length, drop, get_or};
ghost use Rattle.text.specs.Lent.{front};
ghost use Rattle.supplement.specs.declared.Stage.TheVariants.{Refused};
ghost use Rattle.supplement.specs.Field19.{by_letter, fits19};
ghost use Rattle.supplement.specs.Walk.{first, further, step};
ghost use Rattle.canonical.specs.Canonical.{sorted, written19};
ghost use Rattle.canonical.specs.Rewriting.{stripped, changed, up_to_oblique, rewrite, rewritten_text, settled};

use supplement::Stage;

// A count without its leading zeros; its last digit stays.
fn stripped<'a>(w: &'a [u8]) -> &'a [u8]
    ensures { result.now ≡ stripped w.now }
{
    match w.iter().position(|&b| b != b'0') {
        Some(k) => &w[k..],
        None => &w[w.len().saturating_sub(1)..],
    }
}

// How many letters of a set stand in w.
// Lengths have functions of their own beside those that write, here and below: nothing is written before all is checked.
fn sorted_length(set: &[u8], w: &[u8]) -> usize
    ensures { result ≡ length (sorted set.now w.now) }
{
    set.iter().filter(|b| shape::one_of(**b, w)).count()
}

// Writes the letters of a set that stand in w, in the set's order.
fn put_sorted(set: &[u8], w: &[u8], out: &mut [u8]) -> usize
    requires { length (sorted set.now w.now) ≤ length out.old }
    ensures { (result ≡ length (sorted set.now w.now))
        × (out.new ≡ front (sorted set.now w.now) out.old) }
{
    let mut o = 0;
    for b in set {
        if shape::one_of(*b, w) {
            out[o] = *b;
            o += 1;
        }
    }
    o
}

// How many bytes are written of w, what stands behind an oblique or a whole word, by what it was read as.
fn changed_length(stage: Stage, w: &[u8]) -> usize
    ensures { result ≡ length (changed stage w.now) }
{
    match stage {
        Stage::Radio | Stage::Survival | Stage::Lights | Stage::JacketRadio => sorted_length(
            b"UVEPDMJLF",
            w,
        ),
        Stage::Persons | Stage::Number | Stage::Capacity => stripped(w).len(),
        _ => w.len(),
    }
}

// Writes them.
fn put_changed(stage: Stage, w: &[u8], out: &mut [u8]) -> usize
    requires { length (changed stage w.now) ≤ length out.old }
    ensures { (result ≡ length (changed stage w.now)) × (out.new ≡ front (changed stage w.now) out.old) }
{
    match stage {
        Stage::Radio | Stage::Survival | Stage::Lights | Stage::JacketRadio => put_sorted(
            b"UVEPDMJLF",
            w,
            out,
        ),
        Stage::Persons | Stage::Number | Stage::Capacity => text::put(stripped(w), out),
        _ => text::put(w, out),
    }
}

// How many bytes a word has as it is written.
fn word_length(stage: Stage, w: &[u8]) -> usize
    ensures { (result ≡ length (rewrite stage w.now)) × (result ≤ length w.now) }
{
    match w.iter().position(|&b| b == b'/') {
        Some(o) => o + 1 + changed_length(stage, &w[o + 1..]),
        None => changed_length(stage, w),
    }
}

// Writes a word: its key and the oblique as they are, if it has them.
fn put_word(stage: Stage, w: &[u8], out: &mut [u8]) -> usize
    requires { (up_to_oblique w.now ≡ cond (eqb (get_or w.now 1 0) 47) 2 0) × (length (rewrite stage w.now) ≤ length out.old) }
    ensures { (result ≡ length (rewrite stage w.now)) × (out.new ≡ front (rewrite stage w.now) out.old) }
{
    if !supplement::has_key(w) {
        return put_changed(stage, w, out);
    }
    out[0] = w[0];
    out[1] = b'/';
    2 + put_changed(stage, &w[2..], &mut out[2..])
}

// How many bytes the words have as they are written, with one space between them.
// A loop over places, as in put_words, which writes what is counted here: the place reached bounds the sum.
fn words_length(s: &[u8]) -> usize
    ensures { result ≡ length (rewritten_text s.now) }
{
    let mut at = 0;
    let mut n = 0;
    let mut stage = Stage::Start;
    loop {
        let e = text::find(s, at, b' ');
        let w = &s[at..e];
        stage = supplement::step(stage, w);
        n += word_length(stage, w);
        if e == s.len() {
            return n;
        }
        n += 1;
        at = e + 1;
    }
}

// What the first word of an item, behind its oblique, was read as in a content that fits: its key tells, but for D.
fn opened_as(key: u8, w: &[u8]) -> Stage
    requires { first (by_letter key) w.now ≡ Refused → ⊥ }
    ensures { result ≡ first (by_letter key) w.now }
{
    match key {
        b'E' => Stage::Endurance,
        b'P' => Stage::Persons,
        b'R' => Stage::Radio,
        b'S' => Stage::Survival,
        b'J' => Stage::Lights,
        b'D' => supplement::first_of_dinghies(w),
        b'A' => Stage::Aircraft,
        b'N' => Stage::Remarks,
        b'C' => Stage::Pilot,
        _ => Stage::Refused,
    }
}

// What a further word of an item was read as in a content that fits: what was read before it tells.
fn followed_as(stage: Stage, w: &[u8]) -> Stage
    requires { further stage w.now ≡ Refused → ⊥ }
    ensures { result ≡ further stage w.now }
{
    match stage {
        Stage::Lights => Stage::JacketRadio,
        Stage::Number => Stage::Capacity,
        Stage::Capacity => Stage::Colours,
        Stage::Colours | Stage::Aircraft | Stage::Remarks | Stage::Pilot => stage,
        _ => Stage::Refused,
    }
}

// What a word was read as in a content that fits. It is not tested again.
fn read_as(stage: Stage, w: &[u8]) -> Stage
    requires { step stage w.now ≡ Refused → ⊥ }
    ensures { result ≡ step stage w.now }
{
    if !supplement::has_key(w) {
        return followed_as(stage, w);
    }
    opened_as(w[0], &w[2..])
}

// Whether a word that was read so is written as it was sent, and so are all behind it.
fn is_settled(stage: Stage) -> bool
    ensures { result ≡ settled stage }
{
    matches!(
        stage,
        Stage::Colours | Stage::Aircraft | Stage::Remarks | Stage::Pilot
    )
}

// Writes the words of a content that fits, with one space between them; from a settled word on the content as it is.
// A loop over places: the place of a settled word says what is left, and an iterator over the words does not give it.
fn put_words(s: &[u8], out: &mut [u8]) -> usize
    requires { (fits19 s.now ≡ true) × (length (rewritten_text s.now) ≤ length out.old) }
    ensures { (result ≡ length (rewritten_text s.now)) × (out.new ≡ front (rewritten_text s.now) out.old) }
{
    let mut at = 0;
    let mut o = 0;
    let mut stage = Stage::Start;
    loop {
        let e = text::find(s, at, b' ');
        let w = &s[at..e];
        stage = read_as(stage, w);
        if is_settled(stage) {
            return o + text::put(&s[at..], &mut out[o..]);
        }
        o += put_word(stage, w, &mut out[o..]);
        if e == s.len() {
            return o;
        }
        out[o] = b' ';
        o += 1;
        at = e + 1;
    }
}

// How many bytes are written of a content: of its canonical spelling where it fits, else of itself.
pub fn spelled_length(s: &[u8]) -> usize
    ensures { result ≡ length (written19 s.now) }
{
    if !supplement::fits_field19(s) {
        return s.len();
    }
    words_length(s)
}

// Writes the canonical spelling of a content that fits at the front of `out`. The bytes behind it stay.
pub fn write_fitting19(s: &[u8], out: &mut [u8]) -> usize
    requires { (fits19 s.now ≡ true) × (length (written19 s.now) ≤ length out.old) }
    ensures { (result ≡ length (written19 s.now)) × (out.new ≡ front (written19 s.now) out.old) }
{
    put_words(s, out)
}
