// Field 19, supplementary information, as sent.
#![tactic(auto)]

ghost use Rattle.std.specs.Prelude.{◌≡◌, cond, eqb, get_or};
ghost use Rattle.supplement.specs.declared.Stage.TheVariants.{Refused};
ghost use Rattle.supplement.specs.Field19.{D, by_letter, place as place_of, count, some_of, colour, fits19};
ghost use Rattle.supplement.specs.Walk.{past as past_of, complete as complete_at, shaded, first as first_of, further as further_of, step as step_of};

use shape::Elapsed;

// What the last word was read as. Refused is a stage, as `Walk.step` has it: behind a word that does not fit none does, so the stages of all words are a fold.
#[derive(Clone, Copy)]
pub enum Stage {
    Start,
    Endurance,
    Persons,
    Radio,
    Survival,
    Lights,
    JacketRadio,
    Number,
    Capacity,
    Colours,
    Aircraft,
    Remarks,
    Pilot,
    Refused,
}

// The place of an item in their order, by its key's letter, from 1; 0 for any other byte.
// A number, as `ensures place_of` has it: places are compared, and 0 is behind none.
#[tactic(auto, unfolding(crate::specs::Field19::keyed))]
pub fn place(key: u8) -> usize
    ensures { result ≡ place_of (by_letter key) }
{
    match key {
        b'E' => 1,
        b'P' => 2,
        b'R' => 3,
        b'S' => 4,
        b'J' => 5,
        b'D' => 6,
        b'A' => 7,
        b'N' => 8,
        b'C' => 9,
        _ => 0,
    }
}

// The place that the next item's key has to be behind; none is behind 9.
pub fn past(stage: Stage) -> usize
    ensures { result ≡ past_of stage }
{
    match stage {
        Stage::Start => 0,
        Stage::Endurance => 1,
        Stage::Persons => 2,
        Stage::Radio => 3,
        Stage::Survival => 4,
        Stage::Lights | Stage::JacketRadio => 5,
        Stage::Capacity | Stage::Colours => 6,
        Stage::Aircraft => 7,
        Stage::Remarks => 8,
        _ => 9,
    }
}

// Whether the words may end here.
fn complete(stage: Stage) -> bool
    ensures { result ≡ complete_at stage }
{
    match stage {
        Stage::Start | Stage::Number | Stage::Refused => false,
        _ => true,
    }
}

// Whether w is digits, at least one and at most so many.
fn is_count(most: usize, w: &[u8]) -> bool
    ensures { result ≡ count most w.now }
{
    text::some_of(text::Kind::Digit, 1, most, w)
}

// Whether w is letters of a set, at least one and none twice. A loop: the pattern gives a letter and what is behind it, for which an iterator needs places.
pub fn is_some_of(set: &[u8], w: &[u8]) -> bool
    ensures { result ≡ some_of set.now w.now }
{
    let mut rest = w;
    while let [b, behind @ ..] = rest {
        if !shape::one_of(*b, set) {
            return false;
        }
        if shape::one_of(*b, behind) {
            return false;
        }
        rest = behind;
    }
    !w.is_empty()
}

// Whether w is a colour: two letters or more.
fn is_colour(w: &[u8]) -> bool
    ensures { result ≡ colour w.now }
{
    if w.len() < 2 {
        return false;
    }
    text::all_of(text::Kind::Letter, w)
}

// `then` where a word fits.
fn taken(fits: bool, then: Stage) -> Stage
    ensures { result ≡ cond fits then Refused }
{
    if fits { then } else { Stage::Refused }
}

// That the dinghies are covered.
const COVER: &[u8] = b"C";

// The cover, or a colour.
fn shade(w: &[u8]) -> Stage
    ensures { result ≡ shaded w.now }
{
    if w == COVER {
        return Stage::Colours;
    }
    taken(is_colour(w), Stage::Colours)
}

// The first word under D: the number of a pair, the cover, or a colour.
pub fn first_of_dinghies(w: &[u8]) -> Stage
    ensures { result ≡ first_of D w.now }
{
    if is_count(2, w) {
        return Stage::Number;
    }
    shade(w)
}

// The first word of an item, behind its oblique.
#[tactic(auto, unfolding(crate::specs::Field19::keyed))]
fn first(key: u8, w: &[u8]) -> Stage
    ensures { result ≡ first_of (by_letter key) w.now }
{
    match key {
        b'E' => taken(Elapsed::is_elapsed(Elapsed::read(w)), Stage::Endurance),
        b'P' => taken(is_count(3, w), Stage::Persons),
        b'R' => taken(is_some_of(b"UVE", w), Stage::Radio),
        b'S' => taken(is_some_of(b"PDMJ", w), Stage::Survival),
        b'J' => taken(is_some_of(b"LF", w), Stage::Lights),
        b'D' => first_of_dinghies(w),
        b'A' => taken(text::is_text_word(w), Stage::Aircraft),
        b'N' => taken(text::is_text_word(w), Stage::Remarks),
        b'C' => taken(text::is_text_word(w), Stage::Pilot),
        _ => Stage::Refused,
    }
}

// A further word of an item.
fn further(stage: Stage, w: &[u8]) -> Stage
    ensures { result ≡ further_of stage w.now }
{
    match stage {
        Stage::Lights => taken(is_some_of(b"UV", w), Stage::JacketRadio),
        Stage::Number => taken(is_count(3, w), Stage::Capacity),
        Stage::Capacity => shade(w),
        Stage::Colours => taken(is_colour(w), Stage::Colours),
        Stage::Aircraft | Stage::Remarks | Stage::Pilot => taken(text::is_text_word(w), stage),
        _ => Stage::Refused,
    }
}

// Whether an oblique stands behind the first byte.
pub fn has_key(w: &[u8]) -> bool
    ensures { result ≡ eqb (get_or w.now 1 0) 47 }
{
    matches!(w, [_, b'/', ..])
}

// A word: it begins an item where it holds an oblique, behind a key of one letter. An oblique elsewhere is in no word.
pub fn step(stage: Stage, w: &[u8]) -> Stage
    ensures { result ≡ step_of stage w.now }
{
    if !has_key(w) {
        return further(stage, w);
    }
    let key = w[0];
    if place(key) <= past(stage) {
        return Stage::Refused;
    }
    first(key, &w[2..])
}

// Whether a content fits field 19's form.
pub fn fits_field19(s: &[u8]) -> bool
    ensures { result ≡ fits19 s.now }
{
    let stage = s
        .split(|&b| b == b' ')
        .fold(Stage::Start, |stage, w| step(stage, w));
    complete(stage)
}
