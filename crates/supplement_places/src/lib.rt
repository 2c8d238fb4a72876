// The place of a content of field 19 that does not fit, word by word.
#![tactic(auto)]

ghost use Rattle.std.specs.Prelude.{◌≡◌, ◌≤◌, length};
ghost use Rattle.supplement.specs.Field19.{by_letter};
ghost use Rattle.supplement_places.specs.Places.{letters_place, first_word_place, further_place, comes, item_place};
ghost use Rattle.supplement_places.specs.Places.{word_place, stands as stands_at, walk, place19};

use supplement::Stage;
use text::Kind;

// The place of letters of a set, none twice.
fn letters_place(set: &[u8], w: &[u8]) -> usize
    ensures { result ≡ letters_place set.now w.now }
{
    places::passes(w, |front| supplement::is_some_of(set, front))
}

// The place in the first word of an item, behind its oblique.
fn first_place(key: u8, w: &[u8]) -> usize
    ensures { result ≡ first_word_place (by_letter key) w.now }
{
    match key {
        b'E' => places::time_place(shape::ELAPSED_HOURS, w),
        b'P' => places::run_place(3, Kind::Digit, w),
        b'R' => letters_place(b"UVE", w),
        b'S' => letters_place(b"PDMJ", w),
        b'J' => letters_place(b"LF", w),
        b'D' => places::run_place(2, Kind::Digit, w).max(places::front_of(Kind::Letter, w)),
        b'A' | b'N' | b'C' => places::front_of(Kind::Text, w),
        _ => 0,
    }
}

// The place in a further word of an item.
fn further_place(stage: Stage, w: &[u8]) -> usize
    ensures { result ≡ further_place stage w.now }
{
    match stage {
        Stage::Lights => letters_place(b"UV", w),
        Stage::Number => places::run_place(3, Kind::Digit, w),
        Stage::Capacity | Stage::Colours => places::front_of(Kind::Letter, w),
        Stage::Aircraft | Stage::Remarks | Stage::Pilot => places::front_of(Kind::Text, w),
        _ => 0,
    }
}

// Whether the key may come next.
fn comes(stage: Stage, key: u8) -> bool
    ensures { result ≡ comes stage key }
{
    supplement::past(stage) < supplement::place(key)
}

// The place in a word that begins an item.
fn item_place(stage: Stage, w: &[u8]) -> usize
    ensures { result ≡ item_place stage w.now }
{
    match w {
        [key, b'/', rest @ ..] if comes(stage, *key) => 2 + first_place(*key, rest),
        [key, ..] if comes(stage, *key) => 1,
        _ => 0,
    }
}

// The place in a word.
fn word_place(stage: Stage, w: &[u8]) -> usize
    ensures { (result ≡ word_place stage w.now) × (result ≤ length w.now) }
{
    further_place(stage, w).max(item_place(stage, w))
}

// Whether the words so far may stand there.
fn stands(stage: Stage) -> bool
    ensures { result ≡ stands_at stage }
{
    !matches!(stage, Stage::Refused)
}

// The stage behind a word more, where one may stand there.
fn stage_after(stage: Stage, w: &[u8]) -> Option<Stage>
    ensures { result ≡ walk.after stage w.now }
{
    let next = supplement::step(stage, w);
    if stands(next) { Some(next) } else { None }
}

// The place of a content of field 19 that does not fit.
#[tactic(auto, unfolding(crate::specs::Places::place19))]
pub fn place_field19(s: &[u8]) -> usize
    ensures { result ≡ place19 s.now }
{
    places::words_place(Stage::Start, stage_after, stands, word_place, s)
}
