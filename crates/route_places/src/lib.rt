// The place of a content of field 15 that does not fit.
#![tactic(auto)]

ghost use Rattle.std.specs.Prelude.{◌≡◌};
ghost use Rattle.text.specs.Words.{split};
ghost use Rattle.shape.specs.Shape.{wides};
ghost use Rattle.places.specs.Parts.{farthest};
ghost use Rattle.route.specs.Levels.{starts, changes, climbs};
ghost use Rattle.route_places.specs.Places.{pair_place, climb_place, element_place, route, word_place, route_place, place15};

// How far a word follows the shape of a list that it follows farthest.
fn farthest_of(list: &[u8], w: &[u8]) -> usize
    ensures { result ≡ farthest (split 32 list.now) w.now }
{
    places::largest(list, |t| places::along_shape(t, w))
}

// The place in a point, '/', and one of a list of shapes.
fn place_pair(list: &[u8], w: &[u8]) -> usize
    ensures { result ≡ pair_place (split 32 list.now) w.now }
{
    places::cut_place(
        b'/',
        |p| route::point(5, p),
        point_places::place_point,
        |f| farthest_of(list, f),
        w,
    )
}

// The place in a change of speed and level.
fn place_change(w: &[u8]) -> usize
    ensures { result ≡ pair_place (wides changes) w.now }
{
    place_pair(&route::CHANGES, w)
}

// The place in a climb, behind its `C/`.
fn place_climbing(w: &[u8]) -> usize
    ensures { result ≡ pair_place (wides climbs) w.now }
{
    place_pair(&route::CLIMBS, w)
}

// The place in a climb.
fn place_climb(w: &[u8]) -> usize
    ensures { result ≡ climb_place w.now }
{
    places::cut_place(
        b'/',
        |c| text::same_bytes(c, b"C"),
        |c| places::along_shape(b"C", c),
        place_climbing,
        w,
    )
}

// The place in a word.
#[tactic(auto, unfolding(crate::specs::Places::element_place))]
fn place_element(w: &[u8]) -> usize
    ensures { result ≡ element_place w.now }
{
    point_places::place_plain(w)
        .max(place_change(w))
        .max(place_climb(w))
}

// What is known behind one word more, that is whether it was T: behind T none may stand.
fn next_word(ended: bool, w: &[u8]) -> Option<bool>
    ensures { result ≡ route.after ended w.now }
{
    if ended {
        return None;
    }
    if text::same_bytes(w, b"T") {
        return Some(true);
    }
    if route::element(false, w) {
        return Some(false);
    }
    None
}

// The place in such a word.
fn word_place(ended: bool, w: &[u8]) -> usize
    ensures { result ≡ word_place ended w.now }
{
    if ended { 0 } else { place_element(w) }
}

// The place in the words behind speed and level.
fn place_words(t: &[u8]) -> usize
    ensures { result ≡ route_place t.now }
{
    places::words_place(false, next_word, |ended| !ended, word_place, t)
}

// The place in speed and level.
fn place_start(w: &[u8]) -> usize
    ensures { result ≡ farthest (wides starts) w.now }
{
    farthest_of(&route::STARTS, w)
}

// The place of a content of field 15 that does not fit.
pub fn place_field15(s: &[u8]) -> usize
    ensures { result ≡ place15 s.now }
{
    places::cut_place(b' ', route::start, place_start, place_words, s)
}
