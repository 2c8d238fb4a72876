// The places of field 15's points and of its words with no oblique.
#![tactic(auto)]

ghost use Rattle.std.specs.Prelude.{◌≡◌};
ghost use Rattle.text.specs.Words.{split};
ghost use Rattle.point_places.specs.Rows.{meets as may_meet, row_place, rows_place};
ghost use Rattle.point_places.specs.Points.{short_rows, beyond_rows, point_place, name_place, plain_place};

// Whether a byte of a word may stand where a row has t.
fn meets(t: u8, b: u8) -> bool
    ensures { result ≡ may_meet t b }
{
    if t == b'x' {
        return alphabet::is_sign(b);
    }
    shape::fits(&[t], &[b]) && (!alphabet::is_digit(t) || b <= t)
}

// How far a word follows a row.
fn along_row(t: &[u8], w: &[u8]) -> usize
    ensures { result ≡ row_place t.now w.now }
{
    places::along(t, w, meets)
}

// How far a word follows the row of a list that it follows farthest.
fn farthest_row(list: &[u8], w: &[u8]) -> usize
    ensures { result ≡ rows_place (split 32 list.now) w.now }
{
    places::largest(list, |t| along_row(t, w))
}

// The place in a coordinate in degrees.
fn place_short(w: &[u8]) -> usize
    ensures { result ≡ rows_place short_rows w.now }
{
    farthest_row(b"89n099e 89n179e 89n180e 90n099e 90n179e 90n180e", w)
}

// The place in what is longer than a name: a coordinate with minutes, or a point with bearing.
fn place_beyond(w: &[u8]) -> usize
    ensures { result ≡ rows_place beyond_rows w.now }
{
    farthest_row(
        b"8959n09959e 8959n17959e 8959n18000e 9000n09959e 9000n17959e 9000n18000e xx299999 xx359999 xx360999 xxx299999 xxx359999 xxx360999 \
        xxxx299999 xxxx359999 xxxx360999 xxxxx299999 xxxxx359999 xxxxx360999",
        w,
    )
}

// The place in a point before an oblique.
#[tactic(auto, unfolding(crate::specs::Points::point_place))]
pub fn place_point(w: &[u8]) -> usize
    ensures { result ≡ point_place w.now }
{
    places::run_place(5, text::Kind::Sign, w)
        .max(place_short(w))
        .max(place_beyond(w))
}

// The place in a name.
fn place_name(w: &[u8]) -> usize
    ensures { result ≡ name_place w.now }
{
    if w.len() < 7 {
        return places::run_place(7, text::Kind::Sign, w);
    }
    if route::out_of_range(&w[..7]) {
        return 6;
    }
    places::run_place(7, text::Kind::Sign, w)
}

// The place in a word with no oblique.
#[tactic(auto, unfolding(crate::specs::Points::plain_place))]
pub fn place_plain(w: &[u8]) -> usize
    ensures { result ≡ plain_place w.now }
{
    place_name(w).max(place_beyond(w))
}
