// Field 15: speed and level, then one or more words.
#![tactic(auto)]

ghost use Rattle.std.specs.Prelude.{◌≡◌, MatchOption, true, ℕ, ◌+◌, ◌-◌, ◌≤◌, ◌<◌, [], ◌∷◌, length, drop};
ghost use Rattle.alphabet.specs.Alphabet.{sign};
ghost use Rattle.text.specs.Words.{split, elem, all, leading};
ghost use Rattle.shape.specs.Shape.{wides, fits as fitting, any as any_of};
ghost use Rattle.route.specs.Levels.{levels, starts, changes, climbs};
ghost use Rattle.route.specs.Fronts.{unit_end, speed_end, level_end, half_fits, coordinate_shape};
ghost use Rattle.route.specs.Points.{degrees_in_range, within as within_degrees, minutes_in_range, degrees_of, minutes_of};
ghost use Rattle.route.specs.Points.{radial_fits, indicators, name_fits, point_fits, out_of_range};
ghost use Rattle.route.specs.Field15.{pair_fits, word_fits, element_fits, route_fits, fits15};

// The shapes of speed and level at the start. What fits is told by letters and digits here; the lists are for the places of what does not fit.
pub const STARTS: [u8; 56] = *b"k9999f999 k9999s9999 k9999VFR M999f999 M999s9999 M999VFR";

// At a point, where VFR may not stand.
pub const CHANGES: [u8; 39] = *b"k9999f999 k9999s9999 M999f999 M999s9999";

// At a climb: a speed and two levels, or PLUS for the second.
pub const CLIMBS: [u8; 171] =
    *b"k9999f999f999 k9999f999s9999 k9999f999PLUS k9999s9999f999 k9999s9999s9999 k9999s9999PLUS \
    M999f999f999 M999f999s9999 M999f999PLUS M999s9999f999 M999s9999s9999 M999s9999PLUS";

// 99N999W in range: latitude at most 90, longitude at most 180.
fn in_degrees(w: &[u8]) -> bool
    requires { length w.now ≡ 7 }
    ensures { result ≡ degrees_in_range (degrees_of w.now) }
{
    if 90 < shape::two(w, 0) {
        return false;
    }
    shape::three(w, 3) <= 180
}

// At most so many degrees, minutes at most 59, and 00 at the most degrees.
fn within(most: usize, degrees: usize, minutes: usize) -> bool
    ensures { result ≡ within_degrees most degrees minutes }
{
    if most < degrees {
        return false;
    }
    if 59 < minutes {
        return false;
    }
    if degrees == most {
        return minutes == 0;
    }
    true
}

// 9999N99999W in range.
fn in_minutes(w: &[u8]) -> bool
    requires { length w.now ≡ 11 }
    ensures { result ≡ minutes_in_range (minutes_of w.now) }
{
    if !within(90, shape::two(w, 0), shape::two(w, 2)) {
        return false;
    }
    within(180, shape::three(w, 5), shape::two(w, 8))
}

const DIRECT: &[u8] = b"DCT";

const VISUAL: &[u8] = b"VFR";

const INSTRUMENT: &[u8] = b"IFR";

// Whether a word is an indicator. By `==`: as patterns the three are read byte by byte, in twelve cases for two.
fn is_indicator(w: &[u8]) -> bool
    ensures { result ≡ elem w.now indicators }
{
    w == DIRECT || w == VISUAL || w == INSTRUMENT
}

// Whether a word is digits and, last, one of two letters.
fn half(one: u8, other: u8, w: &[u8]) -> bool
    requires { 0 < length w.now }
    ensures { result ≡ half_fits (one ∷ (other ∷ [])) w.now }
{
    match w {
        [digits @ .., last] => text::all_of(text::Kind::Digit, digits)
            && (*last == one || *last == other),
        [] => false,
    }
}

// Whether a word is k digits, N or S, j digits and E or W.
fn is_coordinate(k: usize, j: usize, w: &[u8]) -> bool
    requires { k + j ≤ 9 }
    ensures { result ≡ fitting (coordinate_shape k j) w.now }
{
    let m = k + 1;
    if w.len() != m + j + 1 {
        return false;
    }
    if !half(b'N', b'S', &w[..m]) {
        return false;
    }
    half(b'E', b'W', &w[m..])
}

// Whether a word is shaped as a coordinate in degrees and out of range.
pub fn out_of_range(w: &[u8]) -> bool
    ensures { result ≡ out_of_range w.now }
{
    if !is_coordinate(2, 3, w) {
        return false;
    }
    !in_degrees(w)
}

// That the route is cut off.
const TRUNCATED: &[u8] = b"T";

// A word of signs.
#[derive(Clone, Copy)]
struct SignWord<'a> {
    bytes: &'a [u8],
    ghost signs: { all sign bytes.now ≡ true },
}

impl<'a> SignWord<'a> {
    // 2 to 5 signs, a bearing of at most 360 and a distance.
    fn with_bearing(self) -> bool
        requires { 7 < length self.bytes.now }
        ensures { result ≡ radial_fits self.entry.bytes.now }
    {
        let w = self.bytes;
        if 11 < w.len() {
            return false;
        }
        let k = w.len() - 6;
        if !text::all_of(text::Kind::Digit, &w[k..]) {
            return false;
        }
        shape::three(w, k) <= 360
    }

    // 2 or more signs, and no indicator.
    fn name(self, most: usize) -> bool
        ensures { result ≡ name_fits most self.entry.bytes.now }
    {
        let w = self.bytes;
        if w.len() < 2 {
            return false;
        }
        if most < w.len() {
            return false;
        }
        !is_indicator(w)
    }

    // The same as the function `point`. Most are short and can only be names.
    fn point(self, most: usize) -> bool
        ensures { result ≡ point_fits most self.entry.bytes.now }
    {
        let w = self.bytes;
        if w.len() < 7 {
            return self.name(most);
        }
        if is_coordinate(2, 3, w) {
            return in_degrees(w);
        }
        if is_coordinate(4, 5, w) {
            return in_minutes(w);
        }
        if 7 < w.len() {
            return self.with_bearing();
        }
        self.name(most)
    }

    // T may stand only last.
    fn word(self, last: bool) -> bool
        ensures { result ≡ word_fits last self.entry.bytes.now }
    {
        if self.bytes == TRUNCATED {
            return last;
        }
        if is_indicator(self.bytes) {
            return true;
        }
        self.point(7)
    }
}

// A coordinate, a point with bearing and distance, or a name of at most so many signs.
pub fn point(most: usize, w: &[u8]) -> bool
    ensures { result ≡ point_fits most w.now }
{
    if !text::all_of(text::Kind::Sign, w) {
        return false;
    }
    SignWord { bytes: w }.point(most)
}

// What stands behind a byte and n digits, if w begins with them.
fn behind_unit<'a>(n: usize, w: &'a [u8]) -> Option<&'a [u8]>
    requires { 0 < n }
    ensures { MatchOption result (unit_end n w.now ≡ 0) (λ t. (0 < unit_end n w.now) × (t.now ≡ drop (unit_end n w.now) w.now)) }
{
    if w.len() <= n {
        return None;
    }
    let e = n + 1;
    if !text::all_of(text::Kind::Digit, &w[1..e]) {
        return None;
    }
    Some(&w[e..])
}

// What stands behind the speed, if w begins with one.
fn behind_speed<'a>(w: &'a [u8]) -> Option<&'a [u8]>
    ensures { MatchOption result (speed_end w.now ≡ 0) (λ t. (0 < speed_end w.now) × (t.now ≡ drop (speed_end w.now) w.now)) }
{
    let unit = *w.first()?;
    match unit {
        b'K' | b'N' => behind_unit(4, w),
        b'M' => behind_unit(3, w),
        _ => None,
    }
}

// The same of a level.
fn behind_level<'a>(w: &'a [u8]) -> Option<&'a [u8]>
    ensures { MatchOption result (level_end w.now ≡ 0) (λ t. (0 < level_end w.now) × (t.now ≡ drop (level_end w.now) w.now)) }
{
    let unit = *w.first()?;
    match unit {
        b'F' | b'A' => behind_unit(3, w),
        b'S' | b'M' => behind_unit(4, w),
        _ => None,
    }
}

// A level.
fn level(w: &[u8]) -> bool
    ensures { result ≡ any_of (wides levels) w.now }
{
    behind_level(w).is_some_and(|t| t.is_empty())
}

// In place of the second level of a climb.
const UPWARDS: &[u8] = b"PLUS";

// Speed and level at the start.
pub fn start(w: &[u8]) -> bool
    ensures { result ≡ any_of (wides starts) w.now }
{
    behind_speed(w).is_some_and(|t| level(t) || t == VISUAL)
}

// Speed and level at a point.
fn changed(w: &[u8]) -> bool
    ensures { result ≡ any_of (wides changes) w.now }
{
    behind_speed(w).is_some_and(|t| level(t))
}

// Speed and two levels at a point, or PLUS for the second.
fn climbed(w: &[u8]) -> bool
    ensures { result ≡ any_of (wides climbs) w.now }
{
    behind_speed(w)
        .and_then(|t| behind_level(t))
        .is_some_and(|u| level(u) || u == UPWARDS)
}

// A climb, behind its `C/`: a point, '/', a speed and two levels.
fn climb(w: &[u8]) -> bool
    ensures { result ≡ pair_fits (wides climbs) w.now }
{
    let o = text::end_of(text::Kind::Sign, w, 0);
    if o == w.len() {
        return false;
    }
    if w[o] != b'/' {
        return false;
    }
    let p = SignWord { bytes: &w[..o] };
    if !p.point(5) {
        return false;
    }
    climbed(&w[o + 1..])
}

// What a climb begins with, before its oblique.
const CLIMB: &[u8] = b"C";

// A word whose signs end at o, before its end. Behind them an oblique is due: `C/` is a climb, any other a change of speed and level at a point.
fn joined(o: usize, w: &[u8]) -> bool
    requires { (o < length w.now) × (o ≡ leading sign w.now) }
    ensures { result ≡ element_fits true w.now }
{
    if w[o] != b'/' {
        return false;
    }
    let p = &w[..o];
    let t = &w[o + 1..];
    if p == CLIMB {
        return climb(t);
    }
    if !(SignWord { bytes: p }).point(5) {
        return false;
    }
    changed(t)
}

// A word.
pub fn element(last: bool, w: &[u8]) -> bool
    ensures { result ≡ element_fits last w.now }
{
    let o = text::end_of(text::Kind::Sign, w, 0);
    if o == w.len() {
        return SignWord { bytes: w }.word(last);
    }
    joined(o, w)
}

// The words from `from` on. A loop over places: most words are of signs alone, and their end is found while their signs are read, so they are walked once;
// by `split` they are walked twice, in a quarter more instructions.
fn elements(s: &[u8], from: usize) -> bool
    requires { from ≤ length s.now }
    ensures { result ≡ route_fits (split 32 (drop from s.now)) }
{
    let mut at = from;
    loop {
        let o = text::end_of(text::Kind::Sign, s, at);
        let w = SignWord { bytes: &s[at..o] };
        if o == s.len() {
            return w.word(true);
        }
        if s[o] == b' ' {
            if !w.word(false) {
                return false;
            }
            at = o + 1;
        } else {
            let e = text::find(s, o, b' ');
            if !joined(o - at, &s[at..e]) {
                return false;
            }
            if e == s.len() {
                return true;
            }
            at = e + 1;
        }
    }
}

// Whether a content fits field 15's form.
pub fn fits_field15(s: &[u8]) -> bool
    ensures { result ≡ fits15 s.now }
{
    let e = text::find(s, 0, b' ');
    if e == s.len() {
        return false;
    }
    if !start(&s[..e]) {
        return false;
    }
    elements(s, e + 1)
}
