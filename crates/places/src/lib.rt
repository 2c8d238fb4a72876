// The place of a content that does not fit: the parts that the forms share.
#![tactic(auto)]

ghost use Rattle.std.specs.Prelude.{◌≡◌, ◌≤◌, ℕ, Bool, Option, [], length};
ghost use Rattle.text.specs.Words.{Word, leading, split};
ghost use Rattle.text.specs.Kinds.{of_kind};
ghost use Rattle.places.specs.Parts.{run_place, along_by, along, largest, passes, cut_place, fixed_place, between, two_digits, tens, units, time_place};
ghost use Rattle.places.specs.Words.{form, words_place};

use text::Kind;

// How many bytes at the front are of a kind.
pub fn front_of(k: Kind, s: &[u8]) -> usize
    ensures { (result ≡ leading (of_kind k) s.now) × (result ≤ length s.now) }
{
    text::end_of(k, s, 0)
}

// The place of a run of bytes of a kind, at most so many.
pub fn run_place(most: usize, k: Kind, s: &[u8]) -> usize
    ensures { result ≡ run_place most (of_kind k) s.now }
{
    most.min(front_of(k, s))
}

// How far w follows t, byte for byte, where `goes` tells whether a byte may stand where t has one.
pub fn along<F: Fn(u8, u8) -> bool>(t: &[u8], w: &[u8], goes: F) -> usize
    requires { F.IsAlwaysCallable goes }
    ensures { (m : ℕ → ℕ → Bool) → ((a b : ℕ) (r : Bool) → F.post goes a b r → r ≡ m a b) → result ≡ along_by m t.now w.now }
{
    t.iter().zip(w).take_while(|p| goes(*p.0, *p.1)).count()
}

// The largest of what `measure` gives of the words of a list, which have one space between them.
pub fn largest<F: Fn(&[u8]) -> usize>(list: &[u8], measure: F) -> usize
    requires { F.IsAlwaysCallable measure }
    ensures { (m : Word → ℕ) → ((v : _) (r : ℕ) → F.post measure v r → r ≡ m v.now) → result ≡ largest m (split 32 list.now) }
{
    list.split(|&b| b == b' ')
        .map(|v| measure(v))
        .fold(0, usize::max)
}

// How many bytes stand before the first at which the bytes up to it do not pass a test.
pub fn passes<F: Fn(&[u8]) -> bool>(w: &[u8], test: F) -> usize
    requires { F.IsAlwaysCallable test }
    ensures { (v : Word → Bool) → ((p : _) (r : Bool) → F.post test p r → r ≡ v p.now) → result ≡ passes v [] w.now }
{
    for i in 0..w.len() {
        if !test(&w[..i + 1]) {
            return i;
        }
    }
    w.len()
}

// How far w follows a shape, given byte for byte.
pub fn along_shape(t: &[u8], w: &[u8]) -> usize
    ensures { result ≡ along t.now w.now }
{
    along(t, w, |a, b| shape::fits(&[a], &[b]))
}

// The place in what is cut at the first c, which belongs to neither part: behind it where the part before it fits, and else in that part.
pub fn cut_place<F: Fn(&[u8]) -> bool, B: Fn(&[u8]) -> usize, H: Fn(&[u8]) -> usize>(
    c: u8,
    fits: F,
    before: B,
    behind: H,
    s: &[u8],
) -> usize
    requires callable { F.IsAlwaysCallable fits × B.IsAlwaysCallable before × H.IsAlwaysCallable behind }
    requires within { (w : _) (r : ℕ) → H.post behind w r → r ≤ length w.now }
    ensures { (f : Word → Bool) (pf pg : Word → ℕ)
        → ((w : _) (r : Bool) → F.post fits w r → r ≡ f w.now)
        → ((w : _) (r : ℕ) → B.post before w r → r ≡ pf w.now)
        → ((w : _) (r : ℕ) → H.post behind w r → r ≡ pg w.now)
        → result ≡ cut_place c f pf pg s.now }
{
    let o = text::find(s, 0, c);
    if o < s.len() && fits(&s[..o]) {
        return o + 1 + behind(&s[o + 1..]);
    }
    before(&s[..o])
}

// The place in words with one space between them, where something is known behind some words: `after` says what is known behind one word more, if it may stand
// there, `goes` whether a further word may follow, and `place` where a word goes wrong.
pub fn words_place<
    K: Copy,
    A: Fn(K, &[u8]) -> Option<K>,
    G: Fn(K) -> bool,
    P: Fn(K, &[u8]) -> usize,
>(start: K, after: A, goes: G, place: P, s: &[u8]) -> usize
    requires callable { A.IsAlwaysCallable after × G.IsAlwaysCallable goes × P.IsAlwaysCallable place }
    requires within { (k : K) (w : _) (r : ℕ) → P.post place k w r → r ≤ length w.now }
    ensures { (a : K → Word → Option K) (f g : K → Bool) (p : K → Word → ℕ)
        → ((k : K) (w : _) (r : Option K) → A.post after k w r → r ≡ a k w.now)
        → ((k : K) (r : Bool) → G.post goes k r → r ≡ g k)
        → ((k : K) (w : _) (r : ℕ) → P.post place k w r → r ≡ p k w.now)
        → result ≡ words_place (form K a f g) p start (split 32 s.now) }
{
    // A loop: the places of the bytes count too, and an iterator over pieces does not give them.
    let mut at = 0;
    let mut known = start;
    loop {
        let e = text::find(s, at, b' ');
        let w = &s[at..e];
        if e == s.len() {
            return at + place(known, w);
        }
        match after(known, w) {
            None => return at + place(known, w),
            Some(next) => known = next,
        }
        if !goes(known) {
            return e;
        }
        at = e + 1;
    }
}

fn between(lo: u8, hi: u8, b: u8) -> bool
    ensures { result ≡ between lo hi b }
{
    lo <= b && b <= hi
}

// The place of two digits, the first from lo to hi.
pub fn two_digits(lo: u8, hi: u8, w: &[u8]) -> usize
    ensures { result ≡ two_digits lo hi w.now }
{
    match w {
        [a, b, ..] if between(lo, hi, *a) && alphabet::is_digit(*b) => 2,
        [a, ..] if between(lo, hi, *a) => 1,
        _ => 0,
    }
}

// The first digit of an hour, for a greatest one.
fn tens(most: usize, a: u8) -> bool
    ensures { result ≡ tens most a }
{
    alphabet::is_digit(a) && shape::one(a) * 10 <= most
}

// The second digit of an hour, behind its first.
fn units(most: usize, a: u8, b: u8) -> bool
    ensures { result ≡ units most a b }
{
    alphabet::is_digit(b) && shape::one(a) * 10 + shape::one(b) <= most
}

// The place of a time that is none, for a greatest hour.
#[tactic(auto, unfolding(crate::specs::Parts::time_place))]
pub fn time_place(most: usize, w: &[u8]) -> usize
    ensures { result ≡ time_place most w.now }
{
    match w {
        [a, b, rest @ ..] if tens(most, *a) && units(most, *a, *b) => 2
            + two_digits(b'0', b'5', rest),
        [a, ..] if tens(most, *a) => 1,
        _ => 0,
    }
}

// The place of so many bytes of a kind and a time behind them.
pub fn time_behind(k: Kind, m: usize, most: usize, w: &[u8]) -> usize
    ensures { result ≡ fixed_place (of_kind k) m (time_place most) w.now }
{
    let n = front_of(k, w);
    if n < m {
        return n;
    }
    m + time_place(most, &w[m..])
}
