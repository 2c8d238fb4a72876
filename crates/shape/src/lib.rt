// Numbers, times and forms of fixed length.
#![tactic(auto)]

ghost use Rattle.std.specs.Prelude.{◌≡◌, ℕ, ◌+◌, ◌-◌, ◌*◌, ◌^◌, ◌<◌, ◌≤◌, length, take, drop, is_some};
ghost use Rattle.alphabet.specs.Alphabet.{one_of};
ghost use Rattle.text.specs.Words.{split};
ghost use Rattle.shape.specs.Numbers.{value};
ghost use Rattle.shape.specs.Shape.{in_class, fits as fitting, any as any_of};
ghost use Rattle.shape.specs.Time.{hours, minutes, time_fits, time_minutes, time_read, clock_read, elapsed_read};

// Whether b is one of the bytes of a set.
pub fn one_of(b: u8, set: &[u8]) -> bool
    ensures { result ≡ one_of b set.now }
{
    set.contains(&b)
}

// Whether b may stand where a shape has t.
#[tactic(auto, unfolding(crate::specs::Shape::letters), using(alphabet::proofs::Classes::octal_digits))]
fn in_class(t: u8, b: u8) -> bool
    ensures { result ≡ in_class t b }
{
    if alphabet::is_digit(t) {
        return alphabet::is_digit(b);
    }
    match t {
        b'n' => matches!(b, b'N' | b'S'),
        b'e' => matches!(b, b'E' | b'W'),
        b'k' => matches!(b, b'K' | b'N'),
        b'f' => matches!(b, b'F' | b'A'),
        b's' => matches!(b, b'S' | b'M'),
        b'o' => alphabet::is_octal(b),
        _ => b == t,
    }
}

// Whether w fits a shape, given byte for byte.
pub fn fits(t: &[u8], w: &[u8]) -> bool
    ensures { result ≡ fitting t.now w.now }
{
    if t.len() != w.len() {
        return false;
    }
    // By index: over a zip of the two, seven bytes took 137 instructions, and so 123.
    for i in 0..t.len() {
        if !in_class(t[i], w[i]) {
            return false;
        }
    }
    true
}

// Whether w fits one of a list of shapes, which have one space between them.
pub fn any(list: &[u8], w: &[u8]) -> bool
    ensures { result ≡ any_of (split 32 list.now) w.now }
{
    list.split(|&b| b == b' ').any(|t| fits(t, w))
}

// The number of one digit; 0 for a byte below the digits, as `value` has it.
pub fn one(b: u8) -> usize
    ensures { (result ≡ b - 48) × (result < 256) }
{
    b.saturating_sub(b'0') as usize
}

// The number of a few digits.
fn number(digits: &[u8]) -> usize
    requires { length digits.now ≤ 4 }
    ensures value { result ≡ value digits.now }
    ensures bound { result + 23 ≤ 23 * 10 ^ length digits.now }
{
    let mut n = 0;
    for &b in digits {
        n = n * 10 + one(b);
    }
    n
}

// The number of the two digits at i and behind.
pub fn two(w: &[u8], i: usize) -> usize
    requires { i + 1 < length w.now }
    ensures { (result ≡ value (take 2 (drop i w.now))) × (result < 4096) }
{
    number(&w[i..i + 2])
}

// The number of the three digits at i and behind.
pub fn three(w: &[u8], i: usize) -> usize
    requires { i + 2 < length w.now }
    ensures { (result ≡ value (take 3 (drop i w.now))) × (result < 65536) }
{
    number(&w[i..i + 3])
}

// The number of the four digits at i and behind.
pub fn four(w: &[u8], i: usize) -> usize
    requires { i + 3 < length w.now }
    ensures { (result ≡ value (take 4 (drop i w.now))) × (result < 1048576) }
{
    number(&w[i..i + 4])
}

// A time of day, as the minute of the day.
#[derive(Clone, Copy)]
pub struct Clock(pub u16);

// An elapsed time, in minutes.
#[derive(Clone, Copy)]
pub struct Elapsed(pub u16);

pub const CLOCK_HOURS: usize = 23;

pub const ELAPSED_HOURS: usize = 99;

// Whether w is four digits, hours of at most so many and minutes of at most 59.
fn is_time(most: usize, w: &[u8]) -> bool
    ensures { result ≡ time_fits most w.now }
{
    if w.len() != 4 {
        return false;
    }
    if !text::all_of(text::Kind::Digit, w) {
        return false;
    }
    if most < two(w, 0) {
        return false;
    }
    two(w, 2) <= 59
}

// The minutes of four digits.
fn minutes_of(w: &[u8]) -> u16
    requires { (length w.now ≡ 4) × (hours w.now ≤ 99) × (minutes w.now ≤ 59) }
    ensures { result ≡ time_minutes w.now }
{
    let hours = two(w, 0);
    let minutes = two(w, 2);
    (hours * 60 + minutes) as u16
}

// The minutes that w spells with hours of at most so many, if it does.
fn read_minutes(most: usize, w: &[u8]) -> Option<u16>
    requires { most ≤ 99 }
    ensures { result ≡ time_read most w.now }
{
    if is_time(most, w) {
        Some(minutes_of(w))
    } else {
        None
    }
}

impl Clock {
    // The time of day that w spells, if it does.
    pub fn read(w: &[u8]) -> Option<Clock>
        ensures { result ≡ clock_read w.now }
    {
        read_minutes(CLOCK_HOURS, w).map(Clock)
    }

    // Whether a time of day was read: an elapsed time in its place does not compile.
    pub fn is_time_of_day(read: Option<Clock>) -> bool
        ensures { result ≡ is_some read }
    {
        read.is_some()
    }
}

impl Elapsed {
    // The elapsed time that w spells, if it does.
    pub fn read(w: &[u8]) -> Option<Elapsed>
        ensures { result ≡ elapsed_read w.now }
    {
        read_minutes(ELAPSED_HOURS, w).map(Elapsed)
    }

    // Whether an elapsed time was read: a time of day in its place does not compile.
    pub fn is_elapsed(read: Option<Elapsed>) -> bool
        ensures { result ≡ is_some read }
    {
        read.is_some()
    }
}
