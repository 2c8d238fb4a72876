// White space reduced into a scratch, and the places of the hyphens in a message as sent.
#![tactic(auto)]

ghost use Rattle.std.specs.Prelude.{◌≡◌, ℕ, ◌+◌, ◌-◌, ◌≤◌, ◌<◌, length, take, drop, false};
ghost use Rattle.text.specs.Lent.{front};
ghost use Rattle.text.specs.Words.{same};
ghost use Rattle.space.specs.Reduced.{opens, closes, stands_for_run, reduced};
ghost use Rattle.space.specs.Part.{last_of, with_part};
ghost use Rattle.space.specs.Stays.{stays, all_stay, regular, all_regular};
ghost use Rattle.space.specs.Places.{counts_at, sent_from, sent_place};
ghost use Rattle.space.specs.Hyphens.{hyphens, place_of_hyphen};

#[tactic(auto, unfolding(crate::specs::Reduced::opens))]
fn is_opening(b: u8) -> bool
    ensures { result ≡ opens b }
{
    matches!(b, b'(' | b'-')
}

#[tactic(auto, unfolding(crate::specs::Reduced::closes))]
fn is_closing(b: u8) -> bool
    ensures { result ≡ closes b }
{
    matches!(b, b'-' | b')')
}

// The last byte, or 0 where there is none, as the definition `last_of` has it.
fn last_of(s: &[u8]) -> u8
    ensures { result ≡ last_of s.now }
{
    s.last().copied().unwrap_or(0)
}

// Whether a byte of white space is the one that stands for its run, by what is behind it and by the last byte before the run.
#[tactic(auto, unfolding(crate::specs::Reduced::stands_for_run))]
fn stands_for_run(behind: &[u8], last: u8) -> bool
    ensures { result ≡ stands_for_run (opens last) behind.now }
{
    match behind.first() {
        Some(&c) => !alphabet::is_white(c) && (is_opening(last) || !is_closing(c)),
        None => true,
    }
}

// Writes into `buf`, from `at` on, what is left of the bytes of `msg` from `from` up to `to`, and returns where it ends; the bytes behind it stay.
fn reduce_part(msg: &[u8], from: usize, to: usize, buf: &mut [u8], at: usize) -> usize
    requires { (from ≤ to) × (to ≤ length msg.now) × (at + (to - from) ≤ length buf.old) }
    ensures value { result ≡ length (with_part (take at buf.old) (to - from) (drop from msg.now)) }
    ensures buf_after { buf.new ≡ front (with_part (take at buf.old) (to - from) (drop from msg.now)) buf.old }
{
    let mut last = last_of(&buf[..at]);
    let mut n = at;
    for i in from..to {
        let b = msg[i];
        if alphabet::is_white(b) {
            if stands_for_run(&msg[i + 1..], last) {
                buf[n] = b' ';
                n += 1;
            }
        } else {
            buf[n] = b;
            n += 1;
            last = b;
        }
    }
    n
}

// Writes `msg` reduced at the front of `buf`, and returns how many bytes that is; the bytes behind it stay. Block by block: one of
// regular bytes is copied at once.
pub fn reduce(msg: &[u8], buf: &mut [u8]) -> usize
    requires { length msg.now ≤ length buf.old }
    ensures { (result ≡ length (reduced msg.now)) × (buf.new ≡ front (reduced msg.now) buf.old) }
{
    let blocks = msg.len().saturating_sub(1) / 16;
    let mut n = 0;
    // Not over chunks: a block is looked at with the byte behind it.
    for k in 0..blocks {
        let from = 16 * k;
        let to = from + 16;
        if all_regular(&msg[from..to + 1]) {
            n += text::put(&msg[from..to], &mut buf[n..]);
        } else {
            n = reduce_part(msg, from, to, buf, n);
        }
    }
    reduce_part(msg, 16 * blocks, msg.len(), buf, n)
}

// Whether the reduction leaves b as it is, by the byte before it and by what is behind it.
fn byte_stays(last: u8, b: u8, behind: &[u8]) -> bool
    ensures { result ≡ stays last b behind.now }
{
    if b == b' ' {
        return stands_for_run(behind, last);
    }
    !alphabet::is_white(b)
}

// Whether it leaves each byte of s as it is, by the byte ahead of s.
fn all_stay(ahead: u8, s: &[u8]) -> bool
    ensures { result ≡ all_stay ahead s.now }
{
    let mut last = ahead;
    for i in 0..s.len() {
        if !byte_stays(last, s[i], &s[i + 1..]) {
            return false;
        }
        last = s[i];
    }
    true
}

// Whether b just before c is sure to be left as it is, whatever stands before it. No branch: it is worked out for 16 bytes at a time.
fn is_regular(b: u8, c: u8) -> bool
    ensures { result ≡ regular b c }
{
    let ends = (c <= b' ') | (c == b'-') | (c == b')');
    !((b < b' ') | ((b == b' ') & ends))
}

// Whether each byte but the last is.
fn all_regular(s: &[u8]) -> bool
    ensures { result ≡ all_regular s.now }
{
    let mut fine = true;
    for i in 1..s.len() {
        fine = fine & is_regular(s[i - 1], s[i]);
    }
    fine
}

// Whether a message is its own reduction: block by block, as long as that tells, and then byte by byte.
pub fn is_reduced(msg: &[u8]) -> bool
    ensures { result ≡ same (reduced msg.now) msg.now }
{
    let blocks = msg.len().saturating_sub(1) / 16;
    let mut last = 0;
    for k in 0..blocks {
        let from = 16 * k;
        let to = from + 16;
        if !all_regular(&msg[from..to + 1]) {
            return all_stay(last, &msg[from..]);
        }
        last = msg[to - 1];
    }
    all_stay(last, &msg[16 * blocks..])
}

// How many of at most 255 bytes are hyphens. Counted in a byte, many at a time.
fn few_hyphens(s: &[u8]) -> u8
    requires { length s.now ≤ 255 }
    ensures { result ≡ hyphens s.now }
{
    let mut n = 0;
    for &b in s {
        if b == b'-' {
            n += 1;
        }
    }
    n
}

// In parts of 224 bytes, seven times 32.
pub fn count_hyphens(msg: &[u8]) -> usize
    ensures { result ≡ hyphens msg.now }
{
    let parts = msg.len() / 224;
    let mut n = 0;
    for k in 0..parts {
        let from = 224 * k;
        n += few_hyphens(&msg[from..from + 224]) as usize;
    }
    n + few_hyphens(&msg[224 * parts..]) as usize
}

// The place of the j-th hyphen, counted from 1; 0 for 0, the length where there are fewer.
pub fn place_of_hyphen(msg: &[u8], j: usize) -> usize
    ensures { result ≡ place_of_hyphen j msg.now }
{
    if j == 0 {
        return 0;
    }
    let mut left = j - 1;
    for i in 0..msg.len() {
        if msg[i] == b'-' {
            if left == 0 {
                return i;
            }
            left -= 1;
        }
    }
    msg.len()
}

// Whether the byte at i counts: white space directly behind white space does not. What stands before `at` plays no part.
fn counts(msg: &[u8], at: usize, i: usize) -> bool
    requires { (at ≤ i) × (i < length msg.now) }
    ensures { result ≡ counts_at msg.now at i }
{
    i == at || !alphabet::is_white(msg[i - 1]) || !alphabet::is_white(msg[i])
}

// The place from `at` on that has n bytes before it that count.
fn sent_from(msg: &[u8], at: usize, n: usize) -> usize
    requires { at ≤ length msg.now }
    ensures { result ≡ at + sent_from false n (drop at msg.now) }
{
    let mut left = n;
    for i in at..msg.len() {
        if counts(msg, at, i) {
            if left == 0 {
                return i;
            }
            left -= 1;
        }
    }
    msg.len()
}

// The place in a message as sent of place n in the content of its field j.
pub fn place_sent(msg: &[u8], j: usize, n: usize) -> usize
    ensures { result ≡ sent_place j n msg.now }
{
    let h = place_of_hyphen(msg, j);
    if h < msg.len() {
        return sent_from(msg, h + 1, n);
    }
    h
}
