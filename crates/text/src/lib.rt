// Cutting, comparing and copying bytes.
#![tactic(auto)]

ghost use Rattle.std.specs.Prelude.{◌≡◌, ℕ, ◌+◌, ◌≤◌, ◌<◌, ◌&&◌, leb, length, drop, get_or};
ghost use Rattle.text.specs.Words.{split, up_to, before, leading, all, free, text_word, same, elem, rank, rank_from, rank_given, cells};
ghost use Rattle.text.specs.Kinds.{of_kind};
ghost use Rattle.text.specs.Places.{Stepped};
ghost use Rattle.text.specs.Lent.{front};

// The place of the first c at or after `from`, or the length where there is none.
pub fn find(s: &[u8], from: usize, c: u8) -> usize
    requires { from ≤ length s.now }
    ensures value { result ≡ from + up_to c (drop from s.now) }
    ensures lower_bound { (from ≤ result) × (result ≤ length s.now) }
{
    let rest = &s[from..];
    from + rest.iter().position(|&b| b == c).unwrap_or(rest.len())
}

// Whether c stands nowhere in s. No branch: of a part whose length the code says it is worked out for all bytes at a time.
pub fn is_free(c: u8, s: &[u8]) -> bool
    ensures { result ≡ free c s.now }
{
    s.iter().fold(true, |fine, &b| fine & (b != c))
}

// As find, over blocks of 16 bytes as long as none of them is c: for what may be far away.
pub fn find_far(s: &[u8], from: usize, c: u8) -> usize
    requires { from ≤ length s.now }
    ensures value { result ≡ from + up_to c (drop from s.now) }
    ensures lower_bound { (from ≤ result) × (result ≤ length s.now) }
{
    let (blocks, _) = s[from..].as_chunks::<16>();
    let free = blocks
        .iter()
        .position(|block| !is_free(c, block))
        .unwrap_or(blocks.len());
    find(s, from + 16 * free, c)
}

// What a byte may be.
#[derive(Clone, Copy)]
pub enum Kind {
    Letter,
    Digit,
    Sign,
    Text,
}

pub fn is_kind(k: Kind, b: u8) -> bool
    ensures { result ≡ of_kind k b }
{
    match k {
        Kind::Letter => alphabet::is_letter(b),
        Kind::Digit => alphabet::is_digit(b),
        Kind::Sign => alphabet::is_sign(b),
        Kind::Text => alphabet::is_text(b),
    }
}

// Whether each byte is of a kind.
pub fn all_of(k: Kind, w: &[u8]) -> bool
    ensures { result ≡ all (of_kind k) w.now }
{
    w.iter().all(|&b| is_kind(k, b))
}

// Whether w is bytes of a kind, at least and at most so many.
pub fn some_of(k: Kind, least: usize, most: usize, w: &[u8]) -> bool
    ensures { result ≡ (leb least (length w.now) && (leb (length w.now) most && all (of_kind k) w.now)) }
{
    if w.len() < least {
        return false;
    }
    if most < w.len() {
        return false;
    }
    all_of(k, w)
}

// Where the bytes of a kind end that begin at `from`: the place of the first that is none, or the length.
pub fn end_of(k: Kind, s: &[u8], from: usize) -> usize
    requires { from ≤ length s.now }
    ensures value { result ≡ from + leading (of_kind k) (drop from s.now) }
    ensures lower_bound { (from ≤ result) × (result ≤ length s.now) }
{
    let rest = &s[from..];
    from + rest
        .iter()
        .position(|&b| !is_kind(k, b))
        .unwrap_or(rest.len())
}

// Whether w is a text word.
pub fn is_text_word(w: &[u8]) -> bool
    ensures { result ≡ text_word w.now }
{
    !w.is_empty() && all_of(Kind::Text, w)
}

pub fn same_bytes(a: &[u8], b: &[u8]) -> bool
    ensures { result ≡ same a.now b.now }
{
    a == b
}

// The place of w in a list of words with one space between them, counted from 1, if it has one.
pub fn rank_of(w: &[u8], list: &[u8]) -> Option<usize>
    ensures { result ≡ rank_given (rank w.now (split 32 list.now)) }
{
    list.split(|&b| b == b' ')
        .position(|v| w == v)
        .map(|k| k + 1)
}

// Whether w is one of the words of a list, which have one space between them.
pub fn in_list(w: &[u8], list: &[u8]) -> bool
    ensures { result ≡ elem w.now (split 32 list.now) }
{
    list.split(|&b| b == b' ').any(|v| w == v)
}

// What a cell that holds w begins with.
fn first_in_cell(w: &[u8]) -> u8
    ensures { result ≡ get_or w.now 0 32 }
{
    w.first().copied().unwrap_or(b' ')
}

// Whether a cell holds w, filled up with spaces: byte by byte, as words of one to four bytes need.
#[inline(always)]
fn in_cell(w: &[u8], cell: &[u8]) -> bool
    ensures { result ≡ same w.now (before 32 cell.now) }
{
    if cell.len() < w.len() {
        return false;
    }
    w.iter().zip(cell).all(|(a, b)| a == b && *b != b' ')
        && cell.get(w.len()).copied().unwrap_or(b' ') == b' '
}

// The place of w in a list in cells of so many bytes, counted from 1 and looked for behind the first `last` cells, if it has one there. Most cells that do not
// hold it are known by their first byte. Inlined, so that a list that is known when it is compiled is told by a few comparisons.
#[inline(always)]
pub fn rank_behind(w: &[u8], width: usize, list: &[u8], last: usize) -> Option<usize>
    requires { 0 < width }
    ensures { result ≡ rank_given (rank_from (last + 1) w.now (drop last (cells width list.now))) }
{
    let first = first_in_cell(w);
    let n = list.len() / width;
    for k in last..n {
        let at = k * width;
        if list[at] == first && in_cell(w, &list[at..at + width]) {
            return Some(k + 1);
        }
    }
    None
}

// The place of w in such a list, if it has one.
#[inline(always)]
pub fn rank_in_cells(w: &[u8], width: usize, list: &[u8]) -> Option<usize>
    requires { 0 < width }
    ensures { result ≡ rank_given (rank w.now (cells width list.now)) }
{
    rank_behind(w, width, list, 0)
}

// Whether w is one of the words of a list in cells of so many bytes.
pub fn in_cells(w: &[u8], width: usize, list: &[u8]) -> bool
    requires { 0 < width }
    ensures { result ≡ elem w.now (cells width list.now) }
{
    rank_in_cells(w, width, list).is_some()
}

// A place in a text. Its pieces end at a byte c: words at the space, fields at the hyphen.
#[derive(Clone, Copy)]
pub struct Cursor {
    pub at: usize,
}

impl Cursor {
    // Where the piece ends: at the next c, or at the end of the text.
    pub fn end(self, s: &[u8], c: u8) -> usize
        requires { self.at ≤ length s.now }
        ensures value { result ≡ self.at + up_to c (drop self.at s.now) }
        ensures lower_bound { (self.at ≤ result) × (result ≤ length s.now) }
    {
        let at = self.at;
        find_far(s, at, c)
    }

    // Over the piece and the c that ends it.
    pub fn next(self, s: &[u8], c: u8) -> Cursor
        requires { self.at ≤ length s.now }
        ensures { Stepped c s.now self.at result.at }
    {
        let e = self.end(s, c);
        if e < s.len() {
            Cursor { at: e + 1 }
        } else {
            Cursor { at: e }
        }
    }

    // The piece, as a part of the text.
    pub fn part<'a>(self, s: &'a [u8], c: u8) -> &'a [u8]
        requires { self.at ≤ length s.now }
        ensures { result.now ≡ before c (drop self.at s.now) }
    {
        let at = self.at;
        let e = self.end(s, c);
        &s[at..e]
    }
}

// Writes `part` at the front of `out`; the bytes behind it stay.
pub fn put(part: &[u8], out: &mut [u8]) -> usize
    requires { length part.now ≤ length out.old }
    ensures { (result ≡ length part.now) × (out.new ≡ front part.now out.old) }
{
    // A loop: it becomes `memcpy`, and `copy_from_slice` a `memmove`, which the library would need from outside besides.
    for i in 0..part.len() {
        out[i] = part[i];
    }
    part.len()
}
