// Codes joined without spaces: a byte with the digit behind it, where there is one.
#![tactic(auto)]

ghost use Rattle.std.specs.Prelude.{◌≡◌, ℕ, ◌+◌, ◌-◌, ◌*◌, ◌≤◌, ◌<◌, true, [], ◌∷◌, length, leb, ◌&&◌, take, drop, get_or};
ghost use Rattle.std.specs.Iterator.{YieldsFirstRef, item_count};
ghost use Rattle.text.specs.Words.{before, elem, rank, rank_from, cells};
ghost use Rattle.codes.specs.Codes.{codes, codes_fit, is_index};

// The codes of a text, from the first byte of `rest` on.
#[derive(Drop)]
struct Codes<'a> {
    rest: &'a [u8],
}

impl<'a> Iterator for Codes<'a> {
    type Item = &'a [u8];

    ghost next_gives = { YieldsFirstRef (λ s. codes s.rest.now) };

    ghost remaining = { item_count (λ s. codes s.rest.now) };

    fn next(&mut self) -> Option<&'a [u8]> {
        let length = match self.rest {
            [] => return None,
            [_, digit, ..] if alphabet::is_digit(*digit) => 2,
            _ => 1,
        };
        let (code, rest) = self.rest.split_at(length);
        self.rest = rest;
        Some(code)
    }
}

// The place of the cell b c in a list, counted from 1 and looked for behind the first f cells; 0 where it has none. A number, as the definition `rank` is:
// ranks are marks in `fit`, and an Option would be taken apart again for each code.
fn cell_behind(f: usize, b: u8, c: u8, list: &[u8]) -> usize
    requires { (f ≤ 255) × (b ≡ 32 → ⊥) }
    ensures { result ≡ rank_from (f + 1) (before 32 (b ∷ (c ∷ []))) (cells 2 (drop (2 * f) list.now)) }
{
    for k in f..list.len() / 2 {
        if list[2 * k] == b && list[2 * k + 1] == c {
            return k + 1;
        }
    }
    0
}

// Whether w is one of the codes of s.
fn comes(w: &[u8], s: &[u8]) -> bool
    ensures { result ≡ elem w.now (codes s.now) }
{
    Codes { rest: s }.any(|v| w == v)
}

// A list of codes in cells of two bytes, with its index: how many codes stand before the first that begins with A, B, C, .. Z, a byte for each; where none
// begins with it, all of them.
#[derive(Clone, Copy)]
pub struct CodeList<'a> {
    pub first: &'a [u8; 26],
    pub list: &'a [u8],
    pub ghost indexed: { is_index first.now (cells 2 list.now) ≡ true },
}

impl<'a> CodeList<'a> {
    // The place of a code, counted from 1; 0 where it has none. A code that begins with a letter is looked for by the index; none begins with a space, since
    // the word of a cell has none.
    fn rank(&self, w: &[u8]) -> usize
        requires { codes w.now ≡ w.now ∷ [] }
        ensures { result ≡ rank w.now (cells 2 self.now.list.now) }
    {
        let b = w[0];
        let d = w.get(1).copied().unwrap_or(b' ');
        if alphabet::is_letter(b) {
            let before = usize::from(self.first[usize::from(b - b'A')]);
            return cell_behind(before, b, d, self.list);
        }
        if b == b' ' {
            return 0;
        }
        cell_behind(0, b, d, self.list)
    }

    // Whether each code is in the list, and none comes twice. `seen` marks the ranks of the codes before, and a code of a higher rank is looked for among those
    // behind it.
    pub fn fit(&self, s: &[u8]) -> bool
        ensures { result ≡ codes_fit (cells 2 self.now.list.now) (codes s.now) }
    {
        let mut seen = [false; 64];
        let mut codes = Codes { rest: s };
        // Not a `for`: the iterator's rest is asked for inside.
        while let Some(w) = codes.next() {
            let rank = self.rank(w);
            if rank == 0 {
                return false;
            }
            if rank < 64 {
                if seen[rank] {
                    return false;
                }
                seen[rank] = true;
            } else if comes(w, codes.rest) {
                return false;
            }
        }
        true
    }

    // Whether there are one or more codes, in at most so many bytes, and they fit.
    pub fn fit_within(&self, most: usize, s: &[u8]) -> bool
        ensures { result ≡ (leb 1 (length s.now) && (leb (length s.now) most && codes_fit (cells 2 self.now.list.now) (codes s.now))) }
    {
        (1..=most).contains(&s.len()) && self.fit(s)
    }
}

// One or more codes of a list, none twice, in at most so many bytes.
#[derive(Clone, Copy)]
pub struct SomeCodes<'a> {
    pub codes: CodeList<'a>,
    pub most: u8,
}

impl<'a> SomeCodes<'a> {
    // Whether they fit.
    pub fn fit(&self, s: &[u8]) -> bool
        ensures { result ≡ (leb 1 (length s.now) && (leb (length s.now) self.now.most && codes_fit (cells 2 self.now.codes.list.now) (codes s.now))) }
    {
        self.codes.fit_within(usize::from(self.most), s)
    }
}

// As `CodeList::fit`, by a list and an index that lie apart; it stands for docs/PROMISES.md, which names it.
pub fn codes_fit_by(first: &[u8; 26], list: &[u8], s: &[u8]) -> bool
    requires { is_index first.now (cells 2 list.now) ≡ true }
    ensures { result ≡ codes_fit (cells 2 list.now) (codes s.now) }
{
    CodeList { first, list }.fit(s)
}
