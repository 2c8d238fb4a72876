// The fields in force: a plan's, or a CHG's where its entries name them.
#![tactic(auto)]

ghost use Rattle.std.specs.Prelude.{◌≡◌, ℕ, ◌≤◌, ◌<◌, length, drop};
ghost use Rattle.std.specs.Iterator.{YieldsFirstRef, item_count};
ghost use Rattle.space.specs.Hyphens.{behind_hyphen};
ghost use Rattle.force.specs.InForce.{AtEntries, FoundIn, bare, entries_left};

use kinds::Form;
use text::Cursor;

// Bytes of a text or a message: the first, and behind the last.
#[derive(Clone, Copy)]
pub struct Span {
    pub from: usize,
    pub to: usize,
}

// The cursor at field j of a text; at the end where there are fewer.
pub fn seek(s: &[u8], j: usize) -> Cursor
    ensures { (result.at ≤ length s.now) × (drop result.at s.now ≡ behind_hyphen j s.now) }
{
    message::onward(s, Cursor { at: 0 }, j)
}

// The cursor at a CHG's first entry.
pub fn first_entry(chg: &[u8]) -> Cursor
    ensures { AtEntries chg.now result.at }
{
    seek(chg, kinds::FIRST_ENTRY)
}

// The entries of a CHG, from the first of the bytes that are left; None behind the last. The hyphens are looked for by blocks of 16 bytes.
#[derive(Drop)]
struct Entries<'a> {
    left: Option<&'a [u8]>,
}

impl<'a> Iterator for Entries<'a> {
    type Item = &'a [u8];

    ghost next_gives = { YieldsFirstRef entries_left };

    ghost remaining = { item_count entries_left };

    fn next(&mut self) -> Option<&'a [u8]> {
        let text = self.left?;
        let e = text::find_far(text, 0, b'-');
        self.left = if e < text.len() {
            Some(&text[e + 1..])
        } else {
            None
        };
        Some(&text[..e])
    }
}

// Where the content of the first entry stands that names the field of rank k, where the entries begin at `first`.
fn find_entry(chg: &[u8], first: Cursor, k: usize) -> Option<Span>
    requires { (0 < k) × AtEntries chg.now first.at }
    ensures { FoundIn chg.now k result }
{
    let mut at = first.at;
    let rest = &chg[at..];
    for entry in (Entries { left: Some(rest) }) {
        let e = at + entry.len();
        if forms::rank_in(Form::Field22, entry) == k {
            let content = Cursor { at: 0 }.next(entry, b'/');
            return Some(Span {
                from: at + content.at,
                to: e,
            });
        }
        at = e + 1;
    }
    None
}

// Where a CHG has a content for the field of rank k, where its entries begin at `first`. Rank 0 is field 3, which no entry names.
pub fn named_from(chg: &[u8], first: Cursor, k: usize) -> Option<Span>
    requires { AtEntries chg.now first.at }
    ensures { FoundIn chg.now k result }
{
    if k == 0 {
        return None;
    }
    find_entry(chg, first, k)
}

// Where a CHG has a content for the field of rank k.
pub fn named(chg: &[u8], k: usize) -> Option<Span>
    ensures { FoundIn chg.now k result }
{
    named_from(chg, first_entry(chg), k)
}

// Whether a content for the field of rank k is a destination alone.
pub fn is_bare(k: usize, content: &[u8]) -> bool
    ensures { result ≡ bare k content.now }
{
    if k != kinds::PLAN_16 {
        return false;
    }
    aerodromes::fits_field16(content)
}
