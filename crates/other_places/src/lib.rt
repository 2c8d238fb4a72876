// The place of a content of field 18 that does not fit.
#![tactic(auto)]

ghost use Rattle.std.specs.Prelude.{◌≡◌, [], ◌++◌, length, drop};
ghost use Rattle.alphabet.specs.Alphabet.{one_of};
ghost use Rattle.text.specs.Words.{before, leading};
ghost use Rattle.places.specs.Parts.{passes};
ghost use Rattle.entries.specs.Entries.{entry_place};
ghost use Rattle.other.specs.Rules.{date, base};
ghost use Rattle.other.specs.Stated.{stated};
ghost use Rattle.other.specs.declared.Rule.TheVariants.{Status, Approvals, Selcal, Address, Free};
ghost use Rattle.other_places.specs.Places.{date_go, rule_place, keyed, later_place, keys_place};
ghost use Rattle.other_places.specs.Places.{items, signs_time, more_place, items_word, items_place, place18};

use other::{Edition, Rule};
use text::Kind;

// Whether some bytes are a date with what six others have behind as many.
fn date_with(p: &[u8], others: &[u8]) -> bool
    requires { length others.now ≡ 6 }
    ensures { result ≡ date (p.now ++ drop (length p.now) others.now) }
{
    if p.len() > 6 {
        return false;
    }
    // A fixed room: nothing is allocated.
    let mut scratch = [0u8; 6];
    text::put(others, &mut scratch);
    text::put(p, &mut scratch);
    other::word_fits(Rule::Day, &scratch)
}

// Whether some bytes can go on as a date.
fn date_go(p: &[u8]) -> bool
    ensures { result ≡ date_go p.now }
{
    date_with(p, b"000101") || date_with(p, b"000100")
}

// DOF: the place of a date that is none.
fn date_place(w: &[u8]) -> usize
    ensures { result ≡ passes date_go [] w.now }
{
    places::passes(w, date_go)
}

// EET, DLE: the place of 2 to 11 signs and an elapsed time, the largest.
fn timed_place(w: &[u8]) -> usize
    ensures { result ≡ signs_time 10 w.now }
{
    let mut best = 0;
    for n in 0..10 {
        best = places::time_behind(Kind::Sign, n + 2, shape::ELAPSED_HOURS, w).max(best);
    }
    best
}

// SEL: the place of four letters.
fn selcal_place(w: &[u8]) -> usize
    ensures { result ≡ rule_place Selcal w.now }
{
    places::run_place(4, Kind::Letter, w)
}

// How many bytes at the front are of a set.
fn front_in(w: &[u8], set: &[u8]) -> usize
    ensures { result ≡ leading (λ b. one_of b set.now) w.now }
{
    w.iter()
        .position(|&b| !shape::one_of(b, set))
        .unwrap_or(w.len())
}

// CODE: the place of six of 0..9 A..F.
fn address_place(w: &[u8]) -> usize
    ensures { result ≡ rule_place Address w.now }
{
    front_in(w, b"0123456789ABCDEF").min(6)
}

// Any text word.
fn text_place(w: &[u8]) -> usize
    ensures { result ≡ rule_place Free w.now }
{
    places::front_of(Kind::Text, w)
}

// STS: how far one of these is followed.
fn status_place(w: &[u8]) -> usize
    ensures { result ≡ rule_place Status w.now }
{
    entries::any_of(
        b"ALTRV ATFMX FFR FLTCK HAZMAT HEAD HOSP HUM MARSA MEDEVAC NONRVSM SAR STATE",
        w,
    )
}

// PBN: the place of codes, of two bytes each, at most 8.
fn approvals_place(w: &[u8]) -> usize
    ensures { result ≡ rule_place Approvals w.now }
{
    code_places::codes_place(&other::approvals(), w)
}

// The place of a word that may not stand under a key of this rule.
fn rule_place(rule: Rule, w: &[u8]) -> usize
    ensures { result ≡ rule_place rule w.now }
{
    match rule {
        Rule::Status => status_place(w),
        Rule::Approvals => approvals_place(w),
        Rule::Day => date_place(w),
        Rule::Timed => timed_place(w),
        Rule::Selcal => selcal_place(w),
        Rule::Address => address_place(w),
        Rule::Free => text_place(w),
    }
}

// The place of a word as one more of the key at place k.
fn more_place(edition: Edition, k: usize, w: &[u8]) -> usize
    ensures { result ≡ more_place (stated edition.entry) k w.now }
{
    if k == 0 {
        return 0;
    }
    let rule = edition.rule(k);
    if other::is_single(rule) {
        return 0;
    }
    rule_place(rule, w)
}

// The place of a word as a key, an oblique, and a word of the key's rule.
fn key_place(key: &[u8], rule: Rule, w: &[u8]) -> usize
    ensures { result ≡ entry_place (keyed key.now rule) w.now }
{
    places::cut_place(
        b'/',
        |k| text::same_bytes(key, k),
        |k| entries::matched_of(key, k),
        |v| rule_place(rule, v),
        w,
    )
}

// The same for the key at place j, which a cell holds, where it stands behind the one at place k.
fn cell_place(edition: Edition, k: usize, j: usize, cell: &[u8], w: &[u8]) -> usize
    ensures { result ≡ later_place (stated edition.entry) k j (before 32 cell.now) w.now }
{
    if j <= k {
        return 0;
    }
    let e = text::find(cell, 0, b' ');
    key_place(&cell[..e], edition.rule(j), w)
}

// The place of a word as one of the keys behind the one at place k, with its first word.
fn keys_place(edition: Edition, k: usize, w: &[u8]) -> usize
    ensures { result ≡ keys_place (stated edition.entry) k w.now }
{
    let mut best = 0usize;
    for i in 0..edition.keys.len() / 4 {
        let at = 4 * i;
        best = best.max(cell_place(edition, k, i + 1, &edition.keys[at..at + 4], w));
    }
    best
}

// The place of a word behind an item of the key at place k, or of the first word, where k is 0.
fn item_place(edition: Edition, k: usize, w: &[u8]) -> usize
    ensures { result ≡ items_word (stated edition.entry) k w.now }
{
    more_place(edition, k, w).max(keys_place(edition, k, w))
}

// The place of the key that a word belongs to, behind an item of the key at place k, if the word may stand there.
fn rank_after(edition: Edition, k: usize, w: &[u8]) -> Option<usize>
    ensures { result ≡ (items (stated edition.entry)).after k w.now }
{
    let o = text::find(w, 0, b'/');
    if o == w.len() {
        if k == 0 {
            return None;
        }
        if other::more_fits(edition.rule(k), w) {
            return Some(k);
        }
        return None;
    }
    let r = text::rank_in_cells(&w[..o], 4, edition.keys)?;
    if r <= k {
        return None;
    }
    if !other::word_fits(edition.rule(r), &w[o + 1..]) {
        return None;
    }
    Some(r)
}

// Whether a word may stand behind an item of the key at place k.
fn goes_on(edition: Edition, k: usize) -> bool
    ensures { result ≡ (items (stated edition.entry)).goes k }
{
    (0 < k && !other::is_single(edition.rule(k))) || k < edition.keys.len() / 4
}

// The place of items that do not fit, in an edition.
fn place_edition(edition: Edition, s: &[u8]) -> usize
    ensures { result ≡ items_place (stated edition.entry) s.now }
{
    places::words_place(
        0,
        |k, w| rank_after(edition, k, w),
        |k| goes_on(edition, k),
        |k, w| item_place(edition, k, w),
        s,
    )
}

// The place of a content of field 18 that does not fit.
pub fn place_field18(s: &[u8]) -> usize
    ensures { result ≡ place18 base s.now }
{
    entries::matched_of(b"0", s).max(place_edition(Edition::base(), s))
}
