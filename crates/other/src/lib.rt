// Field 18, other information: `0` alone, or items.
#![tactic(auto)]

ghost use Rattle.std.specs.Prelude.{◌≡◌, MatchOption, true, [], ℕ, ◌+◌, ◌-◌, ◌≤◌, ◌<◌, eqb, length, take, drop, get_or};
ghost use Rattle.alphabet.specs.Alphabet.{one_of, text};
ghost use Rattle.text.specs.Words.{split, after, up_to, all, free, elem, cells};
ghost use Rattle.other.specs.Rules.{statuses, approvals, approved, days_in, date, elapsed_in, selcal, address, word_fits, single, more_fits};
ghost use Rattle.other.specs.Rules.{rule_in, rule_of, edition, sound_keys, base};
ghost use Rattle.other.specs.Plain.{plain, all_plain};
ghost use Rattle.other.specs.Cells.{approval_cells, approval_index, base_keys, base_marks};
ghost use Rattle.other.specs.Field18.{fit_from, fit_more, fits_in, fits18, has_key, words_under, words_from, Found};

use codes::{CodeList, SomeCodes};

// What the words under a key must be: `Free` is any text words.
#[derive(Clone, Copy)]
pub enum Rule {
    Status,
    Approvals,
    Day,
    Timed,
    Selcal,
    Address,
    Free,
}

// STS: one of these.
fn is_status(w: &[u8]) -> bool
    ensures { result ≡ elem w.now statuses }
{
    text::in_cells(
        w,
        8,
        b"ALTRV   ATFMX   FFR     FLTCK   HAZMAT  HEAD    HOSP    HUM     MARSA   MEDEVAC NONRVSM SAR     STATE   ",
    )
}

// PBN: 1 to 8 codes of two bytes, none twice.
#[tactic(auto, unfolding(crate::specs::Rules::approvals, crate::specs::Cells::approval_cells, crate::specs::Cells::approval_index))]
pub fn approvals() -> SomeCodes<'static>
    ensures value { (cells 2 result.codes.list.now ≡ approvals) × (result.most ≡ 16) }
    ensures bytes { (result.codes.list.now ≡ approval_cells) × (result.codes.first.now ≡ approval_index) }
{
    SomeCodes {
        codes: CodeList {
            first: b"\x00\x01\x07\x0b\x18\x18\x18\x18\x18\x18\x18\x0f\x18\x18\x10\x18\x18\x18\x14\x16\x18\x18\x18\x18\x18\x18",
            list: b"A1B1B2B3B4B5B6C1C2C3C4D1D2D3D4L1O1O2O3O4S1S2T1T2",
        },
        most: 16,
    }
}

fn is_approved(w: &[u8]) -> bool
    ensures { result ≡ approved w.now }
{
    approvals().fit(w)
}

const DAYS: [usize; 13] = [0, 31, 28, 31, 30, 31, 30, 31, 31, 30, 31, 30, 31];

// How many days month m of the year 2000 + y has.
fn days_in(y: usize, m: usize) -> usize
    ensures { result ≡ days_in y m }
{
    if m == 2 {
        if y % 4 == 0 { 29 } else { 28 }
    } else if m < 13 {
        DAYS[m]
    } else {
        0
    }
}

// DOF: a real date YYMMDD.
fn is_date(w: &[u8]) -> bool
    ensures { result ≡ date w.now }
{
    if !shape::fits(b"999999", w) {
        return false;
    }
    let day = shape::two(w, 4);
    if day < 1 {
        return false;
    }
    day <= days_in(shape::two(w, 0), shape::two(w, 2))
}

// EET, DLE: 6 to 15 signs, the last four an elapsed time; that time, if w is so.
fn elapsed_in(w: &[u8]) -> Option<shape::Elapsed>
    ensures { result ≡ elapsed_in w.now }
{
    if w.len() < 6 {
        return None;
    }
    if 15 < w.len() {
        return None;
    }
    if !text::all_of(text::Kind::Sign, w) {
        return None;
    }
    shape::Elapsed::read(&w[w.len() - 4..])
}

// SEL: 4 letters.
fn is_selcal(w: &[u8]) -> bool
    ensures { result ≡ selcal w.now }
{
    text::some_of(text::Kind::Letter, 4, 4, w)
}

// CODE: six of 0..9 A..F.
fn is_address(w: &[u8]) -> bool
    ensures { result ≡ address w.now }
{
    if w.len() != 6 {
        return false;
    }
    w.iter().all(|&b| shape::one_of(b, b"0123456789ABCDEF"))
}

// Whether w may stand under a key of this rule.
pub fn word_fits(rule: Rule, w: &[u8]) -> bool
    ensures { result ≡ word_fits rule w.now }
{
    match rule {
        Rule::Status => is_status(w),
        Rule::Approvals => is_approved(w),
        Rule::Day => is_date(w),
        Rule::Timed => shape::Elapsed::is_elapsed(elapsed_in(w)),
        Rule::Selcal => is_selcal(w),
        Rule::Address => is_address(w),
        Rule::Free => text::is_text_word(w),
    }
}

// Whether a key of this rule has one word only.
pub fn is_single(rule: Rule) -> bool
    ensures { result ≡ single rule }
{
    matches!(
        rule,
        Rule::Approvals | Rule::Day | Rule::Selcal | Rule::Address
    )
}

// Whether w may stand behind the first word.
pub fn more_fits(rule: Rule, w: &[u8]) -> bool
    ensures { result ≡ more_fits rule w.now }
{
    if is_single(rule) {
        return false;
    }
    word_fits(rule, w)
}

// The rule that a mark stands for.
fn rule_of(b: u8) -> Rule
    ensures { result ≡ rule_of b }
{
    match b {
        b'S' => Rule::Status,
        b'P' => Rule::Approvals,
        b'D' => Rule::Day,
        b'E' => Rule::Timed,
        b'L' => Rule::Selcal,
        b'H' => Rule::Address,
        _ => Rule::Free,
    }
}

// The rule of the key at place k, counted from 1; place 0 has the first key's rule.
pub fn rule_in(rules: &[u8], k: usize) -> Rule
    ensures { result ≡ rule_in (edition [] rules.now) k }
{
    match rules.get(k.saturating_sub(1)) {
        Some(b) => rule_of(*b),
        None => Rule::Free,
    }
}

// Whether a word ends at e: a space stands there, or the content is over.
fn word_ends(s: &[u8], e: usize) -> bool
    requires { e ≤ length s.now }
    ensures { result ≡ eqb (up_to 32 (drop e s.now)) 0 }
{
    if e == s.len() {
        return true;
    }
    s[e] == b' '
}

// Whether text bytes may stand under a key of this rule. A free rule asks no more of them than that there is one.
fn text_fits(rule: Rule, w: &[u8]) -> bool
    requires { all text w.now ≡ true }
    ensures { result ≡ word_fits rule w.now }
{
    if let Rule::Free = rule {
        return 0 < w.len();
    }
    word_fits(rule, w)
}

// Whether b just before c may stand among text words with one space between them. No branch: it is worked out for 16 bytes at a time. From + to : stand
// the digits and + , - . / : alone.
fn is_plain(b: u8, c: u8) -> bool
    ensures { result ≡ plain b c }
{
    let letter = (b'A' <= b) & (b <= b'Z');
    let middle = (b'+' <= b) & (b <= b':') & (b != b'-') & (b != b'/');
    let mark = (b == b'?') | (b == b'=') | (b == b'\'');
    let apart = (b == b' ') & (c != b' ');
    letter | middle | mark | apart
}

// Whether each byte but the last may. By places: as a fold over `windows(2)` a block takes an eighth more instructions.
fn all_plain(s: &[u8]) -> bool
    ensures { result ≡ all_plain s.now }
{
    let mut fine = true;
    for i in 1..s.len() {
        fine = fine & is_plain(s[i - 1], s[i]);
    }
    fine
}

// A place up to which each byte may, reached by blocks of 16 bytes. A loop over places: a block ends one byte behind where the next begins, and
// `windows(17).step_by(16)` takes nearly three times the instructions.
fn plain_to(s: &[u8], from: usize) -> usize
    requires { from ≤ length s.now }
    ensures s_value { all_plain (take (result + 1 - from) (drop from s.now)) ≡ true }
    ensures lower_bound { (from ≤ result) × (result ≤ length s.now) × (from < result → result < length s.now) }
{
    let mut i = from;
    while 16 < s.len() - i {
        let e = i + 16;
        if !all_plain(&s[i..e + 1]) {
            return i;
        }
        i = e;
    }
    i
}

// The place of the last space behind `from` and not behind `to`; `from` where there is none.
fn last_space(s: &[u8], from: usize, to: usize) -> usize
    requires { (from ≤ to) × (from < to → to < length s.now) }
    ensures { (from ≤ result) × (result ≤ to) × (from < result → get_or s.now result 0 ≡ 32) }
{
    if from == to {
        return from;
    }
    match s[from + 1..to + 1].iter().rev().position(|&b| b == b' ') {
        Some(k) => to - k,
        None => from,
    }
}

// From e, where a word ends, over words that may follow it under a key of this rule, to where another ends: of a free rule, over as many as blocks of bytes
// tell at once.
fn past_free(rule: Rule, s: &[u8], e: usize) -> usize
    requires { (e ≤ length s.now) × (up_to 32 (drop e s.now) ≡ 0) }
    ensures s_value { all (more_fits rule) (after 32 (take (result - e) (drop e s.now))) ≡ true }
    ensures lower_bound { (e ≤ result) × (result ≤ length s.now) × (up_to 32 (drop result s.now) ≡ 0) }
{
    if let Rule::Free = rule {
        return last_space(s, e, plain_to(s, e));
    }
    e
}

// The content that says that there are no items.
const NOTHING: &[u8] = b"0";

// An edition of the form: its keys in their order, in cells of four bytes, and a mark for the rule of each.
#[derive(Clone, Copy)]
pub struct Edition<'a> {
    pub keys: &'a [u8],
    pub rules: &'a [u8],
    ghost sound: { sound_keys (edition (cells 4 keys.now) rules.now) ≡ true },
}

impl<'a> Edition<'a> {
    ghost use Rattle.other.specs.Stated.{stated};

    // The edition of document 01.
    pub fn base() -> Edition<'a>
        ensures { (stated result ≡ base) × (result.keys.now ≡ base_keys) × (result.rules.now ≡ base_marks) }
    {
        Edition {
            keys: b"STS PBN NAV COM DAT SUR DEP DESTDOF REG EET SEL TYP CODEDLE OPR ORGNPER ALTNRALTTALTRIF RMK ",
            rules: b"SP......D.EL.HE........",
        }
    }

    // The rule of the key at place k, counted from 1; place 0 has the first key's rule.
    pub fn rule(self, k: usize) -> Rule
        ensures { result ≡ rule_in (stated self.entry) k }
    {
        rule_in(self.rules, k)
    }

    // The item that begins at `at`, its key behind the one at place `last`, with all that follows it. The oblique behind its key stands at `o`.
    #[cycle(item_words)]
    fn item(self, s: &[u8], at: usize, o: usize, last: usize) -> bool
        requires { (at ≤ o) × (o < length s.now) × (get_or s.now o 0 ≡ 47) × (all text (take (o - at) (drop at s.now)) ≡ true) }
        ensures { result ≡ fit_from (stated self.entry) last (split 32 (drop at s.now)) }
    {
        let Some(k) = text::rank_behind(&s[at..o], 4, self.keys, last) else {
            return false;
        };
        let from = o + 1;
        let e = text::end_of(text::Kind::Text, s, from);
        if !word_ends(s, e) {
            return false;
        }
        if !text_fits(self.rule(k), &s[from..e]) {
            return false;
        }
        self.words(s, e, k)
    }

    // What follows a word that ends at `end`, in an item of the key at place k: its further words, and the items behind it. The text bytes that a word begins
    // with are all of it, or the key of the next item; with any other byte behind them it does not fit, since no key and no rule has such a byte. A loop over
    // places: the end of a word is found while its bytes are read.
    #[cycle(item_words)]
    fn words(self, s: &[u8], end: usize, k: usize) -> bool
        requires { (end ≤ length s.now) × (up_to 32 (drop end s.now) ≡ 0) }
        ensures { result ≡ fit_more (stated self.entry) k (after 32 (drop end s.now)) }
    {
        let rule = self.rule(k);
        let mut e = past_free(rule, s, end);
        while e < s.len() {
            let at = e + 1;
            e = text::end_of(text::Kind::Text, s, at);
            if !word_ends(s, e) {
                if s[e] != b'/' {
                    return false;
                }
                return self.item(s, at, e, k);
            }
            if is_single(rule) {
                return false;
            }
            if !text_fits(rule, &s[at..e]) {
                return false;
            }
        }
        true
    }

    // Whether a content fits the form in this edition.
    fn fits(self, s: &[u8]) -> bool
        ensures { result ≡ fits_in (stated self.entry) s.now }
    {
        if s == NOTHING {
            return true;
        }
        let o = text::end_of(text::Kind::Text, s, 0);
        if word_ends(s, o) {
            return false;
        }
        if s[o] != b'/' {
            return false;
        }
        self.item(s, 0, o, 0)
    }
}

// Whether a content fits field 18's form.
pub fn fits_field18(s: &[u8]) -> bool
    ensures { result ≡ fits18 s.now }
{
    Edition::base().fits(s)
}

// Where the words of the item of a key begin, behind its oblique, if there is such an item. A loop over places: one of them is the answer.
fn words_at(s: &[u8], key: &[u8]) -> Option<usize>
    ensures { MatchOption result (Found s.now key.now 0) (λ at. (0 < at) × Found s.now key.now at) }
{
    let mut at = 0;
    loop {
        let e = text::find(s, at, b' ');
        let w = &s[at..e];
        let o = text::find(w, 0, b'/');
        if o < w.len() {
            if &w[..o] == key {
                return Some(at + o + 1);
            }
        }
        if e == s.len() {
            return None;
        }
        at = e + 1;
    }
}

// Where the item ends whose words begin at `at`: before the next word that holds an oblique. A loop over places, as in words_at.
fn item_end(s: &[u8], at: usize) -> usize
    requires { at ≤ length s.now }
    ensures s_value { take (result - at) (drop at s.now) ≡ words_from (split 32 (drop at s.now)) }
    ensures lower_bound { (at ≤ result) × (result ≤ length s.now) }
{
    let mut e = text::find(s, at, b' ');
    while e < s.len() {
        let next = text::find(s, e + 1, b' ');
        let w = &s[e + 1..next];
        if text::find(w, 0, b'/') < w.len() {
            return e;
        }
        e = next;
    }
    e
}

// Whether a content has an item of a key.
pub fn has_key(s: &[u8], key: &[u8]) -> bool
    ensures { result ≡ has_key s.now key.now }
{
    words_at(s, key).is_some()
}

// The words of the item of a key, from behind its oblique to its end; nothing where there is no such item.
pub fn words_of<'a>(s: &'a [u8], key: &[u8]) -> &'a [u8]
    ensures { result.now ≡ words_under s.now key.now }
{
    match words_at(s, key) {
        Some(at) => &s[at..item_end(s, at)],
        None => &s[..0],
    }
}
