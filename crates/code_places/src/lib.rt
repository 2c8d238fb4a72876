// The place of codes joined without spaces.
#![tactic(auto)]

ghost use Rattle.std.specs.Prelude.{◌≡◌, true, ◌∷◌, [], ◌++◌};
ghost use Rattle.text.specs.Words.{cells};
ghost use Rattle.codes.specs.Codes.{is_index};
ghost use Rattle.code_places.specs.Codes.{some_codes, with_digit, goes_on, codes_place};

use codes::{CodeList, SomeCodes};

// Whether codes fit with one byte more.
fn with_byte(codes: &SomeCodes, p: &[u8], d: u8) -> bool
    ensures { result ≡ some_codes (cells 2 codes.now.codes.list.now) codes.now.most (p.now ++ (d ∷ [])) }
{
    if usize::from(codes.most) <= p.len() {
        return false;
    }
    // A fixed room: nothing is allocated.
    let mut scratch = [0u8; 256];
    let n = text::put(p, &mut scratch);
    scratch[n] = d;
    codes.fit(&scratch[..n + 1])
}

// Whether they fit with one of these digits behind them.
fn with_digit(codes: &SomeCodes, p: &[u8], ds: &[u8]) -> bool
    ensures { result ≡ with_digit (some_codes (cells 2 codes.now.codes.list.now) codes.now.most) p.now ds.now }
{
    ds.iter().any(|&d| with_byte(codes, p, d))
}

// Whether some bytes can go on as codes.
fn goes_on(codes: &SomeCodes, p: &[u8]) -> bool
    ensures { result ≡ goes_on (cells 2 codes.now.codes.list.now) codes.now.most p.now }
{
    p.is_empty() || codes.fit(p) || with_digit(codes, p, b"0123456789")
}

// The place of codes that do not fit, whatever the bytes and however many.
#[tactic(auto, unfolding(crate::specs::Codes::codes_place))]
pub fn codes_place(codes: &SomeCodes, s: &[u8]) -> usize
    ensures { result ≡ codes_place (cells 2 codes.now.codes.list.now) codes.now.most s.now }
{
    places::passes(s, |p| goes_on(codes, p))
}

// As `codes_place`, by a list and an index that lie apart; it stands for docs/PROMISES.md, which names it.
pub fn codes_place_by(first: &[u8; 26], list: &[u8], most: u8, s: &[u8]) -> usize
    requires { is_index first.now (cells 2 list.now) ≡ true }
    ensures { result ≡ codes_place (cells 2 list.now) most s.now }
{
    let codes = CodeList { first, list };
    codes_place(&SomeCodes { codes, most }, s)
}
