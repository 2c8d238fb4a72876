// The place of a content of field 10 that does not fit.
#![tactic(auto)]

ghost use Rattle.std.specs.Prelude.{◌≡◌};
ghost use Rattle.text.specs.Words.{cells};
ghost use Rattle.equipment.specs.Field10.{present};
ghost use Rattle.equipment_places.specs.Places.{side_place, place10};

use codes::SomeCodes;

// The place of a side that does not fit.
fn side_place(side: &SomeCodes, s: &[u8]) -> usize
    ensures { result ≡ side_place (cells 2 side.now.codes.list.now) side.now.most s.now }
{
    entries::matched_of(b"N", s).max(code_places::codes_place(side, s))
}

// The place in the present edition.
pub fn place_field10(s: &[u8]) -> usize
    ensures { result ≡ place10 present s.now }
{
    // Cut here and not by places::cut_place: the edit at_the_oblique tries the sum.
    let o = text::find(s, 0, b'/');
    let left = equipment::equipment();
    if o == s.len() || !equipment::fits_side(&left, &s[..o]) {
        return side_place(&left, &s[..o]);
    }
    o + 1 + side_place(&equipment::surveillance(), &s[o + 1..])
}
