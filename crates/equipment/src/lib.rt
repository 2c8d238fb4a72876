// Field 10: equipment, an oblique, surveillance.
#![tactic(auto)]

ghost use Rattle.std.specs.Prelude.{◌≡◌, true};
ghost use Rattle.text.specs.Words.{cells};
ghost use Rattle.codes.specs.Codes.{codes, is_index};
ghost use Rattle.equipment.specs.Field10.{present, side_fits, fits10};
ghost use Rattle.equipment.specs.Cells.{equipment_cells, equipment_index, surveillance_cells, surveillance_index};

use codes::{CodeList, SomeCodes};

// The side of an aircraft that carries none of its list.
const NOTHING: &[u8] = b"N";

// Whether a side fits: N alone, or one or more codes of the list, none twice, in at most so many bytes. It stands for docs/PROMISES.md, which names it,
// and takes any number for `most`.
pub fn side_by(first: &[u8; 26], list: &[u8], most: usize, s: &[u8]) -> bool
    requires { is_index first.now (cells 2 list.now) ≡ true }
    ensures { result ≡ side_fits (cells 2 list.now) most (codes s.now) }
{
    s == NOTHING || CodeList { first, list }.fit_within(most, s)
}

// Whether a side fits: N alone, or some codes.
pub fn fits_side(side: &SomeCodes, s: &[u8]) -> bool
    ensures { result ≡ side_fits (cells 2 side.now.codes.list.now) side.now.most (codes s.now) }
{
    s == NOTHING || side.fit(s)
}

// The equipment, left of the oblique, in the present edition.
#[tactic(auto, unfolding(crate::specs::Field10::present, crate::specs::Cells::equipment_cells, crate::specs::Cells::equipment_index))]
pub fn equipment() -> SomeCodes<'static>
    ensures value { (cells 2 result.codes.list.now ≡ present.left) × (result.most ≡ present.most_left) }
    ensures bytes { (result.codes.list.now ≡ equipment_cells) × (result.codes.first.now ≡ equipment_index) }
{
    SomeCodes {
        codes: CodeList {
            first: b"\x00\x01\x02\x03\x04\x07\x08\x09\x0a\x0b\x12\x13\x14\x2a\x17\x18\x2a\x21\x22\x23\x24\x25\x26\x27\x28\x29",
            list: b"A B C D E1E2E3F G H I J1J2J3J4J5J6J7K L M1M2M3O P1P2P3P4P5P6P7P8P9R S T U V W X Y Z ",
        },
        most: 64,
    }
}

// The surveillance, behind the oblique, in the present edition.
#[tactic(auto, unfolding(crate::specs::Field10::present, crate::specs::Cells::surveillance_cells, crate::specs::Cells::surveillance_index))]
pub fn surveillance() -> SomeCodes<'static>
    ensures value { (cells 2 result.codes.list.now ≡ present.right) × (result.most ≡ present.most_right) }
    ensures bytes { (result.codes.list.now ≡ surveillance_cells) × (result.codes.first.now ≡ surveillance_index) }
{
    SomeCodes {
        codes: CodeList {
            first: b"\x00\x09\x01\x0f\x02\x11\x10\x03\x04\x11\x11\x05\x11\x11\x11\x06\x11\x11\x07\x11\x0b\x0d\x11\x08\x11\x11",
            list: b"A C E H I L P S X B1B2U1U2V1V2D1G1",
        },
        most: 20,
    }
}

// Whether a content fits the form in the present edition.
pub fn fits_field10(s: &[u8]) -> bool
    ensures { result ≡ fits10 present s.now }
{
    let o = text::find_far(s, 0, b'/');
    if o == s.len() {
        return false;
    }
    fits_side(&equipment(), &s[..o]) && fits_side(&surveillance(), &s[o + 1..])
}
