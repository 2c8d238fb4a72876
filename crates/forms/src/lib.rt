// Field 22, and the dispatch over all forms of fields.
#![tactic(auto)]

ghost use Rattle.std.specs.Prelude.{◌≡◌, ◌≤◌, true, ◌&&◌, ltb, length};
ghost use Rattle.text.specs.Lent.{front};
ghost use Rattle.forms.specs.Field22.{field_named, which_of, fits22, numbered, fault22};
ghost use Rattle.forms.specs.Forms.{field_of, rank_in, fault_of, judged, written_of};

use kinds::Form;

// The rank of the number before the oblique; 0 where it is none of the eight. A number, since `message` marks the fields that entries name by their ranks,
// and an array with a place for those that name none takes no test.
fn rank_of_entry(s: &[u8]) -> usize
    ensures { (result ≡ which_of s.now) × (result ≤ 8) }
{
    let o = text::find(s, 0, b'/');
    text::rank_in_cells(&s[..o], 2, b"7 8 9 1013151618").unwrap_or(0)
}

// Whether a content fits the form of the number of rank k.
fn fits_named(k: usize, s: &[u8]) -> bool
    ensures { result ≡ (ltb 0 k && (field_named k).fits s.now) }
{
    // By rank, not through fits_form: that asks fits_entry, so one dispatch for both would call itself, and its arm for Field22 would never run here.
    match k {
        0 => false,
        1 => head::fits_field7(s),
        2 => head::fits_field8(s),
        3 => head::fits_field9(s),
        4 => equipment::fits_field10(s),
        5 => aerodromes::fits_field13(s),
        6 => route::fits_field15(s),
        7 => aerodromes::fits_field16_entry(s),
        _ => other::fits_field18(s),
    }
}

fn fits_entry(s: &[u8]) -> bool
    ensures { result ≡ fits22 s.now }
{
    let o = text::find(s, 0, b'/');
    if o == s.len() {
        return false;
    }
    fits_named(rank_of_entry(s), &s[o + 1..])
}

// Whether one or two digits stand before the first oblique.
fn is_numbered(s: &[u8]) -> bool
    ensures { result ≡ numbered s.now }
{
    let o = text::find(s, 0, b'/');
    if o == s.len() {
        return false;
    }
    if o < 1 {
        return false;
    }
    if o > 2 {
        return false;
    }
    text::all_of(text::Kind::Digit, &s[..o])
}

// What is wrong with an entry, by the number given back; `again`: an earlier one has its number.
#[tactic(auto, unfolding(crate::specs::Field22::fault22))]
fn fault_of_entry(again: bool, s: &[u8]) -> Result<(), u8>
    ensures { result ≡ judged (fault22 again s.now) }
{
    if !is_numbered(s) {
        return Err(7);
    }
    if rank_of_entry(s) == 0 {
        return Err(8);
    }
    if again {
        return Err(9);
    }
    if fits_entry(s) {
        return Ok(());
    }
    Err(7)
}

// Whether a content fits a form. One arm for each form: a match on an enum is the plain dispatch, with no table of functions.
pub fn fits_form(f: Form, s: &[u8]) -> bool
    ensures { result ≡ (field_of f).fits s.now }
{
    match f {
        Form::Field3 => head::fits_field3(s),
        Form::Field7 => head::fits_field7(s),
        Form::Field8 => head::fits_field8(s),
        Form::Field9 => head::fits_field9(s),
        Form::Field10 => equipment::fits_field10(s),
        Form::Field13 => aerodromes::fits_field13(s),
        Form::Field13Open => aerodromes::fits_field13_open(s),
        Form::Field15 => route::fits_field15(s),
        Form::Field16 => aerodromes::fits_field16(s),
        Form::Field16Plan => aerodromes::fits_field16_plan(s),
        Form::Field17 => aerodromes::fits_field17(s),
        Form::Field18 => other::fits_field18(s),
        Form::Field19 => supplement::fits_field19(s),
        Form::Field22 => fits_entry(s),
    }
}

// The rank of the field that an entry names; 0 for any other content.
pub fn rank_in(f: Form, s: &[u8]) -> usize
    ensures { (result ≡ rank_in f s.now) × (result ≤ 8) }
{
    if f.number() == 22 {
        return rank_of_entry(s);
    }
    0
}

// What is wrong with a content, by the number given back; `again`: an earlier entry names the same field.
pub fn fault_of(again: bool, f: Form, s: &[u8]) -> Result<(), u8>
    ensures { result ≡ judged (fault_of again f s.now) }
{
    match f {
        Form::Field22 => fault_of_entry(again, s),
        _ => {
            if fits_form(f, s) {
                return Ok(());
            }
            Err(7)
        }
    }
}

// How many bytes are written of a content.
pub fn spelled_length(f: Form, s: &[u8]) -> usize
    ensures { result ≡ length (written_of f s.now) }
{
    match f {
        Form::Field19 => canonical::spelled_length(s),
        _ => s.len(),
    }
}

// Writes a content that fits its form at the front of `out`, in its canonical spelling; the bytes behind it stay.
pub fn write_fitting(f: Form, s: &[u8], out: &mut [u8]) -> usize
    requires { ((field_of f).fits s.now ≡ true) × (length (written_of f s.now) ≤ length out.old) }
    ensures { (result ≡ length (written_of f s.now)) × (out.new ≡ front (written_of f s.now) out.old) }
{
    match f {
        Form::Field19 => canonical::write_fitting19(s, out),
        _ => text::put(s, out),
    }
}
