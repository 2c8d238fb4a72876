// Where a content that does not fit goes wrong, for each form by its name.
#![tactic(auto)]

ghost use Rattle.std.specs.Prelude.{◌≡◌, ◌≤◌};
ghost use Rattle.form_places.specs.Places.{place_named, place22, place_in};

use kinds::Form;

// The place of a content as the field whose number has rank k, a number as forms::rank_in gives it.
fn place_named(k: usize, s: &[u8]) -> usize
    requires { (1 ≤ k) × (k ≤ 8) }
    ensures { result ≡ place_named k s.now }
{
    match k {
        1 => head_places::place_field7(s),
        2 => head_places::place_field8(s),
        3 => head_places::place_field9(s),
        4 => equipment_places::place_field10(s),
        5 => aerodromes_places::place_field13(s),
        6 => route_places::place_field15(s),
        7 => aerodromes_places::place_field16_plan(s),
        _ => other_places::place_field18(s),
    }
}

// The place of an entry that does not fit: in the field that its number names, or in the number.
fn place_entry(s: &[u8]) -> usize
    ensures { result ≡ place22 s.now }
{
    // Cut here and not by places::cut_place: place_named takes no rank but one of the eight, and only behind one of the numbers is it known.
    let o = text::find(s, 0, b'/');
    let k = forms::rank_in(Form::Field22, s);
    if o == s.len() {
        return entries::any_of(b"7 8 9 10 13 15 16 18", &s[..o]);
    }
    if k == 0 {
        return entries::any_of(b"7 8 9 10 13 15 16 18", &s[..o]);
    }
    o + 1 + place_named(k, &s[o + 1..])
}

// The place of a content that does not fit its form. One `match`, since it names every form: a table of functions would not be held to be whole.
pub fn place_in(f: Form, s: &[u8]) -> usize
    ensures { result ≡ place_in f s.now }
{
    match f {
        Form::Field3 => head_places::place_field3(s),
        Form::Field7 => head_places::place_field7(s),
        Form::Field8 => head_places::place_field8(s),
        Form::Field9 => head_places::place_field9(s),
        Form::Field10 => equipment_places::place_field10(s),
        Form::Field13 => aerodromes_places::place_field13(s),
        Form::Field13Open => aerodromes_places::place_field13(s),
        Form::Field15 => route_places::place_field15(s),
        Form::Field16 => aerodromes_places::place_field16(s),
        Form::Field16Plan => aerodromes_places::place_field16_plan(s),
        Form::Field17 => aerodromes_places::place_field17(s),
        Form::Field18 => other_places::place_field18(s),
        Form::Field19 => supplement_places::place_field19(s),
        Form::Field22 => place_entry(s),
    }
}
