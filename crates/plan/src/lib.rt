// Number 10: what a plan leaves unexplained in field 18.
#![tactic(auto)]

ghost use Rattle.std.specs.Prelude.{◌≡◌};
ghost use Rattle.plan.specs.Unexplained.{
  without_key,
  type_unexplained,
  departure_unexplained,
  without_dest,
  destination_unexplained,
  unexplained,
  numbered,
};

// The code is ZZZZ, without the key that says what stands for it.
fn without_key(code: &[u8], key: &[u8], eighteen: &[u8]) -> bool
    ensures { result ≡ without_key code.now key.now eighteen.now }
{
    text::same_bytes(code, b"ZZZZ") && !other::has_key(eighteen, key)
}

// The type of aircraft is ZZZZ, without TYP.
fn type_unexplained(nine: &[u8], eighteen: &[u8]) -> bool
    ensures { result ≡ type_unexplained nine.now eighteen.now }
{
    without_key(head::aircraft_type(nine), b"TYP", eighteen)
}

// The departure aerodrome is ZZZZ or AFIL, without DEP.
fn departure_unexplained(thirteen: &[u8], eighteen: &[u8]) -> bool
    ensures { result ≡ departure_unexplained thirteen.now eighteen.now }
{
    let code = aerodromes::aerodrome_of(thirteen);
    (text::same_bytes(code, b"ZZZZ") || text::same_bytes(code, b"AFIL"))
        && !other::has_key(eighteen, b"DEP")
}

// The destination is ZZZZ, without DEST.
pub fn without_dest(sixteen: &[u8], eighteen: &[u8]) -> bool
    ensures { result ≡ without_dest sixteen.now eighteen.now }
{
    without_key(aerodromes::aerodrome_of(sixteen), b"DEST", eighteen)
}

// The destination without DEST, or an alternate without ALTN.
fn destination_unexplained(sixteen: &[u8], eighteen: &[u8]) -> bool
    ensures { result ≡ destination_unexplained sixteen.now eighteen.now }
{
    without_dest(sixteen, eighteen)
        || aerodromes::has_alternate(sixteen, b"ZZZZ") && !other::has_key(eighteen, b"ALTN")
}

// The number of the leftmost field that is unexplained. The contents are those of fields 9, 13, 16 and 18.
#[tactic(auto, unfolding(crate::specs::Unexplained::unexplained))]
pub fn unexplained_field(
    nine: &[u8],
    thirteen: &[u8],
    sixteen: &[u8],
    eighteen: &[u8],
) -> Option<u8>
    ensures { result ≡ numbered (unexplained nine.now thirteen.now sixteen.now eighteen.now) }
{
    if type_unexplained(nine, eighteen) {
        return Some(9);
    }
    if departure_unexplained(thirteen, eighteen) {
        return Some(13);
    }
    if destination_unexplained(sixteen, eighteen) {
        return Some(16);
    }
    None
}
