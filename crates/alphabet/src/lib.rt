// The alphabet of a message and the sets of bytes that the forms name, each worked out by comparisons.
#![tactic(auto)]

ghost use Rattle.std.specs.Prelude.{◌≡◌, ◌≤◌, length};
ghost use Rattle.alphabet.specs.Alphabet.{
  letter,
  digit,
  octal,
  sign,
  text,
  white,
  one_of,
  marks,
  inner_byte,
  in_alphabet,
  known,
  all_inner,
  inner_bytes,
};

pub fn is_letter(b: u8) -> bool
    ensures { result ≡ letter b }
{
    b.is_ascii_uppercase()
}

pub fn is_digit(b: u8) -> bool
    ensures { result ≡ digit b }
{
    b.is_ascii_digit()
}

pub fn is_octal(b: u8) -> bool
    ensures { result ≡ octal b }
{
    matches!(b, b'0'..=b'7')
}

// A letter or a digit. Which of the two it is decides no branch: in a word they stand mixed, and a branch that cannot be foretold costs more than the test.
#[tactic(auto, using(crate::proofs::Classes::sign_tests))]
pub fn is_sign(b: u8) -> bool
    ensures { result ≡ sign b }
{
    matches!(b, b'0'..=b'Z') && ((b <= b'9') | (b'A' <= b))
}

// A mark that may stand in a text word.
fn is_mark(b: u8) -> bool
    ensures { result ≡ one_of b marks }
{
    matches!(b, b'?' | b':' | b'.' | b',' | b'\'' | b'=' | b'+')
}

// A byte of a text word: of the alphabet, other than white space and ( ) - /. From 0 to Z all are signs but those between the digits and the letters, so
// a sign passes two tests, each of which nearly always goes one way; what is left is looked for among the marks.
#[tactic(auto, using(crate::proofs::Classes::text_tests))]
pub fn is_text(b: u8) -> bool
    ensures { result ≡ text b }
{
    let outside = (b < b'0') | (b'Z' < b);
    let between = (b'9' < b) & (b < b'A');
    !(outside | between) || is_mark(b)
}

// Space, CR or LF.
#[tactic(auto, unfolding(crate::specs::Alphabet::white))]
pub fn is_white(b: u8) -> bool
    ensures { result ≡ white b }
{
    matches!(b, b' ' | b'\r' | b'\n')
}

// A byte that may stand between the parentheses: of the alphabet, and no parenthesis.
#[tactic(auto, using(crate::proofs::Classes::inner_tests))]
fn is_inner(b: u8) -> bool
    ensures { result ≡ inner_byte b }
{
    is_text(b) || is_white(b) || matches!(b, b'/' | b'-')
}

// A byte of the alphabet.
#[tactic(auto, using(crate::proofs::Classes::alphabet_tests))]
fn is_known(b: u8) -> bool
    ensures { result ≡ in_alphabet b }
{
    is_inner(b) || matches!(b, b'(' | b')')
}

// How many bytes stand before the first that is not in the alphabet.
pub fn known_bytes(s: &[u8]) -> usize
    ensures { (result ≡ known s.now) × (result ≤ length s.now) }
{
    s.iter().position(|&b| !is_known(b)).unwrap_or(s.len())
}

// The same test as is_inner's, with no branch: it is worked out for 16 bytes at a time. From + to : stand the digits and + , - . / : alone. Byte by
// byte it takes nearly three times the instructions of is_inner.
fn is_inner_flat(b: u8) -> bool
    ensures { result ≡ inner_byte b }
{
    let letter = (b'A' <= b) & (b <= b'Z');
    let middle = (b'+' <= b) & (b <= b':');
    let mark = (b == b'?') | (b == b'=') | (b == b'\'');
    let white = (b == b' ') | (b == b'\r') | (b == b'\n');
    letter | middle | mark | white
}

// Whether each byte passes it.
fn all_inner(s: &[u8]) -> bool
    ensures { result ≡ all_inner s.now }
{
    s.iter().fold(true, |fine, &b| fine & is_inner_flat(b))
}

// How many bytes stand before the first that is a parenthesis or not in the alphabet, byte by byte.
fn inner_each(s: &[u8]) -> usize
    ensures { (result ≡ inner_bytes s.now) × (result ≤ length s.now) }
{
    s.iter().position(|&b| !is_inner(b)).unwrap_or(s.len())
}

// The same over blocks of 16 bytes, as long as all of a block pass. The last 16 bytes are a block too: some of them were in the one before.
pub fn inner_bytes(s: &[u8]) -> usize
    ensures { (result ≡ inner_bytes s.now) × (result ≤ length s.now) }
{
    let (blocks, rest) = s.as_chunks::<16>();
    if let Some(k) = blocks.iter().position(|block| !all_inner(block)) {
        return 16 * k + inner_each(&s[16 * k..]);
    }
    if 16 <= s.len() && all_inner(&s[s.len() - 16..]) {
        return s.len();
    }
    16 * blocks.len() + inner_each(rest)
}
