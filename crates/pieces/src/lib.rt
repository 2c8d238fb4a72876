// How the programs cut standard input into pieces, one to a message.
#![tactic(auto)]

ghost use Rattle.std.specs.Prelude.{◌≡◌, ◌+◌, drop};
ghost use Rattle.std.specs.Iterator.{YieldsFirstRef, item_count};
ghost use Rattle.pieces.specs.Pieces.{white_ahead, piece_end, pieces_of, pieces_left};

// Over the white space at `from`: where the next piece begins. `from` itself where none is there, as beyond the end.
pub fn skip_white(s: &[u8], from: usize) -> usize
    ensures { result ≡ from + white_ahead (drop from s.now) }
{
    if s.len() < from {
        return from;
    }
    let rest = &s[from..];
    from + rest
        .iter()
        .position(|&b| !alphabet::is_white(b))
        .unwrap_or(rest.len())
}

// Where the piece that begins at `from` ends: behind the next `)`, or at the end.
pub fn piece_end(s: &[u8], from: usize) -> usize
    ensures { result ≡ piece_end s.now from }
{
    if s.len() <= from {
        return s.len();
    }
    let e = text::find_far(s, from, b')');
    if e < s.len() {
        return e + 1;
    }
    e
}

// The pieces of an input, in their order: those of the bytes that are left.
#[derive(Drop)]
pub struct Pieces<'a> {
    left: &'a [u8],
}

// The pieces of an input.
pub fn of<'a>(s: &'a [u8]) -> Pieces<'a>
    ensures { (pieces_left result ≡ pieces_of s.now) × (result.left.now ≡ s.now) }
{
    Pieces { left: s }
}

impl<'a> Iterator for Pieces<'a> {
    type Item = &'a [u8];

    ghost next_gives = { YieldsFirstRef pieces_left };

    ghost remaining = { item_count pieces_left };

    fn next(&mut self) -> Option<&'a [u8]> {
        let left = self.left;
        let from = skip_white(left, 0);
        if left.len() <= from {
            return None;
        }
        let e = piece_end(left, from);
        self.left = &left[e..];
        Some(&left[from..e])
    }
}
