// A label, an oblique and a content whose form goes by the label: the places of such a form.
#![tactic(auto)]

ghost use Rattle.std.specs.Prelude.{◌≡◌, ◌≤◌, length};
ghost use Rattle.text.specs.Words.{split};
ghost use Rattle.entries.specs.Entries.{matched, any_of};

// How far the bytes follow a label.
pub fn matched_of(l: &[u8], s: &[u8]) -> usize
    ensures { result ≡ matched l.now s.now }
{
    places::along(l, s, |a, b| a == b)
}

// How far the bytes follow the word, of a list with one space between them, that they follow farthest.
pub fn any_of(list: &[u8], s: &[u8]) -> usize
    ensures { result ≡ any_of (split 32 list.now) s.now }
{
    places::largest(list, |v| matched_of(v, s))
}
