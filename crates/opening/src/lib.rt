// How a strip is opened for a message: the strip is tested, and the message is read.
#![tactic(auto)]

ghost use Rattle.std.specs.Prelude.{◌≡◌};
ghost use Rattle.opening.specs.Opening.{canonical_plan, not_read_as, opening_of, scratch_after};

use message::Answer;
use outer::Refusal;
use state::Strip;

// Whether a strip is an FPL as it is written: it is accepted as one, and its spelling is the strip itself.
pub fn is_canonical_plan(strip: &[u8]) -> bool
    ensures { result ≡ canonical_plan strip.now }
{
    message::is_plan_itself(strip)
}

// A message that was not read: its own refusal where its number is 1 to 9, otherwise 14.
fn not_read(refusal: Refusal) -> Refusal
    ensures { result ≡ not_read_as refusal }
{
    if refusal.number <= 9 {
        return refusal;
    }
    Refusal::of(14)
}

// Opens a strip for a message: 15 of the strip, 1 to 9 and 14 of the message; or the message's type and how many bytes its spelling takes, which is then at
// the front of the scratch.
pub fn open_strip(
    strip: &[u8],
    held: Strip,
    msg: &[u8],
    scratch: &mut [u8; outer::MOST_BYTES],
) -> Answer
    ensures { (result ≡ opening_of strip.now held msg.now)
        × (scratch.new ≡ scratch_after (opening_of strip.now held msg.now) msg.now scratch.old) }
{
    if !held.is_sound() {
        return Err(Refusal::of(15));
    }
    if !is_canonical_plan(strip) {
        return Err(Refusal::of(15));
    }
    match message::read(msg, scratch) {
        Ok(read) => Ok(read),
        Err(refusal) => Err(not_read(refusal)),
    }
}
