// The racks of a board that two firms share, as places and bytes: ten places for each firm. The strips lie in 36,000 lent bytes, 1,800 for each
// place; of each place the board has whether a strip stands there, its record and how many bytes it takes.
#![tactic(auto)]

ghost use Rattle.std.specs.Prelude.{◌≡◌, ◌+◌, ◌≤◌, ◌<◌, [], length, set, replicate};
ghost use Rattle.rooms.specs.Rooms.{held_in, lowest};
ghost use Rattle.racks.specs.Places.{in_place, vacant, base, board_in, held_to, shown_to, part_of, written, Puts};

use rooms::Firm;
use state::Strip;

// A flight that is held: its record, and how many bytes of the place that it lies in its strip takes.
#[derive(Clone, Copy)]
pub struct Flight {
    pub held: Strip,
    pub length: usize,
}

#[derive(Clone, Copy)]
pub struct Board {
    pub places: [Option<Flight>; 20],
}

const SLOTS: usize = 10;

// The first of a firm's places.
fn base_of(f: Firm) -> usize
    ensures { result ≡ base f }
{
    match f {
        Firm::First => 0,
        Firm::Second => 10,
    }
}

// A strip takes no more than its place.
fn in_place(n: usize) -> usize
    ensures { result ≡ in_place n }
{
    n.min(outer::MOST_BYTES)
}

// The first bytes of a place.
fn part_of<'a>(bytes: &'a [u8], i: usize, n: usize) -> &'a [u8]
    requires { (i < 20) × (length bytes.now ≡ 36000) }
    ensures { result.now ≡ part_of bytes.now i n }
{
    let at = outer::MOST_BYTES * i;
    &bytes[at..at + in_place(n)]
}

// Nothing, as a part of `bytes`.
pub fn no_strip<'a>(bytes: &'a [u8; 36000]) -> &'a [u8]
    ensures { result.now ≡ [] }
{
    &bytes[..0]
}

// Writes a strip at the front of a place.
fn write_at(part: &[u8], i: usize, bytes: &mut [u8])
    requires { (length part.now ≤ 1800) × (i < 20) × (length bytes.old ≡ 36000) }
    ensures { bytes.new ≡ written i part.now bytes.old }
{
    let at = outer::MOST_BYTES * i;
    text::put(part, &mut bytes[at..]);
}

impl Board {
    // A board on which nothing stands.
    pub fn empty() -> Board
        ensures { result.places ≡ replicate 20 vacant }
    {
        Board { places: [None; 20] }
    }

    // How many strips a firm holds.
    pub fn held_by(self, f: Firm) -> usize
        ensures { result ≡ held_in (board_in self.places [] f) }
    {
        let from = base_of(f);
        self.places[from..from + SLOTS]
            .iter()
            .filter(|p| p.is_some())
            .count()
    }

    // The lowest slot of a firm in which nothing stands; 10 where there is none, as the definition `lowest` has it.
    pub fn lowest_of(self, f: Firm) -> usize
        ensures { result ≡ lowest (board_in self.places [] f) }
    {
        let from = base_of(f);
        self.places[from..from + SLOTS]
            .iter()
            .position(|p| p.is_none())
            .unwrap_or(SLOTS)
    }

    // The flight in a firm's slot, if one stands there. In a slot that is not 0 to 9 there is none.
    pub fn held_in(self, f: Firm, slot: usize) -> Option<Flight>
        ensures { result ≡ held_to f slot self.places }
    {
        if SLOTS <= slot {
            return None;
        }
        self.places[base_of(f) + slot]
    }

    // The strip in a firm's slot, as a part of `bytes`; an empty part where there is none.
    pub fn strip_in<'a>(self, f: Firm, slot: usize, bytes: &'a [u8; 36000]) -> &'a [u8]
        ensures { result.now ≡ shown_to f slot self.places bytes.now }
    {
        match self.held_in(f, slot) {
            None => no_strip(bytes),
            Some(p) => part_of(bytes, base_of(f) + slot, p.length),
        }
    }

    // The board with a strip and its record in a firm's slot; the strip lies in `bytes` then.
    pub fn put(
        self,
        f: Firm,
        slot: usize,
        held: Strip,
        part: &[u8],
        bytes: &mut [u8; 36000],
    ) -> Board
        requires { (slot < 10) × (length part.now ≤ 1800) }
        ensures { Puts f slot (record { strip = part.now; held = held }) self.places bytes.old result.places bytes.new }
    {
        let i = base_of(f) + slot;
        write_at(part, i, bytes);
        self.with_place(
            i,
            Some(Flight {
                held,
                length: part.len(),
            }),
        )
    }

    // The board without the strip in a firm's slot.
    pub fn take_off(self, f: Firm, slot: usize) -> Board
        requires { slot < 10 }
        ensures { result.places ≡ set self.places (base f + slot) vacant }
    {
        self.with_place(base_of(f) + slot, None)
    }

    fn with_place(mut self, i: usize, p: Option<Flight>) -> Board
        requires { i < 20 }
        ensures { result.places ≡ set self.places i p }
    {
        self.places[i] = p;
        self
    }
}
