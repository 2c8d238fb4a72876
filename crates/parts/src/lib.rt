// The parts of a message that is its own spelling: where a field stands, by its number, and of a plan the parts that the desk works with.
#![tactic(auto)]

ghost use Rattle.std.specs.Prelude.{◌≡◌, true, map, ℕ, Ok, ◌-◌, ◌≤◌, length, take, drop};
ghost use Rattle.text.specs.Words.{up_to};
ghost use Rattle.space.specs.Reduced.{reduced};
ghost use Rattle.outer.specs.Outer.{most};
ghost use Rattle.head.specs.Field7.{record7};
ghost use Rattle.head.specs.Field9.{fits9, count_of};
ghost use Rattle.aerodromes.specs.Field13.{fits13, record13};
ghost use Rattle.aerodromes.specs.Field16.{fits16plan, record16plan};
ghost use Rattle.kinds.specs.declared.MessageType as MessageType;
ghost use Rattle.kinds.specs.Kinds.{least_of, greatest_of, forms_of, number_of};
ghost use Rattle.parts.specs.Parts.{taken_of, Own, span_of, span_at, field_in, field_of, content_asked};
ghost use Rattle.parts.specs.Parts.{aircraft_as, off_block_as, destination_as, plan_of, planned_as, planned_of};
ghost use Rattle.parts.specs.Shown.{Shows, ShowsPlan};

use dates::Date;
use kinds::MessageType;
use outer::Refusal;
use shape::{Clock, Elapsed};

// A span of a message.
pub use force::Span;

// Where a field's content stands, or the refusal.
pub type Part = Result<Span, Refusal>;

// Field 9: how many aircraft, and where their type stands.
#[derive(Clone, Copy)]
pub struct Aircraft {
    pub count: usize,
    pub kind: Span,
}

// Field 13: where the aerodrome's four letters begin, and the off-block time.
#[derive(Clone, Copy)]
pub struct OffBlock {
    pub aerodrome: usize,
    pub time: Clock,
}

// Field 16: where the aerodrome's four letters begin, the elapsed time, how many alternates, and where the letters of each begin, or 0: as
// `ShowsPlan` speaks of them, and as C gets them (`beechdoublet_plan`).
#[derive(Clone, Copy)]
pub struct Destination {
    pub aerodrome: usize,
    pub elapsed: Elapsed,
    pub alternates: usize,
    pub first: usize,
    pub second: usize,
}

// The parts of a plan; the date is DOF's in field 18, if it has one.
#[derive(Clone, Copy)]
pub struct PlanParts {
    pub identification: Span,
    pub aircraft: Aircraft,
    pub departure: OffBlock,
    pub destination: Destination,
    pub date: Option<Date>,
}

pub type Planned = Result<PlanParts, Refusal>;

// How a message is taken: its type, and whether it is its own spelling; or reading's refusal.
pub type Taken = Result<(MessageType, bool), Refusal>;

fn read_own(m: &[u8]) -> Taken
    ensures { result ≡ taken_of m.now }
{
    // A fixed room: nothing is allocated.
    let mut scratch = [0u8; outer::MOST_BYTES];
    let (t, n) = message::read(m, &mut scratch)?;
    Ok((t, text::same_bytes(&scratch[..n], m)))
}

// The place, counted from 0, of the first field of a number; the count where there is none.
fn rank_of(t: MessageType, count: usize, number: u8) -> usize
    requires { (least_of t ≤ count) × (count ≤ greatest_of t) }
    ensures { result ≡ up_to number (map number_of (forms_of t count)) }
{
    for j in 0..count {
        if t.form_at(count, j).number() == number {
            return j;
        }
    }
    count
}

// Where the content of field j stands; a text begins one byte behind its message.
fn field_at(m: &[u8], j: usize) -> Span
    requires { (2 ≤ length m.now) × (length m.now ≤ most) × (reduced m.now ≡ m.now) }
    ensures { result ≡ span_at m.now j }
{
    let last = m.len() - 1;
    let text = &m[1..last];
    let c = force::seek(text, j);
    let at = c.at;
    let e = c.end(text, b'-');
    Span {
        from: at + 1,
        to: e + 1,
    }
}

// Number 8, and the place.
fn field_in(t: MessageType, m: &[u8], number: u8) -> Part
    requires { Own t m.now }
    ensures { result ≡ field_in t m.now number }
{
    let count = space::count_hyphens(m) + 1;
    let j = rank_of(t, count, number);
    if j == count {
        return Err(Refusal {
            number: 8,
            field: number,
            place: 0,
        });
    }
    Ok(field_at(m, j))
}

// Where the content of a message's field stands, by the field's number; of several, as a CHG's entries, the first.
pub fn field_of(spelling: &[u8], number: u8) -> Part
    ensures value { result ≡ field_of spelling.now number }
    ensures shows { Shows result spelling.now (content_asked spelling.now number) }
{
    let (t, own) = read_own(spelling)?;
    if !own {
        return Err(Refusal::of(17));
    }
    field_in(t, spelling, number)
}

// The bytes of a span.
fn content<'a>(m: &'a [u8], at: Span) -> &'a [u8]
    requires { (at.from ≤ at.to) × (at.to ≤ length m.now) }
    ensures { result.now ≡ take (at.to - at.from) (drop at.from m.now) }
{
    let from = at.from;
    let to = at.to;
    &m[from..to]
}

fn identification_in(from: usize, seven: &[u8]) -> Span
    requires { (from ≤ most) × (length seven.now ≤ most) }
    ensures { result ≡ span_of from (record7 seven.now).identification }
{
    let who = head::identification(seven);
    Span {
        from,
        to: from + who.len(),
    }
}

// How many aircraft, from the digits before the type.
fn count_of(w: &[u8]) -> usize
    requires { length w.now ≤ 2 }
    ensures { result ≡ count_of w.now }
{
    if w.len() == 0 {
        return 1;
    }
    if w.len() == 1 {
        return shape::one(w[0]);
    }
    shape::two(w, 0)
}

fn aircraft_in(from: usize, nine: &[u8]) -> Aircraft
    requires { (from ≤ most) × (length nine.now ≤ most) × (fits9 nine.now ≡ true) }
    ensures { result ≡ aircraft_as from nine.now }
{
    let d = head::run(true, nine);
    let kind = head::aircraft_type(nine);
    let at = from + d;
    Aircraft {
        count: count_of(&nine[..d]),
        kind: Span {
            from: at,
            to: at + kind.len(),
        },
    }
}

fn off_block_in(from: usize, thirteen: &[u8]) -> OffBlock
    requires { fits13 thirteen.now ≡ true }
    ensures { result ≡ off_block_as from (record13 thirteen.now) }
{
    OffBlock {
        aerodrome: from,
        time: aerodromes::clock(thirteen).unwrap_or(Clock(0)),
    }
}

fn elapsed_of(sixteen: &[u8]) -> Elapsed
    requires { fits16plan sixteen.now ≡ true }
    ensures { result ≡ (record16plan sixteen.now).elapsed }
{
    aerodromes::elapsed(sixteen).unwrap_or(Elapsed(0))
}

// An alternate is a space and four letters behind the first eight bytes, so the length tells how many there are.
fn destination_in(from: usize, sixteen: &[u8]) -> Destination
    requires { (from ≤ most) × (fits16plan sixteen.now ≡ true) }
    ensures { result ≡ destination_as from (record16plan sixteen.now) }
{
    let elapsed = elapsed_of(sixteen);
    if sixteen.len() < 13 {
        return Destination {
            aerodrome: from,
            elapsed,
            alternates: 0,
            first: 0,
            second: 0,
        };
    }
    if sixteen.len() < 18 {
        return Destination {
            aerodrome: from,
            elapsed,
            alternates: 1,
            first: from + 9,
            second: 0,
        };
    }
    Destination {
        aerodrome: from,
        elapsed,
        alternates: 2,
        first: from + 9,
        second: from + 14,
    }
}

fn plan_in(m: &[u8]) -> PlanParts
    requires { Own MessageType.Fpl m.now }
    ensures { result ≡ plan_of m.now }
{
    let seven = field_at(m, kinds::PLAN_7);
    let nine = field_at(m, kinds::PLAN_9);
    let thirteen = field_at(m, kinds::PLAN_13);
    let sixteen = field_at(m, kinds::PLAN_16);
    let eighteen = field_at(m, kinds::PLAN_18);
    PlanParts {
        identification: identification_in(seven.from, content(m, seven)),
        aircraft: aircraft_in(nine.from, content(m, nine)),
        departure: off_block_in(thirteen.from, content(m, thirteen)),
        destination: destination_in(sixteen.from, content(m, sixteen)),
        date: dates::date_in(content(m, eighteen)),
    }
}

// Numbers 14 and 17 of a message that was read, and the parts.
fn plan_read(t: MessageType, own: bool, m: &[u8]) -> Planned
    requires { taken_of m.now ≡ Ok (t, own) }
    ensures { result ≡ planned_as (Ok (t, own)) m.now }
{
    if !message::is_plan(t) {
        return Err(Refusal::of(14));
    }
    if !own {
        return Err(Refusal::of(17));
    }
    Ok(plan_in(m))
}

// The parts of a plan: an accepted FPL that is its own spelling, as a strip is.
pub fn plan_parts(strip: &[u8]) -> Planned
    ensures value { result ≡ planned_of strip.now }
    ensures shows_plan { ShowsPlan result strip.now }
{
    let (t, own) = read_own(strip)?;
    plan_read(t, own, strip)
}
