// The strip: one plan, kept up to date by the messages that are offered to it.
#![tactic(auto)]

ghost use Rattle.std.specs.Prelude.{◌≡◌, ◌&&◌, not, length, drop};
ghost use Rattle.text.specs.Words.{split, same};
ghost use Rattle.aerodromes.specs.Asked.{clock_at};
ghost use Rattle.dates.specs.Dates.{date_in};
ghost use Rattle.strip.specs.Updating.{time_of, arrival, event_of, compares_time, compares_date, other_day, differences, differs, update_of, out_after};
ghost use Rattle.strip.specs.Steps.{Texts, Amends, Offers};

use kinds::Role;
use outer::Refusal;
use shape::Clock;
use state::{Event, Strip};

// Which of the values that are compared differ from the strip's: a set of five, any of them with any other.
#[derive(Clone, Copy)]
pub struct Differences {
    pub identification: bool,
    pub aerodrome: bool,
    pub time: bool,
    pub destination: bool,
    pub date: bool,
}

// The strip's new record and the length of its new spelling, or the refusal.
pub type Updated = Result<(Strip, usize), Refusal>;

// Room for a strip and a message together.
pub const ROOM: usize = 3600;

// The last field of a text.
fn last_field<'a>(s: &'a [u8]) -> &'a [u8]
    ensures { result.now ≡ arrival (split 45 s.now) }
{
    let mut at = 0;
    loop {
        let e = text::find(s, at, b'-');
        if e == s.len() {
            return &s[at..];
        }
        at = e + 1;
    }
}

// The time of day in a content; 0 where there is none, as the definition `time_of` has it.
fn time_in(s: &[u8]) -> Clock
    ensures { result ≡ time_of (clock_at s.now) }
{
    aerodromes::clock(s).unwrap_or(Clock(0))
}

// What a message says of the state, from the text of its spelling; nothing where its type is not fit for an update.
pub fn event_of(role: Role, said: &[u8]) -> Option<Event>
    ensures { result ≡ event_of role (split 45 said.now) }
{
    match role {
        Role::Changes => Some(Event::Change),
        Role::Delays => Some(Event::Delay),
        Role::Cancels => Some(Event::Cancel),
        Role::Departs => Some(Event::Depart(time_in(amending::field(said, kinds::BRIEF_13)))),
        Role::Arrives => {
            let landed = last_field(said);
            Some(Event::Arrive(aerodromes::Aerodrome::of(landed), time_in(landed)))
        }
        Role::Files | Role::Neither => None,
    }
}

fn compares_time(role: Role) -> bool
    ensures { result ≡ compares_time role }
{
    matches!(role, Role::Changes | Role::Cancels | Role::Arrives)
}

// Whether the time in field 13 is compared, and differs.
fn time_differs(role: Role, a: &[u8], b: &[u8]) -> bool
    ensures { result ≡ (compares_time role && not (same (drop 4 a.now) (drop 4 b.now))) }
{
    if !compares_time(role) {
        return false;
    }
    !text::same_bytes(amending::behind_aerodrome(a), amending::behind_aerodrome(b))
}

fn compares_date(role: Role) -> bool
    ensures { result ≡ compares_date role }
{
    matches!(role, Role::Changes | Role::Cancels | Role::Departs)
}

// Whether the dates in two contents of field 18 are compared, and differ: both carry one, and they are not the same.
fn date_differs(role: Role, a: &[u8], b: &[u8]) -> bool
    ensures { result ≡ (compares_date role && other_day (date_in a.now) (date_in b.now)) }
{
    if !compares_date(role) {
        return false;
    }
    let ours = dates::date_word(a);
    if ours.len() == 0 {
        return false;
    }
    let theirs = dates::date_word(b);
    if theirs.len() == 0 {
        return false;
    }
    !text::same_bytes(ours, theirs)
}

// What differs between a plan and a message, from their texts.
pub fn differences_in(role: Role, plan: &[u8], said: &[u8]) -> Differences
    ensures { result ≡ differences role (split 45 plan.now) (split 45 said.now) }
{
    let ours = amending::field(plan, kinds::PLAN_13);
    let theirs = amending::field(said, kinds::BRIEF_13);
    Differences {
        identification: !text::same_bytes(
            head::identification(amending::field(plan, kinds::PLAN_7)),
            head::identification(amending::field(said, kinds::BRIEF_7)),
        ),
        aerodrome: !text::same_bytes(
            aerodromes::aerodrome_of(ours),
            aerodromes::aerodrome_of(theirs),
        ),
        time: time_differs(role, ours, theirs),
        destination: !text::same_bytes(
            aerodromes::aerodrome_of(amending::field(plan, kinds::PLAN_16)),
            aerodromes::aerodrome_of(amending::field(said, kinds::BRIEF_16)),
        ),
        date: date_differs(
            role,
            amending::field(plan, kinds::PLAN_18),
            amending::field(said, kinds::BRIEF_18),
        ),
    }
}

impl Differences {
    pub fn any(self) -> bool
        ensures { result ≡ differs self }
    {
        if self.identification {
            return true;
        }
        if self.aerodrome {
            return true;
        }
        if self.time {
            return true;
        }
        if self.destination {
            return true;
        }
        self.date
    }
}

// Numbers 10, 16 and 11 of the amended plan, which is written once, to a scratch with room for strip and message together; then the acceptance.
fn amend<'a>(role: Role, next: Strip, plan: &'a [u8], said: &'a [u8], out: &mut [u8]) -> Updated
    requires { Texts plan.now said.now }
    ensures { Amends role next plan.now said.now out.old result out.new }
{
    // A fixed room: nothing is allocated.
    let mut new = [0u8; ROOM];
    let n = amending::write_amended(role, plan, said, &mut new);
    let e = n - 1;
    if let Some(field) = message::unexplained_in(&new[1..e]) {
        return Err(Refusal {
            number: 10,
            field,
            place: 0,
        });
    }
    if outer::MOST_BYTES < n {
        return Err(Refusal::of(16));
    }
    if out.len() < n {
        return Err(Refusal::of(11));
    }
    let written = text::put(&new[..n], out);
    Ok((next, written))
}

// Numbers 14, 12 and 13, and what the amended plan gives.
fn offer<'a>(role: Role, held: Strip, plan: &'a [u8], said: &'a [u8], out: &mut [u8]) -> Updated
    requires { Texts plan.now said.now }
    ensures { Offers role held plan.now said.now out.old result out.new }
{
    match event_of(role, said) {
        None => Err(Refusal::of(14)),
        Some(e) => {
            if differences_in(role, plan, said).any() {
                return Err(Refusal::of(12));
            }
            if !held.allows(e) {
                return Err(Refusal::of(13));
            }
            amend(role, held.next(e), plan, said, out)
        }
    }
}

// Offers a message to a strip. Ok: the strip's new record and the length of its new spelling, which is then at the front of `out`, and
// the bytes behind it stay. Err: the number, the field and the place, and every byte of `out` stays.
pub fn update(strip: &[u8], held: Strip, msg: &[u8], out: &mut [u8]) -> Updated
    ensures { (result ≡ update_of strip.now held msg.now (length out.old))
        × (out.new ≡ out_after strip.now held msg.now out.old) }
{
    // A fixed room: nothing is allocated.
    let mut scratch = [0u8; outer::MOST_BYTES];
    let (t, n) = opening::open_strip(strip, held, msg, &mut scratch)?;
    let e = n - 1;
    let last = strip.len() - 1;
    offer(t.role(), held, &strip[1..last], &scratch[1..e], out)
}
