// The amended plan: what a message makes of the plan that stands on a strip, written part by part.
#![tactic(auto)]

ghost use Rattle.std.specs.Prelude.{◌≡◌, [], ◌∷◌, ◌++◌, suc, ◌≤◌, length, drop, get_or};
ghost use Rattle.text.specs.Words.{split};
ghost use Rattle.message.specs.Reading.{lead_of};
ghost use Rattle.force.specs.InForce.{AtEntries, put_in};
ghost use Rattle.dates.specs.Dates.{Puts};
ghost use Rattle.amending.specs.Amended.{dated_by, content_in, new_strip};

use kinds::Role;
use text::Cursor;

const PLAN_FIELDS: usize = 9;

// Field j of a text, counted from 0; empty where there are fewer.
pub fn field<'a>(s: &'a [u8], j: usize) -> &'a [u8]
    ensures { result.now ≡ get_or (split 45 s.now) j [] }
{
    let c = force::seek(s, j);
    c.part(s, b'-')
}

// What stands behind the first four bytes of a content.
pub fn behind_aerodrome<'a>(s: &'a [u8]) -> &'a [u8]
    ensures { result.now ≡ drop 4 s.now }
{
    s.get(4..).unwrap_or(&[])
}

// Writes the plan's own field of rank k with an entry's content put in: behind a destination alone, what stands behind the plan's own.
fn put_entry<'a>(own: &'a [u8], content: &'a [u8], k: usize, out: &mut [u8]) -> usize
    requires { length (put_in k content.now own.now) ≤ length out.old }
    ensures { Puts (put_in k content.now own.now) result out.old out.new }
{
    if force::is_bare(k, content) {
        return dates::put_two(content, behind_aerodrome(own), out);
    }
    text::put(content, out)
}

// Writes field k of a plan after a CHG at the front of `out`: what the entry that names it makes of it, otherwise the plan's own. The entries begin
// at `first`.
fn put_changed<'a>(own: &'a [u8], said: &'a [u8], first: Cursor, k: usize, out: &mut [u8]) -> usize
    requires { AtEntries said.now first.at × (length (content_in Role.Changes own.now said.now k) ≤ length out.old) }
    ensures { Puts (content_in Role.Changes own.now said.now k) result out.old out.new }
{
    match force::named_from(said, first, k) {
        Some(at) => put_entry(own, &said[at.from..at.to], k, out),
        None => text::put(own, out),
    }
}

// Writes a plan's field 18 with a date put in; as it stands where there is none.
fn put_date<'a>(own: &'a [u8], date: &'a [u8], out: &mut [u8]) -> usize
    requires { length (dated_by date.now own.now) ≤ length out.old }
    ensures { Puts (dated_by date.now own.now) result out.old out.new }
{
    if date.len() == 0 {
        return text::put(own, out);
    }
    dates::put_dated(own, date, out)
}

// Writes field k of a plan after a DLA: of field 13 the plan's aerodrome and the DLA's time, field 18 with the DLA's date, otherwise the plan's own.
fn put_delayed<'a>(own: &'a [u8], said: &'a [u8], k: usize, out: &mut [u8]) -> usize
    requires { length (content_in Role.Delays own.now said.now k) ≤ length out.old }
    ensures { Puts (content_in Role.Delays own.now said.now k) result out.old out.new }
{
    if k == kinds::PLAN_13 {
        let time = behind_aerodrome(field(said, kinds::BRIEF_13));
        return dates::put_two(aerodromes::aerodrome_of(own), time, out);
    }
    if k == kinds::PLAN_18 {
        let date = dates::date_word(field(said, kinds::BRIEF_18));
        return put_date(own, date, out);
    }
    text::put(own, out)
}

// Writes field k of the amended plan, of which `own` is the plan's.
fn put_content<'a>(
    role: Role,
    own: &'a [u8],
    said: &'a [u8],
    first: Cursor,
    k: usize,
    out: &mut [u8],
) -> usize
    requires { AtEntries said.now first.at × (length (content_in role own.now said.now k) ≤ length out.old) }
    ensures { Puts (content_in role own.now said.now k) result out.old out.new }
{
    match role {
        Role::Changes => put_changed(own, said, first, k, out),
        Role::Delays => put_delayed(own, said, k, out),
        Role::Cancels | Role::Departs | Role::Arrives | Role::Files | Role::Neither => {
            text::put(own, out)
        }
    }
}

// Writes field k of the amended plan behind the byte that leads to it.
fn put_field<'a>(
    role: Role,
    own: &'a [u8],
    said: &'a [u8],
    first: Cursor,
    k: usize,
    out: &mut [u8],
) -> usize
    requires { AtEntries said.now first.at × (length (lead_of k ∷ content_in role own.now said.now k) ≤ length out.old) }
    ensures { Puts (lead_of k ∷ content_in role own.now said.now k) result out.old out.new }
{
    out[0] = message::lead_of(k);
    let n = put_content(role, own, said, first, k, &mut out[1..]);
    n + 1
}

// The cursor behind a field that ends at e.
fn behind(plan: &[u8], e: usize) -> Cursor
    requires { e ≤ length plan.now }
    ensures { (result.at ≤ length plan.now) × (drop result.at plan.now ≡ drop (suc e) plan.now) }
{
    if e < plan.len() {
        return Cursor { at: e + 1 };
    }
    Cursor { at: e }
}

// Writes the amended plan, field by field, at the front of `out`.
pub fn write_amended<'a>(role: Role, plan: &'a [u8], said: &'a [u8], out: &mut [u8]) -> usize
    requires { length (new_strip role plan.now said.now) ≤ length out.old }
    ensures { Puts (new_strip role plan.now said.now) result out.old out.new }
{
    let first = force::first_entry(said);
    let mut o = 0;
    let mut c = Cursor { at: 0 };
    for k in 0..PLAN_FIELDS {
        let at = c.at;
        let e = c.end(plan, b'-');
        o += put_field(role, &plan[at..e], said, first, k, &mut out[o..]);
        c = behind(plan, e);
    }
    out[o] = b')';
    o + 1
}
