// Reading a message: its answer, and its spelling written to the room that is lent.
#![tactic(auto)]

ghost use Rattle.std.specs.Prelude.{◌≡◌, true, ◌&&◌, cond, [], ◌∷◌, ◌≤◌, ◌<◌, Ok, is_ok, leb, eqb, length, drop, get_or};
ghost use Rattle.text.specs.Words.{split, same};
ghost use Rattle.space.specs.Reduced.{reduced};
ghost use Rattle.text.specs.Lent.{front};
ghost use Rattle.space.specs.Hyphens.{behind_hyphen, place_of_hyphen};
ghost use Rattle.space.specs.Places.{sent_place};
ghost use Rattle.outer.specs.Outer.{most, outer};
ghost use Rattle.kinds.specs.Kinds.{forms_of, most_fields, least_of, greatest_of};
ghost use Rattle.forms.specs.Forms.{field_of, written_of};
ghost use Rattle.form_places.specs.Places.{place_in};
ghost use Rattle.plan.specs.Unexplained.{numbered};
ghost use Rattle.message.specs.Ends.{Ends, Noted};
ghost use Rattle.message.specs.Reading.{
  fault_in,
  unexplained_in,
  lead_of,
  spelled_from,
  is_plan,
  place_in_plan,
  Counted,
  count_of,
  three,
  room_as,
  fault_as,
  fields_as,
  count_as,
  outer_as,
  answer_of,
  written_as,
  out_after,
  plans,
  plan_itself,
};

use kinds::{Form, MessageType, Role};
use outer::Refusal;
use text::Cursor;

// What is wrong with a message's fields: a number and the place of the field, counted from 0.
#[derive(Clone, Copy, PartialEq, Eq)]
pub struct FieldFault {
    pub number: u8,
    pub field: usize,
}

// The type of a message that is accepted and the length of its spelling, or the refusal.
pub type Answer = Result<(MessageType, usize), Refusal>;

// The byte before a field: `(` before the first, `-` before the others.
pub fn lead_of(j: usize) -> u8
    ensures { result ≡ lead_of j }
{
    if j == 0 { b'(' } else { b'-' }
}

// The places of the fields' ends in a text; behind the last field's they mean nothing.
type FieldEnds = [usize; MessageType::MOST_FIELDS];

// Notes the hyphens from `from` up to `to`, each as the end of the field before it; n were noted before, and the result is how many are then. Byte by byte.
fn note_each(s: &[u8], from: usize, to: usize, n: usize, ends: &mut FieldEnds) -> usize
    requires { (from ≤ to) × (to ≤ length s.now) × Noted s.now ends.old n from }
    ensures { Noted s.now ends.new result to }
{
    let mut noted = n;
    for i in from..to {
        if s[i] == b'-' {
            ends[noted] = i;
            noted += 1;
        }
    }
    noted
}

// The same. Where there is none, that is seen at once.
fn note(s: &[u8], from: usize, to: usize, n: usize, ends: &mut FieldEnds) -> usize
    requires { (from ≤ to) × (to ≤ length s.now) × Noted s.now ends.old n from }
    ensures { Noted s.now ends.new result to }
{
    if text::is_free(b'-', &s[from..to]) {
        return n;
    }
    note_each(s, from, to, n, ends)
}

// Where each field of a text ends: at its hyphen, or at the end of the text. Block by block: one without a hyphen is passed at once.
fn field_ends(s: &[u8]) -> FieldEnds
    requires { length (split 45 s.now) ≤ most_fields }
    ensures { Ends s.now result }
{
    let mut ends = [0usize; MessageType::MOST_FIELDS];
    let mut n = 0;
    for block in 0..s.len() / 16 {
        let from = 16 * block;
        let half = from + 8;
        let to = from + 16;
        if !text::is_free(b'-', &s[from..to]) {
            n = note(s, from, half, n, &mut ends);
            n = note(s, half, to, n, &mut ends);
        }
    }
    n = note_each(s, s.len() / 16 * 16, s.len(), n, &mut ends);
    ends[n] = s.len();
    ends
}

// The content of field j, where the fields' ends are known.
fn content_at<'a>(s: &'a [u8], ends: &FieldEnds, j: usize) -> &'a [u8]
    requires { Ends s.now ends.now × (j < length (split 45 s.now)) }
    ensures { result.now ≡ get_or (split 45 s.now) j [] }
{
    let e = ends[j];
    if j == 0 {
        return &s[..e];
    }
    let at = ends[j - 1] + 1;
    &s[at..e]
}

// The leftmost field of a text that has a number 7, 8 or 9. An entry names a field by its rank; `seen` marks the ranks named before.
fn fields_fault(t: MessageType, count: usize, s: &[u8], ends: &FieldEnds) -> Result<(), FieldFault>
    requires { Ends s.now ends.now × (length (forms_of t count) ≡ length (split 45 s.now)) }
    ensures { result ≡ fault_in t count (split 45 s.now) }
{
    let row = t.row(count);
    let mut seen = [false; 9];
    let mut at = 0;
    let mut j = 0;
    // A loop: each field is cut at its end, which is noted and need not be found again.
    loop {
        let e = ends[j];
        let form = row[j];
        let rank = forms::rank_in(form, &s[at..e]);
        if let Err(number) = forms::fault_of(seen[rank], form, &s[at..e]) {
            return Err(FieldFault { number, field: j });
        }
        if e == s.len() {
            return Ok(());
        }
        seen[rank] = true;
        at = e + 1;
        j += 1;
    }
}

// How many bytes the spelling of a text's fields takes, with the parentheses.
fn spelled_length(t: MessageType, count: usize, s: &[u8]) -> usize
    requires { (length s.now ≤ most) × (length (forms_of t count) ≡ length (split 45 s.now)) }
    ensures { result ≡ length (spelled_from 40 (forms_of t count) (split 45 s.now)) }
{
    let mut n = 0;
    let mut at = 0;
    let mut j = 0;
    // A loop: the field, its form and its place go on together, and the place ends it.
    loop {
        let e = text::find(s, at, b'-');
        n += 1 + forms::spelled_length(t.form_at(count, j), &s[at..e]);
        if e == s.len() {
            return n + 1;
        }
        at = e + 1;
        j += 1;
    }
}

// Writes the spelling of a text's fields at the front of `out`: each field goes behind the last one, in the rest that is lent to it.
fn write_fields(t: MessageType, count: usize, s: &[u8], ends: &FieldEnds, out: &mut [u8]) -> usize
    requires { Ends s.now ends.now × (length (spelled_from 40 (forms_of t count) (split 45 s.now)) ≤ length out.old)
        × (length (forms_of t count) ≡ length (split 45 s.now)) × (fault_in t count (split 45 s.now) ≡ Ok tt) }
    ensures { (result ≡ length (spelled_from 40 (forms_of t count) (split 45 s.now)))
        × (out.new ≡ front (spelled_from 40 (forms_of t count) (split 45 s.now)) out.old) }
{
    let row = t.row(count);
    out[0] = b'(';
    let mut o = 1;
    let mut at = 0;
    let mut j = 0;
    // A loop, as in `fields_fault`: what is written of a field says where the next one goes.
    loop {
        let e = ends[j];
        let form = row[j];
        o += forms::write_fitting(form, &s[at..e], &mut out[o..]);
        if e == s.len() {
            out[o] = b')';
            return o + 1;
        }
        out[o] = b'-';
        o += 1;
        at = e + 1;
        j += 1;
    }
}

// The cursor n fields on; at the end where there are fewer.
pub fn onward(s: &[u8], from: Cursor, n: usize) -> Cursor
    requires { from.at ≤ length s.now }
    ensures { (result.at ≤ length s.now) × (drop result.at s.now ≡ behind_hyphen n (drop from.at s.now)) }
{
    let mut c = from;
    for _ in 0..n {
        if c.at == s.len() {
            return c;
        }
        c = c.next(s, b'-');
    }
    c
}

// The number of the leftmost field of a plan that is left unexplained.
pub fn unexplained_in(plan: &[u8]) -> Option<u8>
    ensures { result ≡ numbered (unexplained_in (split 45 plan.now)) }
{
    let nine = onward(plan, Cursor { at: 0 }, kinds::PLAN_9);
    let thirteen = onward(plan, nine, kinds::PLAN_13 - kinds::PLAN_9);
    let sixteen = onward(plan, thirteen, kinds::PLAN_16 - kinds::PLAN_13);
    let eighteen = onward(plan, sixteen, kinds::PLAN_18 - kinds::PLAN_16);
    plan::unexplained_field(
        nine.part(plan, b'-'),
        thirteen.part(plan, b'-'),
        sixteen.part(plan, b'-'),
        eighteen.part(plan, b'-'),
    )
}

// The same, of a plan whose fields' ends are known.
fn unexplained_by(plan: &[u8], ends: &FieldEnds) -> Option<u8>
    requires { Ends plan.now ends.now × (length (split 45 plan.now) ≡ 9) }
    ensures { result ≡ numbered (unexplained_in (split 45 plan.now)) }
{
    plan::unexplained_field(
        content_at(plan, ends, kinds::PLAN_9),
        content_at(plan, ends, kinds::PLAN_13),
        content_at(plan, ends, kinds::PLAN_16),
        content_at(plan, ends, kinds::PLAN_18),
    )
}

pub fn is_plan(t: MessageType) -> bool
    ensures { result ≡ is_plan t }
{
    matches!(t.role(), Role::Files)
}

// Where an FPL has field 9, 13 or 16.
fn place_in_plan(field: u8) -> usize
    ensures { result ≡ place_in_plan field }
{
    if field == 9 {
        return kinds::PLAN_9;
    }
    if field == 13 {
        kinds::PLAN_13
    } else {
        kinds::PLAN_16
    }
}

// Whether the spelling fits so many bytes. It is never longer than the text with its parentheses, so it is measured only where these do not fit.
fn has_room(t: MessageType, count: usize, s: &[u8], room: usize) -> bool
    requires { (length s.now ≤ most) × (length (forms_of t count) ≡ length (split 45 s.now)) }
    ensures { result ≡ leb (length (spelled_from 40 (forms_of t count) (split 45 s.now))) room }
{
    if s.len() + 2 <= room {
        return true;
    }
    spelled_length(t, count, s) <= room
}

// Number 11, and the acceptance: everything is checked before the first byte is written.
fn read_room(
    t: MessageType,
    count: usize,
    msg: &[u8],
    s: &[u8],
    ends: &FieldEnds,
    out: &mut [u8],
) -> Answer
    requires { Counted t msg.now count s.now × Ends s.now ends.now × (fault_in t count (split 45 s.now) ≡ Ok tt) }
    ensures { (result ≡ room_as t msg.now (length out.old))
        × (out.new ≡ written_as (room_as t msg.now (length out.old)) msg.now out.old) }
{
    if !has_room(t, count, s, out.len()) {
        return Err(Refusal::of(11));
    }
    let n = write_fields(t, count, s, ends, out);
    Ok((t, n))
}

// Numbers 10 and 11.
fn read_explained(
    t: MessageType,
    count: usize,
    msg: &[u8],
    s: &[u8],
    ends: &FieldEnds,
    out: &mut [u8],
) -> Answer
    requires { Counted t msg.now count s.now × Ends s.now ends.now × (fault_in t count (split 45 s.now) ≡ Ok tt) }
    ensures { (result ≡ fault_as (Ok tt) t msg.now (length out.old))
        × (out.new ≡ written_as (fault_as (Ok tt) t msg.now (length out.old)) msg.now out.old) }
{
    if is_plan(t) {
        if let Some(field) = unexplained_by(s, ends) {
            return Err(Refusal {
                number: 10,
                field,
                place: space::place_of_hyphen(msg, place_in_plan(field)),
            });
        }
    }
    read_room(t, count, msg, s, ends, out)
}

// The place of field j, of this form and content, that has number 7, 8 or 9: its `-`, or 0 for field 3; for 7 the first byte at which no content that fits
// could go on.
fn fault_place(number: u8, form: Form, j: usize, w: &[u8], msg: &[u8]) -> usize
    ensures { result ≡ cond (eqb number 7) (sent_place j (place_in form w.now) msg.now) (place_of_hyphen j msg.now) }
{
    if number != 7 {
        return space::place_of_hyphen(msg, j);
    }
    space::place_sent(msg, j, form_places::place_in(form, w))
}

// Numbers 7 to 11, for the text of a message whose fields are as many as its type allows.
fn read_text(t: MessageType, count: usize, msg: &[u8], s: &[u8], out: &mut [u8]) -> Answer
    requires { Counted t msg.now count s.now × (length (split 45 s.now) ≤ most_fields) }
    ensures { (result ≡ fields_as t msg.now (length out.old))
        × (out.new ≡ written_as (fields_as t msg.now (length out.old)) msg.now out.old) }
{
    let ends = field_ends(s);
    if let Err(fault) = fields_fault(t, count, s, &ends) {
        let form = t.form_at(count, fault.field);
        let w = content_at(s, &ends, fault.field);
        return Err(Refusal {
            number: fault.number,
            field: form.number(),
            place: fault_place(fault.number, form, fault.field, w, msg),
        });
    }
    read_explained(t, count, msg, s, &ends, out)
}

// Numbers 7 to 11: white space is reduced into a scratch, and the text between the parentheses is read there.
fn read_scratch(t: MessageType, count: usize, msg: &[u8], out: &mut [u8]) -> Answer
    requires { (outer msg.now ≡ Ok tt) × (count ≡ count_of msg.now) × (least_of t ≤ count) × (count ≤ greatest_of t) }
    ensures { (result ≡ fields_as t msg.now (length out.old))
        × (out.new ≡ written_as (fields_as t msg.now (length out.old)) msg.now out.old) }
{
    // A fixed room: nothing is allocated.
    let mut scratch = [0u8; outer::MOST_BYTES];
    let n = space::reduce(msg, &mut scratch);
    let e = n - 1;
    read_text(t, count, msg, &scratch[1..e], out)
}

// Numbers 7 to 11. A message that is its own reduction is read where it stands.
fn read_reduced(t: MessageType, count: usize, msg: &[u8], out: &mut [u8]) -> Answer
    requires { (outer msg.now ≡ Ok tt) × (count ≡ count_of msg.now) × (least_of t ≤ count) × (count ≤ greatest_of t) }
    ensures { (result ≡ fields_as t msg.now (length out.old))
        × (out.new ≡ written_as (fields_as t msg.now (length out.old)) msg.now out.old) }
{
    if space::is_reduced(msg) {
        let last = msg.len() - 1;
        return read_text(t, count, msg, &msg[1..last], out);
    }
    read_scratch(t, count, msg, out)
}

// Numbers 6 to 11, for a message of a type.
fn read_count(t: MessageType, msg: &[u8], out: &mut [u8]) -> Answer
    requires { outer msg.now ≡ Ok tt }
    ensures { (result ≡ count_as t msg.now (length out.old))
        × (out.new ≡ written_as (count_as t msg.now (length out.old)) msg.now out.old) }
{
    let count = space::count_hyphens(msg) + 1;
    if count < t.least() {
        return Err(Refusal::at(6, msg.len() - 1));
    }
    let greatest = t.greatest();
    if greatest < count {
        return Err(Refusal::at(6, space::place_of_hyphen(msg, greatest)));
    }
    read_reduced(t, count, msg, out)
}

// The three bytes after `(`, or fewer.
fn three_of<'a>(msg: &'a [u8]) -> &'a [u8]
    requires { 1 ≤ length msg.now }
    ensures { result.now ≡ three msg.now }
{
    if msg.len() < 4 {
        return &msg[1..];
    }
    &msg[1..4]
}

// Numbers 4 to 11, for a message that numbers 1 to 3 let pass.
fn read_type(msg: &[u8], out: &mut [u8]) -> Answer
    requires { outer msg.now ≡ Ok tt }
    ensures { (result ≡ outer_as (Ok tt) msg.now (length out.old))
        × (out.new ≡ written_as (outer_as (Ok tt) msg.now (length out.old)) msg.now out.old) }
{
    let t = kinds::type_named(three_of(msg))?;
    read_count(t, msg, out)
}

// Reads a message. Ok: its type and the length of its spelling, which is then at the front of `out`, and the bytes behind it stay.
// Err: the number, the field and the place in the message as sent, and every byte of `out` stays.
pub fn read(msg: &[u8], out: &mut [u8]) -> Answer
    ensures { (result ≡ answer_of msg.now (length out.old)) × (out.new ≡ out_after msg.now out.old) }
{
    outer::check_outer(msg)?;
    read_type(msg, out)
}

// Whether the fields of a plan's text have none of the numbers 7 to 10.
fn is_plan_text(t: MessageType, count: usize, s: &[u8]) -> bool
    requires { (is_plan t ≡ true) × (length (forms_of t count) ≡ length (split 45 s.now)) }
    ensures { result ≡ (is_ok (fault_in t count (split 45 s.now)) && eqb (unexplained_in (split 45 s.now)) 0) }
{
    let ends = field_ends(s);
    fields_fault(t, count, s, &ends).is_ok() && unexplained_by(s, &ends).is_none()
}

// Whether a message of a type is a plan and its own reduction, and numbers 6 to 11 let it pass.
fn is_plan_counted(t: MessageType, msg: &[u8]) -> bool
    requires { outer msg.now ≡ Ok tt }
    ensures { result ≡ (plans (count_as t msg.now most) && same (reduced msg.now) msg.now) }
{
    if !is_plan(t) {
        return false;
    }
    if !space::is_reduced(msg) {
        return false;
    }
    let count = space::count_hyphens(msg) + 1;
    if count < t.least() {
        return false;
    }
    if t.greatest() < count {
        return false;
    }
    let last = msg.len() - 1;
    is_plan_text(t, count, &msg[1..last])
}

// The same, for a message that numbers 1 to 3 let pass.
fn is_plan_typed(msg: &[u8]) -> bool
    requires { outer msg.now ≡ Ok tt }
    ensures { result ≡ (plans (outer_as (Ok tt) msg.now most) && same (reduced msg.now) msg.now) }
{
    match kinds::type_named(three_of(msg)) {
        Ok(t) => is_plan_counted(t, msg),
        Err(_) => false,
    }
}

// Whether a message is a plan as it is written: accepted as one, with room enough, and its own reduction. A plan's fields are written as they were sent,
// so its spelling is then the message itself, and need not be written.
pub fn is_plan_itself(msg: &[u8]) -> bool
    ensures { result ≡ plan_itself msg.now }
{
    outer::check_outer(msg).is_ok() && is_plan_typed(msg)
}
