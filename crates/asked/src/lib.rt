// The field in force, as the desk asks for it: where its content stands, in the CHG or in the strip.
#![tactic(auto)]

ghost use Rattle.std.specs.Prelude.{◌≡◌, ◌≤◌, Ok, length};
ghost use Rattle.asked.specs.Asking.{rank_of, is_change, stands_as, is_bare, flight_as, type_as, asked_of, shown, StandsAt};
ghost use Rattle.force.specs.InForce.{in_force, named_by};
ghost use Rattle.space.specs.Fields.{inner};
ghost use Rattle.outer.specs.Outer.{most};
ghost use Rattle.asked.specs.Parts.{Shows, ShowsText};

use kinds::{MessageType, Role};
use outer::Refusal;
use state::Strip;

// Where the content stands, from its first byte to behind its last.
#[derive(Clone, Copy)]
pub enum Place {
    InStrip { from: usize, to: usize },
    InChange { from: usize, to: usize },
}

// Where it stands, or the refusal.
pub type Asked = Result<Place, Refusal>;

// The rank of a field number among the eight that an entry may name; 0 for any other number: the clauses `stands_as` and `flight_as` go by that number.
fn rank_of(number: u8) -> usize
    ensures { result ≡ rank_of number }
{
    match number {
        7 => kinds::PLAN_7,
        8 => kinds::PLAN_8,
        9 => kinds::PLAN_9,
        10 => kinds::PLAN_10,
        13 => kinds::PLAN_13,
        15 => kinds::PLAN_15,
        16 => kinds::PLAN_16,
        18 => kinds::PLAN_18,
        _ => 0,
    }
}

fn is_change(t: MessageType) -> bool
    ensures { result ≡ is_change t }
{
    matches!(t.role(), Role::Changes)
}

// Where the field of rank k stands, from the texts between the parentheses; a text begins one byte behind its message.
fn stands(plan: &[u8], said: &[u8], k: usize) -> Place
    requires { (length plan.now ≤ most) × (length said.now ≤ most) }
    ensures value { Ok result ≡ stands_as plan.now said.now k }
    ensures shows_text { ShowsText (Ok result) plan.now said.now (in_force plan.now said.now k) }
{
    match force::named(said, k) {
        Some(at) => Place::InChange {
            from: at.from + 1,
            to: at.to + 1,
        },
        None => {
            let c = force::seek(plan, k);
            let at = c.at;
            let e = c.end(plan, b'-');
            Place::InStrip {
                from: at + 1,
                to: e + 1,
            }
        }
    }
}

// Whether a CHG has a destination alone for the field of rank k.
fn named_bare(said: &[u8], k: usize) -> bool
    ensures { result ≡ is_bare k (named_by said.now k) }
{
    match force::named(said, k) {
        Some(at) => force::is_bare(k, &said[at.from..at.to]),
        None => false,
    }
}

// Numbers 12, 17 of a destination alone, and 8, and the place.
fn ask_texts(plan: &[u8], said: &[u8], number: u8) -> Asked
    requires { (length plan.now ≤ most) × (length said.now ≤ most) }
    ensures value { result ≡ flight_as plan.now said.now number }
    ensures shows_text { ShowsText result plan.now said.now (in_force plan.now said.now (rank_of number)) }
{
    if strip::differences_in(Role::Changes, plan, said).any() {
        return Err(Refusal::of(12));
    }
    let k = rank_of(number);
    if named_bare(said, k) {
        return Err(Refusal::of(17));
    }
    if k == 0 {
        return Err(Refusal {
            number: 8,
            field: number,
            place: 0,
        });
    }
    Ok(stands(plan, said, k))
}

// Numbers 14 and 17 of a message that was read and is spelled so, and what its text gives.
fn ask_read(t: MessageType, spelled: &[u8], strip: &[u8], chg: &[u8], number: u8) -> Asked
    requires { (2 ≤ length spelled.now) × (length spelled.now ≤ most) × (2 ≤ length strip.now) × (length strip.now ≤ most) }
    ensures value { result ≡ type_as t spelled.now strip.now chg.now number }
    ensures shows { Shows result strip.now chg.now (in_force (inner strip.now) (inner chg.now) (rank_of number)) }
{
    if !is_change(t) {
        return Err(Refusal::of(14));
    }
    if !text::same_bytes(spelled, chg) {
        return Err(Refusal::of(17));
    }
    let last = strip.len() - 1;
    let e = chg.len() - 1;
    ask_texts(&strip[1..last], &chg[1..e], number)
}

// Where the content of a field in force stands: in the CHG if an entry names it, otherwise in the strip.
pub fn ask(strip: &[u8], held: Strip, chg: &[u8], number: u8) -> Asked
    ensures value { result ≡ asked_of strip.now held chg.now number }
    ensures shows { Shows result strip.now chg.now (in_force (inner strip.now) (inner chg.now) (rank_of number)) }
{
    // A fixed room: nothing is allocated.
    let mut scratch = [0u8; outer::MOST_BYTES];
    let (t, n) = opening::open_strip(strip, held, chg, &mut scratch)?;
    ask_read(t, &scratch[..n], strip, chg, number)
}

// Shows the content of a field in force, as a part of the CHG or of the strip; a refusal shows an empty part at the strip's start.
pub fn in_force<'a>(strip: &'a [u8], held: Strip, chg: &'a [u8], number: u8) -> &'a [u8]
    ensures result_value { result.now ≡ shown (asked_of strip.now held chg.now number) strip.now chg.now number }
    ensures stands_at { StandsAt (asked_of strip.now held chg.now number)
        strip.entry.ref_ptr.0 strip.entry.ref_ptr.1 chg.entry.ref_ptr.0 chg.entry.ref_ptr.1 result.ref_ptr.0 result.ref_ptr.1 }
{
    match ask(strip, held, chg, number) {
        Ok(Place::InStrip { from, to }) => &strip[from..to],
        Ok(Place::InChange { from, to }) => &chg[from..to],
        Err(_) => &strip[..0],
    }
}
