// The message types: their names, their fields in order, their least and greatest counts, and what they do to a strip.
#![tactic(auto)]

ghost use Rattle.std.specs.Prelude.{◌≡◌, ℕ, ◌<◌, ◌≤◌, get_or};
ghost use Rattle.kinds.specs.declared.Form.TheVariants.{Field3, Field22};
ghost use Rattle.kinds.specs.Kinds.{name_of, least_of, greatest_of, role_of, most_fields, RowFor, form_at, number_of, type_named};
ghost use Rattle.kinds.specs.Kinds.{type_refusal};

use outer::Refusal;

// The types that are read.
#[derive(Clone, Copy)]
pub enum MessageType {
    Fpl,
    Chg,
    Cnl,
    Dla,
    Dep,
    Arr,
    Rqp,
    Rqs,
    Spl,
}

// What a message does to a strip: it files the plan that the strip holds, changes it, delays the flight and so on, or does nothing to it.
#[derive(Clone, Copy)]
pub enum Role {
    Files,
    Changes,
    Delays,
    Cancels,
    Departs,
    Arrives,
    Neither,
}

// The forms of the fields. In Field13Open the time may be absent; Field16Plan has an elapsed time and alternates; Field22 is one entry.
#[derive(Clone, Copy)]
pub enum Form {
    Field3,
    Field7,
    Field8,
    Field9,
    Field10,
    Field13,
    Field13Open,
    Field15,
    Field16,
    Field16Plan,
    Field17,
    Field18,
    Field19,
    Field22,
}

// WHERE A FIELD STANDS, counted from 0

// In an FPL.
pub const PLAN_7: usize = 1;

pub const PLAN_8: usize = 2;

pub const PLAN_9: usize = 3;

pub const PLAN_10: usize = 4;

pub const PLAN_13: usize = 5;

pub const PLAN_15: usize = 6;

pub const PLAN_16: usize = 7;

pub const PLAN_18: usize = 8;

// In the types that update a strip; an ARR has 17 where the others have 18, and without field 16 in the place of 16. A CHG's entries begin behind field 18.
pub const BRIEF_7: usize = 1;

pub const BRIEF_13: usize = 2;

pub const BRIEF_16: usize = 3;

pub const BRIEF_18: usize = 4;

pub const FIRST_ENTRY: usize = 5;

// Why three bytes name no type that is read: they name a standard type that is not read, or none.
#[derive(Clone, Copy, PartialEq, Eq)]
pub enum TypeFault {
    NotRead,
    NoType,
}

// THE FORMS OF EACH TYPE'S FIELDS, in order; entries of field 22 may follow

const PLAN_FORMS: [Form; 9] = [
    Form::Field3,
    Form::Field7,
    Form::Field8,
    Form::Field9,
    Form::Field10,
    Form::Field13,
    Form::Field15,
    Form::Field16Plan,
    Form::Field18,
];

// CNL, DLA, DEP, RQS, and CHG, where entries follow.
const BRIEF_FORMS: [Form; 5] = [
    Form::Field3,
    Form::Field7,
    Form::Field13,
    Form::Field16,
    Form::Field18,
];

const REQUEST_FORMS: [Form; 5] = [
    Form::Field3,
    Form::Field7,
    Form::Field13Open,
    Form::Field16,
    Form::Field18,
];

// ARR, where field 16 is absent if there are four fields.
const ARRIVAL_FORMS: [Form; 4] = [Form::Field3, Form::Field7, Form::Field13, Form::Field17];

const DIVERTED_FORMS: [Form; 5] = [
    Form::Field3,
    Form::Field7,
    Form::Field13,
    Form::Field16,
    Form::Field17,
];

const SUPPLEMENT_FORMS: [Form; 6] = [
    Form::Field3,
    Form::Field7,
    Form::Field13,
    Form::Field16Plan,
    Form::Field18,
    Form::Field19,
];

// A row of forms, with entries behind the last one.
fn filled<const N: usize>(forms: [Form; N]) -> [Form; MessageType::MOST_FIELDS]
    requires { N ≤ most_fields }
    ensures { (j : ℕ) → j < most_fields → get_or result j Field3 ≡ get_or forms.entry j Field22 }
{
    let mut row = [Form::Field22; MessageType::MOST_FIELDS];
    row[..N].copy_from_slice(&forms);
    row
}

impl MessageType {
    // The most fields that a message of any type may have.
    pub const MOST_FIELDS: usize = 13;

    // Its name.
    pub fn letters(self) -> [u8; 3]
        ensures { result ≡ name_of self }
    {
        match self {
            MessageType::Fpl => *b"FPL",
            MessageType::Chg => *b"CHG",
            MessageType::Cnl => *b"CNL",
            MessageType::Dla => *b"DLA",
            MessageType::Dep => *b"DEP",
            MessageType::Arr => *b"ARR",
            MessageType::Rqp => *b"RQP",
            MessageType::Rqs => *b"RQS",
            MessageType::Spl => *b"SPL",
        }
    }

    pub fn least(self) -> usize
        ensures { result ≡ least_of self }
    {
        match self {
            MessageType::Fpl => 9,
            MessageType::Chg => 6,
            MessageType::Arr => 4,
            MessageType::Spl => 6,
            MessageType::Cnl
            | MessageType::Dla
            | MessageType::Dep
            | MessageType::Rqp
            | MessageType::Rqs => 5,
        }
    }

    pub fn greatest(self) -> usize
        ensures { result ≡ greatest_of self }
    {
        match self {
            MessageType::Fpl => 9,
            MessageType::Chg => MessageType::MOST_FIELDS,
            MessageType::Spl => 6,
            MessageType::Cnl
            | MessageType::Dla
            | MessageType::Dep
            | MessageType::Arr
            | MessageType::Rqp
            | MessageType::Rqs => 5,
        }
    }

    pub fn role(self) -> Role
        ensures { result ≡ role_of self }
    {
        match self {
            MessageType::Fpl => Role::Files,
            MessageType::Chg => Role::Changes,
            MessageType::Cnl => Role::Cancels,
            MessageType::Dla => Role::Delays,
            MessageType::Dep => Role::Departs,
            MessageType::Arr => Role::Arrives,
            MessageType::Rqp | MessageType::Rqs | MessageType::Spl => Role::Neither,
        }
    }

    // The forms of the fields of a message with `count` fields, in order; behind the last one stand entries.
    pub fn row(self, count: usize) -> [Form; MessageType::MOST_FIELDS]
        ensures { RowFor self count result }
    {
        match self {
            MessageType::Fpl => filled(PLAN_FORMS),
            MessageType::Chg
            | MessageType::Cnl
            | MessageType::Dla
            | MessageType::Dep
            | MessageType::Rqs => filled(BRIEF_FORMS),
            MessageType::Arr => arrival_row(count),
            MessageType::Rqp => filled(REQUEST_FORMS),
            MessageType::Spl => filled(SUPPLEMENT_FORMS),
        }
    }

    // The form of field j, counted from 0, of a message with `count` fields.
    pub fn form_at(self, count: usize, j: usize) -> Form
        ensures { result ≡ form_at self count j }
    {
        let row = self.row(count);
        row.get(j).copied().unwrap_or(Form::Field22)
    }
}

impl Form {
    // The number of the field.
    pub fn number(self) -> u8
        ensures { result ≡ number_of self }
    {
        match self {
            Form::Field3 => 3,
            Form::Field7 => 7,
            Form::Field8 => 8,
            Form::Field9 => 9,
            Form::Field10 => 10,
            Form::Field13 | Form::Field13Open => 13,
            Form::Field15 => 15,
            Form::Field16 | Form::Field16Plan => 16,
            Form::Field17 => 17,
            Form::Field18 => 18,
            Form::Field19 => 19,
            Form::Field22 => 22,
        }
    }
}

// ARR, where field 16 is absent if there are four fields.
fn arrival_row(count: usize) -> [Form; MessageType::MOST_FIELDS]
    ensures { RowFor MessageType.Arr count result }
{
    if count == 4 {
        return filled(ARRIVAL_FORMS);
    }
    filled(DIVERTED_FORMS)
}

// The types that are read, in the order of the standard types.
const TYPES_READ: [MessageType; 9] = [
    MessageType::Fpl,
    MessageType::Chg,
    MessageType::Cnl,
    MessageType::Dla,
    MessageType::Dep,
    MessageType::Arr,
    MessageType::Rqp,
    MessageType::Rqs,
    MessageType::Spl,
];

// Number 4 or 5: field 3 names no type, or one that is not read.
impl From<TypeFault> for Refusal {
    ghost from_gives = { λ fault given. given ≡ type_refusal fault };

    fn from(fault: TypeFault) -> Refusal {
        Refusal {
            number: match fault {
                TypeFault::NoType => 4,
                TypeFault::NotRead => 5,
            },
            field: 3,
            place: 0,
        }
    }
}

// The type that the three bytes behind ( name.
pub fn type_named(three: &[u8]) -> Result<MessageType, TypeFault>
    ensures { result ≡ type_named three.now }
{
    let Some(k) = text::rank_in_cells(
        three,
        4,
        b"FPL CHG CNL DLA DEP ARR RQP RQS SPL ALR RCF CPL EST CDN ACP LAM ",
    ) else {
        return Err(TypeFault::NoType);
    };
    TYPES_READ.get(k - 1).copied().ok_or(TypeFault::NotRead)
}
