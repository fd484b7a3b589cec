//! The kinds, and the fields that each has: the one description that reading, length and writing go by.
ghost use Rattle.std.specs.Prelude.{◌≡◌, ◌≤◌, if◌then◌else◌};
ghost use Rattle.amq_record.specs.Layouts.{kind_numbered, number_of, kind_in, layout_of, fixed_len, values_of, values_in};

use amq_model::Record;

/// The kind of a record.
#[derive(Clone, Copy, Debug, PartialEq, Eq)]
pub enum Kind {
    Add,
    Update,
    AddTx,
    UpdateTx,
    DeleteTx,
    Delete,
    Prepare,
    Commit,
    Rollback,
}

/// Which fields stand between a record's compact count and its check size, in this order: a transaction's
/// number of 8 bytes, an id of 8, a number of records of 4, and a body.
#[derive(Clone, Copy, Debug, PartialEq, Eq)]
pub struct Layout {
    pub tx: bool,
    pub id: bool,
    pub count: bool,
    pub body: BodyForm,
}

/// A body has its length in front, of 4 bytes, and may have a user type of 1 byte between them.
#[derive(Clone, Copy, Debug, PartialEq, Eq)]
pub enum BodyForm {
    Absent,
    Sized,
    Typed,
}

/// The values of the fields: 0, or no bytes, where the layout has none.
#[derive(Clone, Copy, Debug, PartialEq, Eq)]
pub struct Fields<'a> {
    pub tx: u64,
    pub id: u64,
    pub count: u32,
    pub user_type: u8,
    pub body: &'a [u8],
}

impl Kind {
    /// The kind of this number; `None` where none has it.
    #[inline]
    pub fn numbered(number: u8) -> Option<Kind>
        ensures { result ≡ kind_numbered number }
    {
        match number {
            11 => Some(Kind::Add),
            12 => Some(Kind::Update),
            13 => Some(Kind::AddTx),
            14 => Some(Kind::UpdateTx),
            15 => Some(Kind::DeleteTx),
            16 => Some(Kind::Delete),
            17 => Some(Kind::Prepare),
            18 => Some(Kind::Commit),
            19 => Some(Kind::Rollback),
            _ => None,
        }
    }

    /// Its number, the first byte of a record.
    #[inline]
    pub fn number(self) -> u8
        ensures { result ≡ number_of self }
    {
        match self {
            Kind::Add => 11,
            Kind::Update => 12,
            Kind::AddTx => 13,
            Kind::UpdateTx => 14,
            Kind::DeleteTx => 15,
            Kind::Delete => 16,
            Kind::Prepare => 17,
            Kind::Commit => 18,
            Kind::Rollback => 19,
        }
    }

    #[inline]
    pub fn of(rec: &Record) -> Kind
        ensures { result ≡ kind_in rec.now }
    {
        match rec {
            Record::Add { .. } => Kind::Add,
            Record::Update { .. } => Kind::Update,
            Record::AddTx { .. } => Kind::AddTx,
            Record::UpdateTx { .. } => Kind::UpdateTx,
            Record::DeleteTx { .. } => Kind::DeleteTx,
            Record::Delete { .. } => Kind::Delete,
            Record::Prepare { .. } => Kind::Prepare,
            Record::Commit { .. } => Kind::Commit,
            Record::Rollback { .. } => Kind::Rollback,
        }
    }

    /// The fields of its records.
    #[inline]
    pub fn layout(self) -> Layout
        ensures { result ≡ layout_of self }
    {
        let (tx, id, count, body) = match self {
            Kind::Add | Kind::Update => (false, true, false, BodyForm::Typed),
            Kind::AddTx | Kind::UpdateTx => (true, true, false, BodyForm::Typed),
            Kind::DeleteTx => (true, true, false, BodyForm::Sized),
            Kind::Delete => (false, true, false, BodyForm::Absent),
            Kind::Prepare => (true, false, true, BodyForm::Sized),
            Kind::Commit => (true, false, true, BodyForm::Absent),
            Kind::Rollback => (true, false, false, BodyForm::Absent),
        };
        Layout {
            tx,
            id,
            count,
            body,
        }
    }
}

impl Layout {
    /// How long a record with an empty body is, in bytes.
    #[inline]
    pub fn len(self) -> u64
        ensures value { result ≡ fixed_len self }
        ensures small { result ≤ 35 }
    {
        let body = match self.body {
            BodyForm::Absent => 0,
            BodyForm::Sized => 4,
            BodyForm::Typed => 5,
        };
        10 + width(8, self.tx) + width(8, self.id) + width(4, self.count) + body
    }
}

impl<'a> Fields<'a> {
    /// The values in the record.
    #[inline]
    pub fn of(rec: &'a Record) -> Fields<'a>
        ensures { values_of result ≡ values_in rec.now }
    {
        let none = Fields {
            tx: 0,
            id: 0,
            count: 0,
            user_type: 0,
            body: &[],
        };
        match rec {
            Record::Add {
                id,
                user_type,
                body,
            }
            | Record::Update {
                id,
                user_type,
                body,
            } => Fields {
                id: *id,
                user_type: *user_type,
                body: body.as_slice(),
                ..none
            },
            Record::AddTx {
                tx,
                id,
                user_type,
                body,
            }
            | Record::UpdateTx {
                tx,
                id,
                user_type,
                body,
            } => Fields {
                tx: *tx,
                id: *id,
                user_type: *user_type,
                body: body.as_slice(),
                ..none
            },
            Record::DeleteTx { tx, id, body } => Fields {
                tx: *tx,
                id: *id,
                body: body.as_slice(),
                ..none
            },
            Record::Delete { id } => Fields { id: *id, ..none },
            Record::Prepare { tx, count, extra } => Fields {
                tx: *tx,
                count: *count,
                body: extra.as_slice(),
                ..none
            },
            Record::Commit { tx, count } => Fields {
                tx: *tx,
                count: *count,
                ..none
            },
            Record::Rollback { tx } => Fields { tx: *tx, ..none },
        }
    }
}

/// The width of a field that may be there.
#[inline]
fn width(bytes: u64, there: bool) -> u64
    ensures { result ≡ (if there then bytes else 0) }
{
    if there { bytes } else { 0 }
}
