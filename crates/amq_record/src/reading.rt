ghost use Rattle.std.specs.Prelude.{◌≡◌, ℕ, ◌<◌, ◌^◌, IfSome, IfNone};
ghost use Rattle.amq_model.specs.RecordAt.{RecordAt, NoneAt};
ghost use Rattle.amq_record.specs.Refs.{record_of, spot_of};
ghost use Rattle.amq_record.specs.Reading.{Gives, long_at, word_at, if_at, body_at, layout_at, fields_at, compact_at, front_of, read_at};
ghost use Rattle.amq_record.specs.Layouts.{values_of, record_from};

use crate::layout::{BodyForm, Fields, Kind, Layout};
use crate::parts::{byte, long, sized, typed, word};
use crate::spot::{RecordRef, Spot};

/// The record that stands at `place` of a file's bytes.
///
/// `fid` is the lowest 31 bits of the file's id, `version` the format version in its header. A place at
/// or past the end has none.
pub fn record_at(bytes: &[u8], fid: u32, version: u32, place: usize) -> Option<Spot<'_>>
    requires version_read { version ≡ 2 }
    requires file_id { fid < 2 ^ 31 }
    ensures stands { IfSome result (λ s. (s.place ≡ place) × RecordAt bytes.now fid version (spot_of s)) }
    ensures none { IfNone result (NoneAt bytes.now fid version place) }
{
    spot_at(bytes, fid, version, place)
}

#[tactic(auto, unfolding(crate::specs::Reading::read_at))]
fn spot_at(bytes: &[u8], fid: u32, version: u32, place: usize) -> Option<Spot<'_>>
    ensures { Gives spot_of result (read_at bytes.now fid version place) }
{
    if place < bytes.len() {
        first_spot(&bytes[place..], fid, version, place as u64)
    } else {
        None
    }
}

/// The record at the front of these bytes, which stand at `place` of their file.
#[tactic(auto, unfolding(crate::specs::Reading::front_of))]
fn first_spot(bytes: &[u8], fid: u32, version: u32, place: u64) -> Option<Spot<'_>>
    ensures { Gives spot_of result (front_of fid version place bytes.now) }
{
    let (kind, rest) = byte(bytes)?;
    let (found, rest) = word(rest)?;
    let (compact, rest) = compact_count(version, rest)?;
    let (rec, rest) = fields(kind, rest)?;
    let (size, rest) = word(rest)?;
    if found == fid && size as usize == bytes.len().saturating_sub(rest.len()) {
        Some(Spot {
            place,
            len: u64::from(size),
            compact,
            rec,
        })
    } else {
        None
    }
}

/// The compact count. Version 1 has none, and reads as 0.
#[tactic(auto, unfolding(crate::specs::Reading::compact_at))]
fn compact_count(version: u32, bytes: &[u8]) -> Option<(u8, &[u8])>
    ensures { Gives (λ x. (x.0, x.1.now)) result (compact_at version bytes.now) }
{
    if version == 1 {
        Some((0, bytes))
    } else {
        byte(bytes)
    }
}

/// The fields of a record of this kind, which stand between its compact count and its check size.
#[tactic(auto, unfolding(crate::specs::Reading::fields_at))]
fn fields(number: u8, bytes: &[u8]) -> Option<(RecordRef<'_>, &[u8])>
    ensures { Gives (λ x. (record_of x.0, x.1.now)) result (fields_at number bytes.now) }
{
    let kind = Kind::numbered(number)?;
    let (fields, rest) = fields_by(kind.layout(), bytes)?;
    Some((record_with(kind, fields), rest))
}

/// The fields of this layout.
#[tactic(auto, unfolding(crate::specs::Reading::layout_at))]
fn fields_by(layout: Layout, bytes: &[u8]) -> Option<(Fields<'_>, &[u8])>
    ensures { Gives (λ x. (values_of x.0, x.1.now)) result (layout_at layout bytes.now) }
{
    let (tx, rest) = long_if(layout.tx, bytes)?;
    let (id, rest) = long_if(layout.id, rest)?;
    let (count, rest) = word_if(layout.count, rest)?;
    let (user_type, body, rest) = body(layout.body, rest)?;
    let fields = Fields {
        tx,
        id,
        count,
        user_type,
        body,
    };
    Some((fields, rest))
}

/// A number of 8 bytes that may be there.
fn long_if(there: bool, bytes: &[u8]) -> Option<(u64, &[u8])>
    ensures { Gives (λ x. (x.0, x.1.now)) result (if_at there long_at bytes.now) }
{
    if there { long(bytes) } else { Some((0, bytes)) }
}

/// A number of 4 bytes that may be there.
fn word_if(there: bool, bytes: &[u8]) -> Option<(u32, &[u8])>
    ensures { Gives (λ x. (x.0, x.1.now)) result (if_at there word_at bytes.now) }
{
    if there { word(bytes) } else { Some((0, bytes)) }
}

/// A user type and a body, as far as this form has them.
fn body(form: BodyForm, bytes: &[u8]) -> Option<(u8, &[u8], &[u8])>
    ensures { Gives (λ x. ((x.0, x.1.now), x.2.now)) result (body_at form bytes.now) }
{
    match form {
        BodyForm::Absent => Some((0, &[], bytes)),
        BodyForm::Sized => {
            let (body, rest) = sized(bytes)?;
            Some((0, body, rest))
        }
        BodyForm::Typed => typed(bytes),
    }
}

/// The record of this kind with these fields.
fn record_with(kind: Kind, fields: Fields<'_>) -> RecordRef<'_>
    ensures { record_of result ≡ record_from kind (values_of fields.entry) }
{
    let Fields {
        tx,
        id,
        count,
        user_type,
        body,
    } = fields;
    match kind {
        Kind::Add => RecordRef::Add {
            id,
            user_type,
            body,
        },
        Kind::Update => RecordRef::Update {
            id,
            user_type,
            body,
        },
        Kind::AddTx => RecordRef::AddTx {
            tx,
            id,
            user_type,
            body,
        },
        Kind::UpdateTx => RecordRef::UpdateTx {
            tx,
            id,
            user_type,
            body,
        },
        Kind::DeleteTx => RecordRef::DeleteTx { tx, id, body },
        Kind::Delete => RecordRef::Delete { id },
        Kind::Prepare => RecordRef::Prepare {
            tx,
            count,
            extra: body,
        },
        Kind::Commit => RecordRef::Commit { tx, count },
        Kind::Rollback => RecordRef::Rollback { tx },
    }
}
