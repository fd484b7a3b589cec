ghost use Rattle.std.specs.Prelude.{◌≡◌, ℕ, ◌+◌, ◌≤◌, ◌<◌, ◌^◌, ◌++◌, ◌∷◌, length, vec_len, vec_capacity};
ghost use Rattle.amq_model.specs.RecordAt.{kind_of, fields_of, len_of, spelling, long, word};
ghost use Rattle.amq_record.specs.Layouts.{values_of, spelled_if, spelled_body, spelled_by};

use crate::layout::{BodyForm, Fields, Kind, Layout};
use amq_model::Record;

/// The record's whole length in a file, in bytes.
#[tactic(auto, using(crate::proofs::Layouts::len_is))]
pub fn encoded_len(rec: &Record) -> u64
    ensures { result ≡ len_of rec.now }
{
    let layout = Kind::of(rec).layout();
    layout.len() + Fields::of(rec).body.len() as u64
}

/// Writes the record behind `out`, in the memory that `out` has to spare.
///
/// `fid` is the lowest 31 bits of the file's id, `compact` the record's compact count.
pub fn encode_into(out: &mut Vec<u8>, fid: u32, compact: u8, rec: &Record)
    requires room { vec_len out.old + len_of rec.now ≤ vec_capacity out.old }
    requires short { len_of rec.now < 2 ^ 31 }
    ensures items { out.new.items ≡ out.old.items ++ spelling 2 fid compact rec.now }
    ensures len { vec_len out.new ≡ vec_len out.old + len_of rec.now }
    ensures capacity { vec_capacity out.old ≤ vec_capacity out.new }
{
    let len = encoded_len(rec) as u32;
    out.push_reserved(kind_byte(rec));
    put_word(out, fid);
    out.push_reserved(compact);
    put_record(out, rec);
    put_word(out, len);
}

#[tactic(auto, using(crate::proofs::Layouts::kind_is))]
fn kind_byte(rec: &Record) -> u8
    ensures { result ≡ kind_of rec.now }
{
    Kind::of(rec).number()
}

/// What stands between the record's compact count and its check size.
#[tactic(auto, using(crate::proofs::Layouts::spelled_is, crate::proofs::Layouts::body_short))]
fn put_record(out: &mut Vec<u8>, rec: &Record)
    requires room { vec_len out.old + len_of rec.now ≤ vec_capacity out.old + 10 }
    requires short { len_of rec.now < 2 ^ 31 }
    ensures items { out.new.items ≡ out.old.items ++ fields_of rec.now }
    ensures len { vec_len out.new + 10 ≡ vec_len out.old + len_of rec.now }
    ensures capacity { vec_capacity out.old ≤ vec_capacity out.new }
{
    put_fields(out, Kind::of(rec).layout(), Fields::of(rec));
}

/// The fields of this layout, one behind the other.
fn put_fields(out: &mut Vec<u8>, layout: Layout, fields: Fields<'_>)
    requires room { vec_len out.old + length (spelled_by layout (values_of fields)) ≤ vec_capacity out.old }
    requires short { length fields.body.now < 2 ^ 31 }
    ensures items { out.new.items ≡ out.old.items ++ spelled_by layout (values_of fields.entry) }
    ensures len { vec_len out.new ≡ vec_len out.old + length (spelled_by layout (values_of fields.entry)) }
    ensures capacity { vec_capacity out.old ≤ vec_capacity out.new }
{
    put_long_if(out, layout.tx, fields.tx);
    put_long_if(out, layout.id, fields.id);
    put_word_if(out, layout.count, fields.count);
    put_body(out, layout.body, fields.user_type, fields.body);
}

/// A number of 8 bytes that may be there.
#[tactic(auto, using(crate::proofs::Lengths::length_long))]
fn put_long_if(out: &mut Vec<u8>, there: bool, n: u64)
    requires { vec_len out.old + length (spelled_if there long n) ≤ vec_capacity out.old }
    ensures items { out.new.items ≡ out.old.items ++ spelled_if there long n }
    ensures len { vec_len out.new ≡ vec_len out.old + length (spelled_if there long n) }
    ensures capacity { vec_capacity out.old ≤ vec_capacity out.new }
{
    if there {
        put_long(out, n);
    }
}

/// A number of 4 bytes that may be there.
#[tactic(auto, using(crate::proofs::Lengths::length_word))]
fn put_word_if(out: &mut Vec<u8>, there: bool, n: u32)
    requires { vec_len out.old + length (spelled_if there word n) ≤ vec_capacity out.old }
    ensures items { out.new.items ≡ out.old.items ++ spelled_if there word n }
    ensures len { vec_len out.new ≡ vec_len out.old + length (spelled_if there word n) }
    ensures capacity { vec_capacity out.old ≤ vec_capacity out.new }
{
    if there {
        put_word(out, n);
    }
}

/// A body of this form.
#[tactic(auto, using(crate::proofs::Lengths::length_sized, crate::proofs::Lengths::length_typed))]
fn put_body(out: &mut Vec<u8>, form: BodyForm, user_type: u8, body: &[u8])
    requires room { vec_len out.old + length (spelled_body form (user_type, body.now)) ≤ vec_capacity out.old }
    requires short { length body.now < 2 ^ 31 }
    ensures items { out.new.items ≡ out.old.items ++ spelled_body form (user_type, body.now) }
    ensures len { vec_len out.new ≡ vec_len out.old + length (spelled_body form (user_type, body.now)) }
    ensures capacity { vec_capacity out.old ≤ vec_capacity out.new }
{
    match form {
        BodyForm::Absent => {}
        BodyForm::Sized => put_sized(out, body),
        BodyForm::Typed => put_typed(out, user_type, body),
    }
}

/// A length, a user type and a body.
fn put_typed(out: &mut Vec<u8>, user_type: u8, body: &[u8])
    requires room { vec_len out.old + length body.now + 5 ≤ vec_capacity out.old }
    requires short { length body.now < 2 ^ 31 }
    ensures items { out.new.items ≡ out.old.items ++ (word (length body.now) ++ user_type ∷ body.now) }
    ensures len { vec_len out.new ≡ vec_len out.old + length body.now + 5 }
    ensures capacity { vec_capacity out.old ≤ vec_capacity out.new }
{
    put_word(out, body.len() as u32);
    out.push_reserved(user_type);
    put(out, body);
}

/// A length, and that many bytes.
fn put_sized(out: &mut Vec<u8>, bytes: &[u8])
    requires room { vec_len out.old + length bytes.now + 4 ≤ vec_capacity out.old }
    requires short { length bytes.now < 2 ^ 31 }
    ensures items { out.new.items ≡ out.old.items ++ (word (length bytes.now) ++ bytes.now) }
    ensures len { vec_len out.new ≡ vec_len out.old + length bytes.now + 4 }
    ensures capacity { vec_capacity out.old ≤ vec_capacity out.new }
{
    put_word(out, bytes.len() as u32);
    put(out, bytes);
}

#[tactic(auto, unfolding(amq_model::specs::RecordAt::long))]
fn put_long(out: &mut Vec<u8>, n: u64)
    requires { vec_len out.old + 8 ≤ vec_capacity out.old }
    ensures items { out.new.items ≡ out.old.items ++ long n }
    ensures len { vec_len out.new ≡ vec_len out.old + 8 }
    ensures capacity { vec_capacity out.old ≤ vec_capacity out.new }
{
    put(out, &n.to_be_bytes());
}

#[tactic(auto, unfolding(amq_model::specs::RecordAt::word))]
fn put_word(out: &mut Vec<u8>, n: u32)
    requires { vec_len out.old + 4 ≤ vec_capacity out.old }
    ensures items { out.new.items ≡ out.old.items ++ word n }
    ensures len { vec_len out.new ≡ vec_len out.old + 4 }
    ensures capacity { vec_capacity out.old ≤ vec_capacity out.new }
{
    put(out, &n.to_be_bytes());
}

fn put(out: &mut Vec<u8>, bytes: &[u8])
    requires { vec_len out.old + length bytes.now ≤ vec_capacity out.old }
    ensures items { out.new.items ≡ out.old.items ++ bytes.now }
    ensures len { vec_len out.new ≡ vec_len out.old + length bytes.now }
    ensures capacity { vec_capacity out.old ≤ vec_capacity out.new }
{
    let _ = out.extend_from_slice(bytes);
}
