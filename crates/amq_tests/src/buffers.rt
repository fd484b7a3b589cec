//! The buffer of records.
use crate::records::DELETE;
use amq_buffer::TimedBuffer;
use amq_model::{Bytes, Record};
use amq_samples::{ADD, joined};
use std::test::Fail;

/// Two records: 25 and 18 bytes of 64, the first at 4 with a timeout of 3.
#[test]
fn buffers(rt: HostRuntime) -> Result<(), Fail> {
    let alloc = rt.alloc();
    let mut buffer = TimedBuffer::new(alloc, 64, 3)?;
    assert!(rt; buffer.is_empty());
    assert!(rt; !buffer.due(9));
    let add = Record::Add {
        id: 1,
        user_type: 7,
        body: Bytes::of(Vec::from_slice(alloc, b"hi")?),
    };
    assert!(rt; buffer.fits(25));
    buffer.put(1, &add, 4);
    assert!(rt; buffer.fits(39));
    assert!(rt; !buffer.fits(40));
    buffer.put(1, &Record::Delete { id: 1 }, 6);
    let wanted = joined(alloc, &[ADD, DELETE], 0, 0)?;
    assert_eq!(rt; buffer.bytes(), wanted.as_slice());
    assert!(rt; !buffer.due(6));
    assert!(rt; buffer.due(7));
    buffer.clear();
    assert!(rt; buffer.is_empty());
    assert!(rt; buffer.fits(64));
    assert!(rt; !buffer.due(9));
    Ok(())
}
