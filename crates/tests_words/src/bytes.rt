//! Calls that no table makes.
use cw_bytes::{Reader, Writer, read_records, read_span_onto, write_span};
use cw_types::{Name, PartKey, Span};
use std::alloc::Global;
use std::test::Fail;

fn span(part: PartKey) -> Span {
    Span {
        part,
        from: 1,
        to: 2,
    }
}

// Two spans, and a byte that begins none.
fn two_spans(alloc: Global) -> Result<Vec<u8>, Fail> {
    let connector = Name::read(alloc, b"a")?;
    let part = PartKey::Seq {
        connector,
        index: 1,
    };
    let mut into = Writer::new(alloc);
    write_span(&mut into, &span(PartKey::Raw(7)))?;
    write_span(&mut into, &span(part))?;
    into.put_u8(9)?;
    Ok(into.into_bytes())
}

#[test]
fn spans_are_read_behind_others(rt: HostRuntime) -> Result<(), Fail> {
    let bytes = two_spans(rt.alloc())?;
    let mut from = Reader::new(bytes.as_slice());
    let mut spans = Vec::new(rt.alloc());
    read_span_onto(rt.alloc(), &mut from, &mut spans)?;
    read_span_onto(rt.alloc(), &mut from, &mut spans)?;
    assert_eq!(rt; spans.len(), 2);
    assert!(rt; read_span_onto(rt.alloc(), &mut from, &mut spans).is_err());
    assert!(rt; from.take_u8() == Ok(9));
    Ok(())
}

#[test]
fn records_are_copied(rt: HostRuntime) -> Result<(), Fail> {
    let mut into = Writer::new(rt.alloc());
    into.put_u32(1)?;
    into.put_u64(7)?;
    into.put_u64(8)?;
    into.put_text(b"key")?;
    into.put_u8(0)?;
    let bytes = into.into_bytes();
    let mut from = Reader::new(bytes.as_slice());
    for applied in &read_records(rt.alloc(), &mut from)? {
        assert_eq!(rt; applied.copy()?.key.as_slice(), b"key".as_slice());
    }
    Ok(())
}
