//! The reader.
ghost use Rattle.std.specs.Prelude.{◌≡◌, ◌==◌, ◌<◌, ◌^◌, ℕ, [], ◌∷◌, length, Ok, IfOk, IfErr, OnOk, OnErr};
ghost use Rattle.std.specs.Int.{w32, w64};
ghost use Rattle.cw_bytes.specs.Unread.{Unread, Takes, AreBytes};
ghost use Rattle.cw_bytes.specs.Spelling.{word, long, text, tid_bytes, tag_bytes, mark_bytes, part_bytes, span_bytes};
ghost use Rattle.cw_bytes.specs.Spelling.{records_bytes, IsText, IsTid, IsTag, IsMark, IsPart, IsSpan, AreRecords};
ghost use Rattle.cw_bytes.specs.Reading.{Fails, Reads, PutsSpan, ReadsSpelled, byte_at, number_at, text_at, tid_at};
ghost use Rattle.cw_bytes.specs.Reading.{tag_at, mark_at, part_at, span_at, records_at};

use crate::applied::Applied;
use crate::fault::FieldFault;
use crate::fields::{mark_of, part_of, records_of, span_of, span_onto, tag_of, text_of, tid_of};
use crate::input::Input;
use crate::mark::Mark;
use crate::numbers::{u8_of, u32_of, u64_of};
use cw_types::{PartKey, Span, Tag, Tid};
use std::alloc::Global;
use std::marker::Model;

/// Reads fields from left to right. After a refusal it stands where it stood.
#[derive(Drop)]
pub struct Reader<'a> {
    input: Input<'a>,
}

impl<'a> Model for Reader<'a> {
    ghost use Rattle.cw_bytes.specs.Unread.{Unread, AreBytes};

    ghost Value = { Unread };

    ghost use Rattle.cw_bytes.specs.Input.{unread};

    ghost view = { λ a. unread a.input };

    ghost invariant = { λ a. AreBytes a.input.rest.now };
}

impl<'a> Reader<'a> {
    /// Before the first byte.
    pub fn new(bytes: &'a [u8]) -> Reader<'a>
        ensures { result ≡ record { place = 0; rest = bytes.now } }
    {
        Reader {
            input: Input {
                place: 0,
                rest: bytes,
            },
        }
    }

    /// The place of the next byte.
    pub fn place(&self) -> usize
        ensures place { result ≡ self.now.place }
        ensures bytes { AreBytes self.now.rest }
    {
        self.input.place
    }

    /// Whether all bytes are read.
    #[inline]
    pub fn is_empty(&self) -> bool
        ensures { result ≡ (length self.now.rest == 0) }
    {
        self.input.rest.is_empty()
    }

    /// Reads a byte.
    #[inline]
    pub fn take_u8(&mut self) -> Result<u8, FieldFault>
        ensures value { Reads (λ byte. (byte, self.new)) result (byte_at self.old) }
        ensures as_before { OnErr result (self.new ≡ self.old) }
    {
        let (byte, rest) = u8_of(self.input)?;
        self.input = rest;
        Ok(byte)
    }

    /// Reads four bytes as a number.
    #[inline]
    pub fn take_u32(&mut self) -> Result<u32, FieldFault>
        ensures value { Reads (λ number. (number, self.new)) result (number_at w32 self.old) }
        ensures as_before { OnErr result (self.new ≡ self.old) }
        ensures spelled { IfOk result (λ number. Takes (word number) self.old self.new) }
    {
        let (number, rest) = u32_of(self.input)?;
        self.input = rest;
        Ok(number)
    }

    /// Reads eight bytes as a number.
    #[inline]
    pub fn take_u64(&mut self) -> Result<u64, FieldFault>
        ensures value { Reads (λ number. (number, self.new)) result (number_at w64 self.old) }
        ensures as_before { OnErr result (self.new ≡ self.old) }
        ensures spelled { IfOk result (λ number. Takes (long number) self.old self.new) }
    {
        let (number, rest) = u64_of(self.input)?;
        self.input = rest;
        Ok(number)
    }

    /// Reads a text.
    pub fn take_text(&mut self) -> Result<&'a [u8], FieldFault>
        ensures value { Reads (λ text. (text.now, self.new)) result (text_at self.old) }
        ensures as_before { OnErr result (self.new ≡ self.old) }
        ensures spelled { IfOk result (λ bytes. Takes (text bytes.now) self.old self.new × IsText bytes.now) }
    {
        let (text, rest) = text_of(self.input)?;
        self.input = rest;
        Ok(text)
    }
}

/// Reads a producer's id.
#[inline]
pub fn read_tid(alloc: Global, from: &mut Reader<'_>) -> Result<Tid, FieldFault>
    ensures value { Reads (λ tid. (tid, from.new)) result (tid_at from.old) }
    ensures as_before { OnErr result (from.new ≡ from.old) }
    ensures spelled { IfOk result (λ tid. Takes (tid_bytes tid) from.old from.new × IsTid tid) }
{
    let (tid, rest) = tid_of(alloc, from.input)?;
    from.input = rest;
    Ok(tid)
}

/// Reads a transaction.
#[inline]
pub fn read_tag(alloc: Global, from: &mut Reader<'_>) -> Result<Tag, FieldFault>
    ensures value { Reads (λ tag. (tag, from.new)) result (tag_at from.old) }
    ensures as_before { OnErr result (from.new ≡ from.old) }
    ensures spelled { IfOk result (λ tag. Takes (tag_bytes tag) from.old from.new × IsTag tag) }
{
    let (tag, rest) = tag_of(alloc, from.input)?;
    from.input = rest;
    Ok(tag)
}

/// Reads a mark.
pub fn read_mark(alloc: Global, from: &mut Reader<'_>) -> Result<Mark, FieldFault>
    ensures value { Reads (λ mark. (mark, from.new)) result (mark_at from.old) }
    ensures as_before { OnErr result (from.new ≡ from.old) }
    ensures spelled { IfOk result (λ mark. Takes (mark_bytes mark) from.old from.new × IsMark mark) }
{
    let (mark, rest) = mark_of(alloc, from.input)?;
    from.input = rest;
    Ok(mark)
}

/// Reads a part.
#[inline]
pub fn read_part(alloc: Global, from: &mut Reader<'_>) -> Result<PartKey, FieldFault>
    ensures value { Reads (λ part. (part, from.new)) result (part_at from.old) }
    ensures as_before { OnErr result (from.new ≡ from.old) }
    ensures spelled { IfOk result (λ part. Takes (part_bytes part) from.old from.new × IsPart part) }
{
    let (part, rest) = part_of(alloc, from.input)?;
    from.input = rest;
    Ok(part)
}

/// Reads a span.
#[inline]
pub fn read_span(alloc: Global, from: &mut Reader<'_>) -> Result<Span, FieldFault>
    ensures value { Reads (λ span. (span, from.new)) result (span_at from.old) }
    ensures as_before { OnErr result (from.new ≡ from.old) }
    ensures spelled { IfOk result (λ span. Takes (span_bytes span) from.old from.new × IsSpan span) }
{
    let (span, rest) = span_of(alloc, from.input)?;
    from.input = rest;
    Ok(span)
}

/// Reads a span, and puts it behind others.
#[inline(always)]
pub fn read_span_onto(
    alloc: Global,
    from: &mut Reader<'_>,
    spans: &mut Vec<Span>,
) -> Result<(), FieldFault>
    ensures put { OnOk result (PutsSpan from.old from.new spans.old.items spans.new.items) }
    ensures as_before { OnErr result ((from.new ≡ from.old) × (spans.new.items ≡ spans.old.items)) }
    ensures fault { IfErr result (λ fault. Fails fault (span_at from.old)) }
{
    from.input = span_onto(alloc, from.input, spans)?;
    Ok(())
}

/// Reads a list of records.
pub fn read_records(alloc: Global, from: &mut Reader<'_>) -> Result<Vec<Applied>, FieldFault>
    ensures value { Reads (λ records. (records.items, from.new)) result (records_at from.old) }
    ensures as_before { OnErr result (from.new ≡ from.old) }
    ensures spelled { IfOk result (λ records.
        Takes (records_bytes records.items) from.old from.new × AreRecords records.items) }
{
    let (records, rest) = records_of(alloc, from.input)?;
    from.input = rest;
    Ok(records)
}

/// The law of fields: what is spelled as a field is read as it, whatever follows.
pub fn spelled_fields_are_read()
    ensures byte { (b : ℕ) (from next : Unread) → Takes (b ∷ []) from next → byte_at from ≡ Ok (b, next) }
    ensures word { ReadsSpelled (λ n. n < 2 ^ 32) word (number_at w32) }
    ensures long { ReadsSpelled (λ n. n < 2 ^ 64) long (number_at w64) }
    ensures text { ReadsSpelled IsText text text_at }
    ensures tid { ReadsSpelled IsTid tid_bytes tid_at }
    ensures tag { ReadsSpelled IsTag tag_bytes tag_at }
    ensures mark { ReadsSpelled IsMark mark_bytes mark_at }
    ensures part { ReadsSpelled IsPart part_bytes part_at }
    ensures span { ReadsSpelled IsSpan span_bytes span_at }
    ensures records { ReadsSpelled AreRecords records_bytes records_at }
{}
