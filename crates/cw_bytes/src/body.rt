//! Bodies that are a list of records and nothing behind it: those of the config log and the status log.
ghost use Rattle.std.specs.Prelude.{◌≡◌, ◌≢◌, List, Some, None, Err, IfOk, MatchResult};
ghost use Rattle.cw_bytes.specs.declared.applied.Applied.{Applied};
ghost use Rattle.cw_bytes.specs.declared.body.BodyFault.{BodyFault};
ghost use Rattle.cw_bytes.specs.Spelling.{records_bytes, AreRecords};
ghost use Rattle.cw_bytes.specs.Reading.{records_at, body_at};

use crate::applied::Applied;
use crate::fault::FieldFault;
use crate::reader::{Reader, read_records};
use crate::writer::Writer;
use crate::writing::write_records;
use std::alloc::{AllocError, Global};
use thiserror::Error;

/// Why a body of a log can't be read.
#[derive(Clone, Copy, Debug, PartialEq, Eq, Drop, Error)]
pub enum BodyFault {
    /// It isn't the bytes of any value of its log.
    #[error("no body of this log")]
    NotBody,
    /// Want of memory.
    #[error("out of memory")]
    Memory,
}

// The records of a body.
fn read_body(alloc: Global, body: &[u8]) -> Result<Vec<Applied>, BodyFault>
    ensures { MatchResult result (λ records. body_at records_at body.now ≡ Some records.items)
        (λ fault. fault ≢ BodyFault.Memory → body_at records_at body.now ≡ None) }
{
    let mut from = Reader::new(body);
    match read_records(alloc, &mut from) {
        Ok(records) => {
            if from.is_empty() {
                Ok(records)
            } else {
                Err(BodyFault::NotBody)
            }
        }
        Err(FieldFault::Memory) => Err(BodyFault::Memory),
        Err(FieldFault::Short(_)) => Err(BodyFault::NotBody),
        Err(FieldFault::BadKind(_)) => Err(BodyFault::NotBody),
        Err(FieldFault::BadName(_)) => Err(BodyFault::NotBody),
    }
}

/// Reads the records of a body. NotBody comes exactly where it isn't the bytes of any records.
pub fn read_record_body(alloc: Global, body: &[u8]) -> Result<Vec<Applied>, BodyFault>
    // What is read is spelled so, to the last byte.
    ensures found { IfOk result (λ records. AreRecords records.items × (body.now ≡ records_bytes records.items)) }
    // What is spelled so is read.
    ensures only { (records : List Applied) → AreRecords records → body.now ≡ records_bytes records →
        IfOk result (λ read. read.items ≡ records) }
    ensures refused { (records : List Applied) → AreRecords records → body.now ≡ records_bytes records →
        result ≢ Err BodyFault.NotBody }
{
    read_body(alloc, body)
}

/// Writes a body of records. They are read again from it.
pub fn write_record_body(alloc: Global, records: &[Applied]) -> Result<Vec<u8>, AllocError>
    requires { AreRecords records.now }
    ensures { IfOk result (λ bytes. bytes.items ≡ records_bytes records.now) }
{
    let mut into = Writer::new(alloc);
    write_records(&mut into, records)?;
    Ok(into.into_bytes())
}
