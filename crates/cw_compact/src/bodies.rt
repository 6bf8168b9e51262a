//! The frames of a log, and the bodies that they are written as.
ghost use Rattle.std.specs.Prelude.{◌≡◌, ◌≢◌, ◌++◌, ◌∷◌, [], List, Err, IfOk, IfErr, OnOk, map};
ghost use Rattle.std.specs.List.{AllByRecursion};
ghost use Rattle.cw_bytes.specs.declared.applied.Applied.{Applied};
ghost use Rattle.cw_bytes.specs.declared.body.BodyFault.{BodyFault};
ghost use Rattle.cw_bytes.specs.Spelling.{AreRecords, records_bytes};
ghost use Rattle.cw_compact.specs.Bodies.{AreBodiesOf, bodies_in};

use cw_bytes::{Applied, BodyFault, read_record_body, write_record_body};
use cw_types::Listed;
use std::alloc::{AllocError, Global};

/// Reads the frames of a config log or a status log from its bodies. NotBody comes where one of them isn't the bytes of
/// any records.
pub fn read_frames(alloc: Global, bodies: &[Vec<u8>]) -> Result<Vec<Listed<Applied>>, BodyFault>
    // What is read is spelled so, to the last byte.
    ensures found { IfOk result (λ frames. AreBodiesOf frames.items (bodies_in bodies.now)) }
    // What is spelled so is read.
    ensures only { (frames : List (List Applied)) → AreBodiesOf frames (bodies_in bodies.now) →
        IfOk result (λ read. read.items ≡ frames) }
    ensures refused { (frames : List (List Applied)) → AreBodiesOf frames (bodies_in bodies.now) →
        result ≢ Err BodyFault.NotBody }
{
    let mut frames = Vec::new(alloc);
    for body in bodies {
        match read_record_body(alloc, body.as_slice()) {
            Ok(records) => push_frame(&mut frames, records)?,
            Err(fault) => return Err(fault),
        }
    }
    Ok(frames)
}

// One frame more.
fn push_frame(frames: &mut Vec<Listed<Applied>>, records: Vec<Applied>) -> Result<(), BodyFault>
    ensures pushed { OnOk result (frames.new.items ≡ frames.old.items ++ records.items ∷ []) }
    ensures memory { IfErr result (λ fault. fault ≡ BodyFault.Memory) }
{
    match frames.push(Listed::new(records)) {
        Ok(()) => Ok(()),
        Err(_) => Err(BodyFault::Memory),
    }
}

/// Writes the bodies of frames. They are read again from these.
pub fn write_frames(alloc: Global, frames: &[Listed<Applied>]) -> Result<Vec<Vec<u8>>, AllocError>
    requires { AllByRecursion AreRecords frames.now }
    ensures { IfOk result (λ bodies. bodies_in bodies.items ≡ map records_bytes frames.now) }
{
    let mut bodies = Vec::new(alloc);
    for frame in frames {
        bodies.push(write_record_body(alloc, frame.as_slice())?)?;
    }
    Ok(bodies)
}
