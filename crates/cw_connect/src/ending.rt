//! How the process ends: the number that it exits with, and the line on the standard error.
ghost use Rattle.std.specs.Prelude.{◌≡◌, ◌≢◌, OnOk, OnErr};
ghost use Rattle.std.specs.declared.io.ErrorKind.TheVariants.{OutOfMemory};
ghost use Rattle.cw_io.specs.Told.{with_back};
ghost use Rattle.cw_types.specs.Faults.{Rose};
ghost use Rattle.cw_connect.specs.declared.status.Status.TheVariants.{BadScript, Usage, Memory};
ghost use Rattle.cw_connect.specs.Statuses.{status_line, status_number};

use crate::status::Status;
use cw_io::{Failed, Sink, write_all};
use cw_script::LineKind;
use std::io::ErrorKind;

/// Says on the standard error how the run ended, and gives the number that the process exits with. A line that can't be
/// written changes nothing of the number.
pub fn exit_number<E: Sink>(status: &Status, errors: &mut E) -> u8
    ensures number { result ≡ status_number status.now }
    ensures line { ¬ Rose (E.faults errors.old) (E.faults errors.new) →
        E.held errors.new ≡ with_back (status_line status.now) (E.held errors.old) }
{
    let _ = tell(status, errors);
    status.number()
}

/// How a run ends whose words can't be had, by the kind of the fault: want of memory, or a word that isn't UTF-8.
pub fn status_of_fault(kind: ErrorKind) -> Status
    ensures memory { kind ≡ OutOfMemory → result ≡ Memory }
    ensures other { kind ≢ OutOfMemory → result ≡ Usage }
{
    match kind {
        ErrorKind::OutOfMemory => Status::Memory,
        _ => Status::Usage,
    }
}

// Writes the line of a status.
fn tell<E: Sink>(status: &Status, errors: &mut E) -> Result<(), Failed>
    ensures whole { OnOk result (E.held errors.new ≡ with_back (status_line status.now) (E.held errors.old)) }
    ensures rose { OnErr result (Rose (E.faults errors.old) (E.faults errors.new)) }
{
    match status {
        Status::Done => Ok(()),
        Status::Usage => write_all(errors, b"status 1 Usage\n"),
        Status::BadScript { line, kind } => tell_bad_script(*line, *kind, errors),
        Status::TooLong(_) => write_all(errors, b"status 2 TooLong\n"),
        Status::ReadFault => write_all(errors, b"status 3 ReadFault\n"),
        Status::WriteFault => write_all(errors, b"status 4 WriteFault\n"),
        Status::StoreFault { .. } => write_all(errors, b"status 5 StoreFault\n"),
        Status::Damaged { .. } => write_all(errors, b"status 6 Damaged\n"),
        Status::ShelfFault => write_all(errors, b"status 7 ShelfFault\n"),
        Status::OutletFault => write_all(errors, b"status 8 OutletFault\n"),
        Status::NetFault => write_all(errors, b"status 9 NetFault\n"),
        Status::Full { .. } => write_all(errors, b"status 10 Full\n"),
        Status::Memory => write_all(errors, b"status 11 Memory\n"),
        Status::Disagree { .. } => write_all(errors, b"status 12 Disagree\n"),
    }
}

// Writes the line of a script's fault.
fn tell_bad_script<E: Sink>(line: u64, kind: LineKind, errors: &mut E) -> Result<(), Failed>
    ensures whole { OnOk result
        (E.held errors.new ≡ with_back (status_line (BadScript line kind)) (E.held errors.old)) }
    ensures rose { OnErr result (Rose (E.faults errors.old) (E.faults errors.new)) }
{
    let mut digits = itoa::Buffer::new();
    write_all(errors, b"status 2 BadScript ")?;
    write_all(errors, digits.format(line).as_bytes())?;
    write_all(errors, b" ")?;
    write_all(errors, kind.name().as_bytes())?;
    write_all(errors, b"\n")?;
    Ok(())
}
