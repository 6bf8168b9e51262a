//! Makes a script from a number, plays it, and prints what its run comes to.
ghost use Rattle.std.specs.Prelude.{◌≡◌, ◌≢◌, ◌≤◌, ◌++◌, ℕ, None, Some, IfOk, OnOk};
ghost use Rattle.cw_types.specs.Faults.{Rose};
ghost use Rattle.cw_types.specs.declared.logs.LogName.{LogName};
ghost use Rattle.cw_io.specs.Told.{with_back};
ghost use Rattle.cw_io.specs.Written.{IsWrittenInPart};
ghost use Rattle.cw_lines.specs.declared.end.DriveEnd.TheVariants as ends;
ghost use Rattle.cw_gen.specs.Summary.{IsSilent, IsTold, count_line, lines_of_counts, played, summary};

use crate::end::GenEnd;
use crate::making::Unfinished;
use crate::summing::{Sums, sum_up};
use cw_io::{Sink, write_all};
use cw_types::Name;
use std::alloc::{AllocError, Global};

/// Makes a script of so many directives from a number on, plays it over disks of its own in memory, which never fail,
/// and prints what its run comes to: how many directives there were, the commits in the transaction list, the answers
/// that a step was fenced, and the committed records of the topic `t`. A draw costs the same however long the script
/// is.
pub fn generate<O: Sink>(
    alloc: Global,
    start: u64,
    count: u64,
    group: Name,
    delay: u64,
    output: &mut O,
) -> GenEnd
    requires few { count ≤ 1000000 }

    // The whole summary was written, or a first part of it; where a log is full, and for want of memory, nothing.
    ensures done { result ≡ GenEnd.Done →
        O.held output.new ≡ with_back (summary group delay start count) (O.held output.old) }
    ensures part { result ≡ GenEnd.WriteFault →
        IsWrittenInPart (summary group delay start count) (O.held output.old) (O.held output.new) }
    ensures silent { IsSilent result → output.new ≡ output.old }

    // The script came to its end, or ended since a log was full.
    ensures through { IsTold result → (played group delay start count).stop ≡ None }
    ensures full { (log : LogName) (length frame : ℕ) → result ≡ GenEnd.Full log length frame →
        (played group delay start count).stop ≡ Some (ends.Full log length frame) }

    // A failed write is told by the output's count of faults.
    ensures rose { result ≡ GenEnd.WriteFault → Rose (O.faults output.old) (O.faults output.new) }
    ensures later { O.faults output.old ≤ O.faults output.new }
{
    match sum_up(alloc, start, count, group, delay) {
        Ok(sums) => tell(alloc, count, &sums, output),
        Err(Unfinished::Full { log, length, frame }) => GenEnd::Full { log, length, frame },
        Err(Unfinished::Memory) => GenEnd::Memory,
    }
}

// Prints the summary.
fn tell<O: Sink>(alloc: Global, count: u64, sums: &Sums, output: &mut O) -> GenEnd
    ensures done { result ≡ GenEnd.Done → O.held output.new ≡
        with_back (lines_of_counts count sums.now.commits sums.now.fenced sums.now.records) (O.held output.old) }
    ensures part { result ≡ GenEnd.WriteFault →
        IsWrittenInPart (lines_of_counts count sums.now.commits sums.now.fenced sums.now.records)
        (O.held output.old) (O.held output.new) }
    ensures silent { IsSilent result → output.new ≡ output.old }
    ensures not_full { (log : LogName) (length frame : ℕ) → result ≢ GenEnd.Full log length frame }
    ensures rose { result ≡ GenEnd.WriteFault → Rose (O.faults output.old) (O.faults output.new) }
    ensures later { O.faults output.old ≤ O.faults output.new }
{
    let Ok(text) = text_of(alloc, count, sums) else {
        return GenEnd::Memory;
    };
    match write_all(output, &text) {
        Ok(()) => GenEnd::Done,
        Err(_) => GenEnd::WriteFault,
    }
}

// The summary.
fn text_of(alloc: Global, count: u64, sums: &Sums) -> Result<Vec<u8>, AllocError>
    ensures { IfOk result (λ text. text.items ≡
        lines_of_counts count sums.now.commits sums.now.fenced sums.now.records) }
{
    let mut text = Vec::new(alloc);
    add_line(alloc, &mut text, b"directives", count)?;
    add_line(alloc, &mut text, b"commits", sums.commits)?;
    add_line(alloc, &mut text, b"fenced", sums.fenced)?;
    add_line(alloc, &mut text, b"records", sums.records)?;
    Ok(text)
}

// One line more.
fn add_line(alloc: Global, text: &mut Vec<u8>, word: &[u8], n: u64) -> Result<(), AllocError>
    ensures { OnOk result (text.new.items ≡ text.old.items ++ count_line word.now n) }
{
    text.extend_from_slice(word)?;
    text.push(b' ')?;
    text.extend_from_slice(n.to_string(alloc)?.as_bytes())?;
    text.push(b'\n')?;
    Ok(())
}
