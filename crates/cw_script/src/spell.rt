//! How a directive is spelled.
ghost use Rattle.std.specs.Prelude.{◌≡◌, ◌++◌, ◌∷◌, List, ℕ, Ok, Some, codes, decimal, IfOk, OnOk};
ghost use Rattle.std.specs.List.{flat_map};
ghost use Rattle.cw_script.specs.Lines.{line_of};
ghost use Rattle.cw_script.specs.Spelling.{pair_text, spelled, log_text, IsSpelling, IsSayable};

use crate::directive::{Directive, PartEnd};
use cw_types::LogName;
use std::alloc::{AllocError, Global};

impl Directive {
    /// The one line that spells the directive, its `\n` left out.
    pub fn spell(&self, alloc: Global) -> Result<Vec<u8>, AllocError>
        ensures { IfOk result (λ line. line.items ≡ spelled self.now) }
    {
        match self {
            Directive::Init(id) => numbered(alloc, b"init", u64::from(*id)),
            Directive::Commit { id, epoch, pairs } => commit_line(
                alloc,
                *id,
                *epoch,
                pairs.as_slice(),
            ),
            Directive::Spawn => b"spawn".to_vec(alloc),
            Directive::Kill(worker) => numbered(alloc, b"kill", *worker),
            Directive::Deaf(worker) => numbered(alloc, b"deaf", *worker),
            Directive::Hear(worker) => numbered(alloc, b"hear", *worker),
            Directive::Expire(worker) => numbered(alloc, b"expire", *worker),
            Directive::Clock(moment) => numbered(alloc, b"clock", *moment),
            Directive::Tick(worker) => numbered(alloc, b"tick", *worker),
            Directive::Step(instance) => numbered(alloc, b"step", *instance),
            Directive::Settle(most) => numbered(alloc, b"settle", *most),
            Directive::Rest {
                worker,
                method,
                target,
                body,
            } => {
                rest_line(
                    alloc,
                    *worker,
                    method.as_slice(),
                    target.as_slice(),
                    body.as_slice(),
                )
            }
            Directive::Held(worker) => numbered(alloc, b"held", *worker),
            Directive::Member(worker) => numbered(alloc, b"member", *worker),
            Directive::Take { topic, from } => take_line(alloc, topic.as_bytes(), *from),
            Directive::Compact(log) => compact_line(alloc, *log),
        }
    }
}

// One more word.
fn add_word(line: &mut Vec<u8>, word: &[u8]) -> Result<(), AllocError>
    ensures { OnOk result (line.new.items ≡ line.old.items ++ 32 ∷ word.now) }
{
    line.push(b' ')?;
    line.extend_from_slice(word)?;
    Ok(())
}

// One more number.
fn add_number(alloc: Global, line: &mut Vec<u8>, number: u64) -> Result<(), AllocError>
    ensures { OnOk result (line.new.items ≡ line.old.items ++ 32 ∷ decimal number) }
{
    add_word(line, number.to_string(alloc)?.as_bytes())
}

fn numbered(alloc: Global, word: &[u8], number: u64) -> Result<Vec<u8>, AllocError>
    ensures { IfOk result (λ line. line.items ≡ word.now ++ 32 ∷ decimal number) }
{
    let mut line = word.to_vec(alloc)?;
    add_number(alloc, &mut line, number)?;
    Ok(line)
}

fn add_pairs(alloc: Global, line: &mut Vec<u8>, pairs: &[PartEnd]) -> Result<(), AllocError>
    ensures { OnOk result (line.new.items ≡ line.old.items ++ flat_map pair_text pairs.now) }
{
    for pair in pairs {
        add_number(alloc, line, u64::from(pair.part))?;
        add_number(alloc, line, pair.to)?;
    }
    Ok(())
}

fn commit_line(alloc: Global, id: u32, epoch: u64, pairs: &[PartEnd]) -> Result<Vec<u8>, AllocError>
    ensures { IfOk result (λ line. line.items ≡ spelled (Directive.Commit id epoch pairs.now)) }
{
    let mut line = numbered(alloc, b"commit", u64::from(id))?;
    add_number(alloc, &mut line, epoch)?;
    add_pairs(alloc, &mut line, pairs)?;
    Ok(line)
}

fn rest_line(
    alloc: Global,
    worker: u64,
    method: &[u8],
    target: &[u8],
    body: &[u8],
) -> Result<Vec<u8>, AllocError>
    ensures { IfOk result (λ line. line.items ≡ spelled (Directive.Rest worker method.now target.now body.now)) }
{
    let mut line = numbered(alloc, b"rest", worker)?;
    add_word(&mut line, method)?;
    add_word(&mut line, target)?;
    if !body.is_empty() {
        add_word(&mut line, body)?;
    }
    Ok(line)
}

fn take_line(alloc: Global, topic: &[u8], from: u64) -> Result<Vec<u8>, AllocError>
    ensures { IfOk result (λ line. line.items ≡ spelled (Directive.Take topic.now from)) }
{
    let mut line = b"take".to_vec(alloc)?;
    add_word(&mut line, topic)?;
    add_number(alloc, &mut line, from)?;
    Ok(line)
}

fn log_word(log: LogName) -> &'static str
    ensures { result.now ≡ log_text log }
{
    match log {
        LogName::Config => "config",
        LogName::Offsets => "offsets",
        LogName::Status => "status",
        LogName::Txn => "txn",
        LogName::Batches => "batches",
    }
}

fn compact_line(alloc: Global, log: LogName) -> Result<Vec<u8>, AllocError>
    ensures { IfOk result (λ line. line.items ≡ spelled (Directive.Compact log)) }
{
    let mut line = b"compact".to_vec(alloc)?;
    add_word(&mut line, log_word(log).as_bytes())?;
    Ok(line)
}

/// The law of lines: what a directive is spelled as is read as that directive, and what is read can be spelled.
pub fn lines_are_directives()
    ensures again { (directive : Directive) → IsSayable directive → line_of (spelled directive) ≡ Ok (Some directive) }
    ensures only { (line : List ℕ) (directive : Directive) → line_of line ≡ Ok (Some directive) →
        IsSpelling line directive }
    ensures sayable { (line : List ℕ) (directive : Directive) → line_of line ≡ Ok (Some directive) →
        IsSayable directive }
{}
