//! The reading of a line.
ghost use Rattle.std.specs.Prelude.{◌≡◌, ◌≢◌, ◌==◌, ◌++◌, ◌∷◌, ◌<◌, ◌≤◌, [], Ok, map, length, drop, codes, IfOk, IfErr};
ghost use Rattle.std.specs.Prelude.{IfSome, MatchOption};
ghost use Rattle.std.specs.Option.{option_map};
ghost use Rattle.std.specs.List.{AllByRecursion, list_any};
ghost use Rattle.cw_script.specs.Words.{words, words_behind, joined, now_of};
ghost use Rattle.cw_script.specs.Pairs.{pair_onto, pairs_of};
ghost use Rattle.cw_script.specs.Table.{number32, number64, limit, log, name};
ghost use Rattle.cw_script.specs.Lines.{only, value_of, directive_of, line_of};
ghost use Rattle.cw_script.specs.Spelling.{IsSayable};
ghost use Rattle.cw_script.specs.Faults.{TellsFault};

use crate::directive::{Directive, PartEnd};
use crate::fault::{LineKind, ScriptFault};
use crate::words::{cut, next_word, words_of};
use cw_types::{Listed, LogName, Name, read_u32, read_u64};
use std::alloc::{AllocError, Global};

/// What a line of a script says, its `\n` left out. An empty line and one that begins with `#` are passed
/// over, and say nothing. `BadLine` repeats `number` and tells the first fault: the first word is no
/// directive's; the number of words isn't that directive's; a word, judged from left to right, isn't what
/// stands there or is out of its range. `Memory` comes where there is none for what the line says.
pub fn read_line(alloc: Global, line: &[u8], number: u64) -> Result<Option<Directive>, ScriptFault>
    ensures ok { IfOk result (λ directive. line_of line.now ≡ Ok directive) }
    ensures sayable { IfOk result (λ directive. IfSome directive IsSayable) }
    ensures bad { IfErr result (λ fault. fault ≢ ScriptFault.Memory → TellsFault number (line_of line.now) fault) }
{
    if line.is_empty() || line[0] == b'#' {
        return Ok(None);
    }
    match directive_of(alloc, line)? {
        Ok(directive) => Ok(Some(directive)),
        Err(kind) => Err(ScriptFault::BadLine { number, kind }),
    }
}

fn directive_of(alloc: Global, line: &[u8]) -> Result<Result<Directive, LineKind>, AllocError>
    ensures { IfOk result (λ directive. directive ≡ directive_of (words line.now)) }
{
    let (word, text) = cut(line);
    if word == b"rest".as_slice() {
        return rest_of(alloc, text);
    }
    let args = words_of(alloc, text)?;
    said(alloc, word, &args)
}

// What a directive's word and the words behind it say.
fn said(
    alloc: Global,
    word: &[u8],
    args: &[&[u8]],
) -> Result<Result<Directive, LineKind>, AllocError>
    requires { word.now ≢ codes "rest" }
    ensures { IfOk result (λ directive. directive ≡ directive_of (word.now ∷ map (λ word. word.now) args.now)) }
{
    if word == b"init".as_slice() {
        Ok(only_id(args).map(Directive::Init))
    } else if word == b"commit".as_slice() {
        commit_of(alloc, args)
    } else if word == b"spawn".as_slice() {
        Ok(spawn_of(args))
    } else if word == b"clock".as_slice() {
        Ok(only_number(args).map(Directive::Clock))
    } else if word == b"step".as_slice() {
        Ok(only_number(args).map(Directive::Step))
    } else if word == b"settle".as_slice() {
        Ok(only_limit(args).map(Directive::Settle))
    } else if word == b"take".as_slice() {
        take_of(alloc, args)
    } else if word == b"compact".as_slice() {
        Ok(only_log(args).map(Directive::Compact))
    } else {
        Ok(said_of_worker(word, args))
    }
}

// The same of a word behind which just a worker's number stands, and of one that is no directive's.
fn said_of_worker(word: &[u8], args: &[&[u8]]) -> Result<Directive, LineKind>
    requires { AllByRecursion (λ other. word.now ≢ other) (codes "init" ∷ codes "commit" ∷ codes "spawn" ∷ codes "clock"
        ∷ codes "step" ∷ codes "settle" ∷ codes "rest" ∷ codes "take" ∷ codes "compact" ∷ []) }
    ensures { result ≡ directive_of (word.now ∷ map (λ word. word.now) args.now) }
{
    if word == b"kill".as_slice() {
        only_number(args).map(Directive::Kill)
    } else if word == b"deaf".as_slice() {
        only_number(args).map(Directive::Deaf)
    } else if word == b"hear".as_slice() {
        only_number(args).map(Directive::Hear)
    } else if word == b"expire".as_slice() {
        only_number(args).map(Directive::Expire)
    } else if word == b"tick".as_slice() {
        only_number(args).map(Directive::Tick)
    } else if word == b"held".as_slice() {
        only_number(args).map(Directive::Held)
    } else if word == b"member".as_slice() {
        only_number(args).map(Directive::Member)
    } else {
        Err(LineKind::NoWord)
    }
}

fn id_of(word: &[u8]) -> Result<u32, LineKind>
    ensures { result ≡ value_of number32 word.now }
{
    read_u32(word).ok_or(LineKind::Number)
}

fn number_of(word: &[u8]) -> Result<u64, LineKind>
    ensures { result ≡ value_of number64 word.now }
{
    read_u64(word).ok_or(LineKind::Number)
}

fn limit_of(word: &[u8]) -> Result<u64, LineKind>
    ensures { result ≡ value_of limit word.now }
{
    match read_u64(word) {
        Some(number) if number >= 1 && number <= 1_000_000 => Ok(number),
        _ => Err(LineKind::Number),
    }
}

fn log_of(word: &[u8]) -> Result<LogName, LineKind>
    ensures { result ≡ value_of log word.now }
{
    if word == b"config".as_slice() {
        Ok(LogName::Config)
    } else if word == b"offsets".as_slice() {
        Ok(LogName::Offsets)
    } else if word == b"status".as_slice() {
        Ok(LogName::Status)
    } else {
        Err(LineKind::BadName)
    }
}

fn only_id(args: &[&[u8]]) -> Result<u32, LineKind>
    ensures { result ≡ only number32 (map (λ word. word.now) args.now) }
{
    match args {
        [word] => id_of(word),
        _ => Err(LineKind::Count),
    }
}

fn only_number(args: &[&[u8]]) -> Result<u64, LineKind>
    ensures { result ≡ only number64 (map (λ word. word.now) args.now) }
{
    match args {
        [word] => number_of(word),
        _ => Err(LineKind::Count),
    }
}

fn only_limit(args: &[&[u8]]) -> Result<u64, LineKind>
    ensures { result ≡ only limit (map (λ word. word.now) args.now) }
{
    match args {
        [word] => limit_of(word),
        _ => Err(LineKind::Count),
    }
}

fn only_log(args: &[&[u8]]) -> Result<LogName, LineKind>
    ensures { result ≡ only log (map (λ word. word.now) args.now) }
{
    match args {
        [word] => log_of(word),
        _ => Err(LineKind::Count),
    }
}

fn spawn_of(args: &[&[u8]]) -> Result<Directive, LineKind>
    ensures { result ≡ directive_of (codes "spawn" ∷ map (λ word. word.now) args.now) }
{
    match args {
        [] => Ok(Directive::Spawn),
        _ => Err(LineKind::Count),
    }
}

fn name_of(alloc: Global, word: &[u8]) -> Result<Result<Name, LineKind>, AllocError>
    ensures { IfOk result (λ found. found ≡ value_of name word.now) }
{
    Ok(Name::from_bytes(alloc, word)?.ok_or(LineKind::BadName))
}

fn take_of(alloc: Global, args: &[&[u8]]) -> Result<Result<Directive, LineKind>, AllocError>
    ensures { IfOk result (λ directive. directive ≡ directive_of (codes "take" ∷ map (λ word. word.now) args.now)) }
{
    let [topic, from] = args else {
        return Ok(Err(LineKind::Count));
    };
    let topic = match name_of(alloc, topic)? {
        Ok(topic) => topic,
        Err(kind) => return Ok(Err(kind)),
    };
    match number_of(from) {
        Ok(from) => Ok(Ok(Directive::Take { topic, from })),
        Err(kind) => Ok(Err(kind)),
    }
}

fn has_part(found: &[PartEnd], part: u32) -> bool
    ensures { result ≡ list_any (λ pair. pair.part == part) found.now }
{
    found.iter().any(|pair| pair.part == part)
}

// A pair whose part isn't among those found.
fn next_pair(found: &[PartEnd], part: &[u8], to: &[u8]) -> Option<PartEnd>
    ensures { option_map (λ pair. found.now ++ pair ∷ []) result ≡ pair_onto found.now part.now to.now }
{
    let part = read_u32(part)?;
    let to = read_u64(to)?;
    if has_part(found, part) {
        None
    } else {
        Some(PartEnd { part, to })
    }
}

// The first two words and those behind them.
fn cut_two<'a, 'b>(words: &'b [&'a [u8]]) -> Option<(&'a [u8], &'a [u8], &'b [&'a [u8]])>
    ensures parts { MatchOption result (length words.now < 2)
        (λ parts. map (λ word. word.now) words.now ≡ parts.0.now ∷ parts.1.now ∷ map (λ word. word.now) parts.2.now) }
    ensures more { IfSome result (λ parts. parts.2.now ≡ drop 2 words.now) }
    ensures two { IfSome result (λ parts. 2 ≤ length words.now) }
{
    match words {
        [first, second, more @ ..] => Some((first, second, more)),
        _ => None,
    }
}

// Parts and ends in turn.
fn pairs_of(alloc: Global, words: &[&[u8]]) -> Result<Option<Listed<PartEnd>>, AllocError>
    ensures { IfOk result (λ pairs. pairs ≡ pairs_of (map (λ word. word.now) words.now)) }
{
    let mut found = Vec::new(alloc);
    let mut at = 0;
    while at < words.len() {
        let Some((part, to, _)) = cut_two(&words[at..]) else {
            return Ok(None);
        };
        let Some(pair) = next_pair(&found, part, to) else {
            return Ok(None);
        };
        found.push(pair)?;
        at += 2;
    }
    Ok(Some(Listed::new(found)))
}

fn commit_of(alloc: Global, args: &[&[u8]]) -> Result<Result<Directive, LineKind>, AllocError>
    ensures { IfOk result (λ directive. directive ≡ directive_of (codes "commit" ∷ map (λ word. word.now) args.now)) }
{
    let Some((id, epoch, pairs)) = cut_two(args) else {
        return Ok(Err(LineKind::Count));
    };
    if pairs.len() < 2 || pairs.len() > 32 || pairs.len() % 2 != 0 {
        return Ok(Err(LineKind::Count));
    }
    let Some(id) = read_u32(id) else {
        return Ok(Err(LineKind::Number));
    };
    let Some(epoch) = read_u64(epoch) else {
        return Ok(Err(LineKind::Number));
    };
    match pairs_of(alloc, pairs)? {
        Some(pairs) => Ok(Ok(Directive::Commit { id, epoch, pairs })),
        None => Ok(Err(LineKind::Number)),
    }
}

// Bytes of its own.
fn copy_of(alloc: Global, bytes: &[u8]) -> Result<Listed<u8>, AllocError>
    ensures { IfOk result (λ copy. copy ≡ bytes.now) }
{
    Ok(Listed::new(bytes.to_vec(alloc)?))
}

// All words that are left, with the spaces between them.
fn body_of(alloc: Global, text: Option<&[u8]>) -> Result<Listed<u8>, AllocError>
    ensures { IfOk result (λ body. body ≡ joined (words_behind (now_of text.entry))) }
{
    match text {
        Some(text) => copy_of(alloc, text),
        None => Ok(Listed::new(Vec::new(alloc))),
    }
}

// A request is the three words behind `rest`, and behind one more space the body.
fn rest_of(alloc: Global, text: Option<&[u8]>) -> Result<Result<Directive, LineKind>, AllocError>
    ensures { IfOk result (λ directive. directive ≡ directive_of (codes "rest" ∷ words_behind (now_of text.entry))) }
{
    let Some((worker, text)) = next_word(text) else {
        return Ok(Err(LineKind::Count));
    };
    let Some((method, text)) = next_word(text) else {
        return Ok(Err(LineKind::Count));
    };
    let Some((target, text)) = next_word(text) else {
        return Ok(Err(LineKind::Count));
    };
    let worker = match number_of(worker) {
        Ok(worker) => worker,
        Err(kind) => return Ok(Err(kind)),
    };
    Ok(Ok(Directive::Rest {
        worker,
        method: copy_of(alloc, method)?,
        target: copy_of(alloc, target)?,
        body: body_of(alloc, text)?,
    }))
}
