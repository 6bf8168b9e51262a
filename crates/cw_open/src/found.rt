//! What is found in a log while its file is read.
ghost use Rattle.std.specs.Prelude.{◌≡◌, ◌<◌, ◌^◌, ◌++◌, ◌∷◌, [], ℕ, List, None, OnOk, IsTrue, ◌↔◌};
ghost use Rattle.cw_open.specs.FoundFrames.{FindsMore, IsFound, IsFoundIn};

use crate::reading::LogFrame;
use cw_bytes::BodyFault;
use cw_log::BodyVisitor;
use std::alloc::{AllocError, Global};
use std::marker::Model;

/// What is found in a log while its file is read: a frame of each body, and where its gate stands; or where the gate of
/// the first stands that can't be read, and then nothing of those behind it.
#[derive(Drop)]
pub(crate) struct FoundFrames<A: LogFrame> {
    alloc: Global,
    pub(crate) frames: Vec<A>,
    pub(crate) gates: Vec<u64>,
    unread: Option<u64>,
    count: u64,
    size: u64,
}

impl<A: LogFrame> Model for FoundFrames<A> {
    ghost use Rattle.cw_open.specs.FoundFrames.{FoundState, IsFound};

    ghost Value = { FoundState A };

    ghost view = { λ f. record {
      frames = f.frames.items;
      gates = f.gates.items;
      unread = f.unread;
      count = f.count;
      size = f.size;
    } };

    ghost invariant = { λ f. IsFound A.at (record {
      frames = f.frames.items;
      gates = f.gates.items;
      unread = f.unread;
      count = f.count;
      size = f.size;
    }) };
}

impl<A: LogFrame> FoundFrames<A> {
    /// Of no body.
    pub(crate) fn new(alloc: Global) -> FoundFrames<A>
        ensures { result ≡ record { frames = []; gates = []; unread = None; count = 0; size = 17 } }
    {
        FoundFrames {
            alloc,
            frames: Vec::new(alloc),
            gates: Vec::new(alloc),
            unread: None,
            count: 0,
            size: 17,
        }
    }

    /// Where the gate of the first body stands that can't be read, if there is one.
    pub(crate) fn unread(&self) -> Option<u64>
        ensures { result ≡ self.now.unread }
    {
        self.unread
    }

    /// The frames, and the places of their gates.
    pub(crate) fn into_parts(self) -> (Vec<A>, Vec<u64>)
        ensures frames { result.0.items ≡ self.frames }
        ensures gates { result.1.items ≡ self.gates }
        ensures found { IsFound A.at self }
        ensures small { self.size < 2 ^ 64 }
    {
        let FoundFrames { frames, gates, .. } = self;
        (frames, gates)
    }

    /// Whether there were so many bodies, and a log of them has so many bytes.
    pub(crate) fn counts(&self, count: u64, size: u64) -> bool
        ensures { IsTrue result ↔ ((count ≡ self.now.count) × (size ≡ self.now.size)) }
    {
        count == self.count && size == self.size
    }

    /// One body more. An `Err` comes for want of memory, or where the log would have 2^64 bytes; nothing is said of
    /// what it has then.
    pub(crate) fn take(&mut self, body: &[u8]) -> Result<(), AllocError>
        ensures { OnOk result ((bodies : List (List ℕ)) → IsFoundIn A.at self.old bodies →
            IsFoundIn A.at self.new (bodies ++ body.now ∷ [])) }
    {
        let length = body.len() as u64;
        if u64::MAX - self.size < 5 || u64::MAX - self.size - 5 < length {
            return Err(AllocError);
        }
        match find_more(
            self.alloc,
            &mut self.frames,
            &mut self.gates,
            &mut self.unread,
            self.size - 1,
            body,
        ) {
            Ok(()) => {
                self.count += 1;
                self.size += length + 5;
                Ok(())
            }
            Err(fault) => {
                self.frames = Vec::new(self.alloc);
                self.gates = Vec::new(self.alloc);
                self.unread = None;
                self.count = 0;
                self.size = 17;
                Err(fault)
            }
        }
    }
}

impl<A: LogFrame> BodyVisitor for FoundFrames<A> {
    ghost has_seen = { λ found bodies. IsFoundIn A.at found bodies };

    fn expect(&mut self, _: u64) {}

    fn see(&mut self, body: &[u8], _: u64) -> Result<(), AllocError> {
        self.take(body)
    }
}

// One body more, whose gate stands here.
fn find_more<A: LogFrame>(
    alloc: Global,
    frames: &mut Vec<A>,
    gates: &mut Vec<u64>,
    unread: &mut Option<u64>,
    gate: u64,
    body: &[u8],
) -> Result<(), AllocError>
    ensures { OnOk result (FindsMore A.at body.now gate frames.old.items gates.old.items unread.old frames.new.items
        gates.new.items unread.new) }
{
    if unread.is_some() {
        return Ok(());
    }
    match A::read(alloc, body) {
        Ok(frame) => {
            gates.push(gate)?;
            frames.push(frame)?;
            Ok(())
        }
        Err(BodyFault::NotBody) => {
            *unread = Some(gate);
            Ok(())
        }
        Err(BodyFault::Memory) => Err(AllocError),
    }
}
