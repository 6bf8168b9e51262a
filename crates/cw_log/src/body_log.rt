// What a log is to the crates above: a list of bodies, and which lists a stop may leave of it.
ghost use Rattle.std.specs.Prelude.{◌≡◌, ◌⊎◌, ◌≤◌, ◌<◌, ◌+◌, ◌^◌, ◌++◌, ◌∷◌, [], List, ℕ, Option, Some, Bool, true};
ghost use Rattle.std.specs.Prelude.{false, length, OnOk, OnErr, IfOk, IfErr, option_map, is_some, slice_index_or};
ghost use Rattle.cw_disk.specs.Disk.{AddsOf};
ghost use Rattle.cw_log.specs.Log.{length_of};
ghost use Rattle.cw_log.specs.State.{FailedOn, IsFitting, OnAppendFault, OnReadFault};

use crate::{AppendFault, ReadFault};
use cw_disk::Memory;

/// An append-only list of bodies that survives a stop at any moment, on however many disks.
pub trait BodyLog {
    /// The bodies, where the disks tell their content.
    ghost bodies: { Self → Option (List (List ℕ)) };

    /// How many bodies.
    ghost size: { Self → ℕ };

    /// How many bytes, up to and with the closed gate.
    ghost bytes: { Self → ℕ };

    /// How many bytes it may have.
    ghost limit: { Self → ℕ };

    /// The number of its kind.
    ghost kind: { Self → ℕ };

    /// The number of its side.
    ghost number: { Self → ℕ };

    /// An append of a body of at most so many bytes takes no memory.
    ghost ready: { Self → ℕ };

    /// An append has failed.
    ghost is_shut: { Self → Bool };

    /// The side and the count of faults behind the last call that failed.
    ghost last_failed: { Self → Option (ℕ × ℕ) };

    /// The count of faults of the disk of a side.
    ghost faults: { Self → ℕ → ℕ };

    /// The moment, as a number that doesn't fall.
    ghost moment: { Self → ℕ };

    /// The lists that a stop at some moment from that one on may have left.
    ghost stands_since: { Self → ℕ → List (List ℕ) → Type 0 };

    /// What a stop leaves of all its disks together.
    ghost Image: { Type 0 };

    /// What a stop now may leave.
    ghost may_leave: { Self → Image → Type 0 };

    /// What of it stands for a list.
    ghost stands_for: { Self → List (List ℕ) → Image → Type 0 };

    /// Takes the memory of an append of at most `body` bytes, the disks' included.
    fn reserve(&mut self, body: usize) -> Result<(), Memory>
        ensures ready { OnOk result (body ≤ ready self.new) }
        ensures memory { OnErr result (ready self.old < body) }
        ensures less { ready self.old ≤ ready self.new }
        ensures bodies { bodies self.new ≡ bodies self.old }
        ensures size { size self.new ≡ size self.old }
        ensures bytes { bytes self.new ≡ bytes self.old }
        ensures limit { limit self.new ≡ limit self.old }
        ensures shut { is_shut self.new ≡ is_shut self.old }
        ensures failed { last_failed self.new ≡ last_failed self.old }
        ensures kind { kind self.new ≡ kind self.old }
        ensures side_number { number self.new ≡ number self.old }
        ensures later { (side : ℕ) → faults self.old side ≤ faults self.new side }
        ensures any_moment { AddsOf moment stands_since self.old self.new (λ list. ⊥) };

    /// Appends a body of 1 to 2^28 bytes, and answers its number. `Shut` comes where an earlier append
    /// has failed, else `Full` where its frame, of five bytes more, would pass the limit.
    fn append(&mut self, body: &[u8]) -> Result<u64, AppendFault>
        requires some { 1 ≤ length body.now }
        requires few { length body.now ≤ 2 ^ 28 }
        ensures bodies { OnOk result (bodies self.new ≡ option_map
            (λ bodies. bodies ++ body.now ∷ []) (bodies self.old)) }
        ensures number { IfOk result (λ number. number ≡ size self.old) }
        ensures size { OnOk result (size self.new ≡ size self.old + 1) }
        ensures bytes { OnOk result (bytes self.new ≡ bytes self.old + (length body.now + 5)) }
        ensures alive { OnOk result ((is_shut self.old ≡ false) × (is_shut self.new ≡ false) × (last_failed self.new ≡
            last_failed self.old)) }
        ensures fits { OnOk result (bytes self.old + (length body.now + 5) ≤ limit self.old) }
        ensures fault { IfErr result (OnAppendFault
            (IsFitting (length body.now) (is_shut self.old) (bytes self.old) (limit self.old) ×
            (is_shut self.new ≡ true) × FailedOn (faults self.old) (faults self.new) (last_failed self.new))
            (λ long frame. (is_shut self.old ≡ false) × (long ≡ bytes self.old) × (frame ≡ length body.now + 5) ×
            (limit self.old < long + frame) × (self.new ≡ self.old))
            ((is_shut self.old ≡ true) × (self.new ≡ self.old))
            (IsFitting (length body.now) (is_shut self.old) (bytes self.old) (limit self.old) ×
            (ready self.old < length body.now) × (is_shut self.new ≡ false) ×
            (last_failed self.new ≡ last_failed self.old))) }
        ensures same { OnErr result ((bodies self.new ≡ bodies self.old) × (size self.new ≡ size self.old) ×
            (bytes self.new ≡ bytes self.old)) }
        ensures limit { limit self.new ≡ limit self.old }
        ensures kind { kind self.new ≡ kind self.old }
        ensures side_number { number self.new ≡ number self.old }
        ensures later { (side : ℕ) → faults self.old side ≤ faults self.new side }
        ensures any_moment { is_shut self.old ≡ false → (before : List (List ℕ)) → bodies self.old ≡ Some before →
            AddsOf moment stands_since self.old self.new (λ list. (list ≡ before) ⊎ (list ≡ before ++ body.now ∷ [])) }
        ensures left { is_shut self.old ≡ false → (before : List (List ℕ)) → bodies self.old ≡ Some before →
            (image : Image) → may_leave self.new image →
            stands_for self.new before image ⊎ stands_for self.new (before ++ body.now ∷ []) image };

    /// How many bodies there are.
    fn count(&self) -> u64
        ensures { result ≡ size self.now };

    /// How many bytes there are, up to and with the closed gate.
    fn length(&self) -> u64
        ensures { result ≡ bytes self.now };

    /// The body of this number, which is below the count.
    fn read_body(&mut self, index: u64) -> Result<Vec<u8>, ReadFault>
        requires { index < size self.old }
        ensures body { IfOk result (λ body. (list : List (List ℕ)) → bodies self.old ≡ Some list → body.items ≡
            slice_index_or list index []) }
        ensures fault { IfErr result (OnReadFault
            (FailedOn (faults self.old) (faults self.new) (last_failed self.new))
            (last_failed self.new ≡ last_failed self.old)) }
        ensures ok { OnOk result (last_failed self.new ≡ last_failed self.old) }
        ensures bodies { bodies self.new ≡ bodies self.old }
        ensures size { size self.new ≡ size self.old }
        ensures bytes { bytes self.new ≡ bytes self.old }
        ensures limit { limit self.new ≡ limit self.old }
        ensures shut { is_shut self.new ≡ is_shut self.old }
        ensures kind { kind self.new ≡ kind self.old }
        ensures side_number { number self.new ≡ number self.old }
        ensures later { (side : ℕ) → faults self.old side ≤ faults self.new side }
        ensures any_moment { AddsOf moment stands_since self.old self.new (λ list. ⊥) };

    /// What holds at rest, where no append has failed: a stop leaves just this list. It does nothing.
    fn rest(&self)
        ensures left { is_shut self.now ≡ false → (list : List (List ℕ)) → bodies self.now ≡ Some list →
            (found : List (List ℕ)) → stands_since self.now (moment self.now) found → found ≡ list }
        ensures images { is_shut self.now ≡ false → (list : List (List ℕ)) → bodies self.now ≡ Some list →
            (image : Image) → may_leave self.now image → stands_for self.now list image }
        ensures sizes { (list : List (List ℕ)) → bodies self.now ≡ Some list →
            (size self.now ≡ length list) × (bytes self.now ≡ length_of list) };

    /// The side and its disk's count of faults behind the last call that failed.
    fn failed(&self) -> Option<(u8, u64)>
        ensures { result ≡ last_failed self.now };
}
