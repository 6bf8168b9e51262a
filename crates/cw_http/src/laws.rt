//! The law of requests, for all bytes. It does nothing at run time.
ghost use Rattle.std.specs.Prelude.{◌≡◌, ℕ, List, Option, Some};
ghost use Rattle.cw_http.specs.declared.request.Request.{Request};
ghost use Rattle.cw_http.specs.Reading.{Reading, Reads, unfinished, refused};
ghost use Rattle.cw_http.specs.Kept.{IsTold, IsTaken};

/// The law of requests: there is one thing that stands at the front of bytes. So whoever sends the same
/// bytes gets the same answers, however they were cut: the same request with the same bytes behind it, or
/// the same refusal, and never one in place of the other.
pub fn requests_are_one()
    ensures one { (bytes : List ℕ) (first second : Reading) → Reads bytes first → Reads bytes second → first ≡ second }
    ensures taken { (bytes : List ℕ) (first second : Request) (left other : Option (List ℕ))
        → IsTaken first (Some bytes) left → IsTaken second (Some bytes) other → (first ≡ second) × (left ≡ other) }
    ensures refusal { (bytes : List ℕ) (first second : ℕ)
        → IsTold (refused first) (Some bytes) → IsTold (refused second) (Some bytes) → first ≡ second }
    ensures apart { (bytes : List ℕ) (request : Request) (left : Option (List ℕ)) (code : ℕ)
        → IsTaken request (Some bytes) left → IsTold (refused code) (Some bytes) → ⊥ }
    ensures whole { (bytes : List ℕ) (request : Request) (left : Option (List ℕ))
        → IsTaken request (Some bytes) left → IsTold unfinished (Some bytes) → ⊥ }
    ensures ended { (bytes : List ℕ) (code : ℕ)
        → IsTold (refused code) (Some bytes) → IsTold unfinished (Some bytes) → ⊥ }
{}
