//! Parts of a text are sent one behind the other. Small ones wait to be sent with those behind them.
ghost use Rattle.std.specs.Prelude.{◌≡◌, ◌≤◌, ◌++◌, length, take, IfOk, OnErr};
ghost use Rattle.cw_types.specs.Faults.{Rose};
ghost use Rattle.cw_io.specs.Written.{IsWrittenInPart};
ghost use Rattle.cw_http.specs.Sending.{Waits};

use cw_io::{Failed, Link, send_all};

// Adds a part to the bytes that wait, which are sent before it where it has no room behind them.
pub(crate) fn send_part<L: Link>(
    link: &mut L,
    waiting: &mut [u8],
    count: usize,
    part: &[u8],
) -> Result<usize, Failed>
    requires { count ≤ length waiting.old }
    ensures fits { IfOk result (λ n. n ≤ length waiting.new) }
    ensures ok { IfOk result (λ n. Waits (take count waiting.old ++ part.now) (take n waiting.new)
        (L.held link.old) (L.held link.new)) }
    ensures in_part { OnErr result (IsWrittenInPart (take count waiting.old ++ part.now)
        (L.held link.old) (L.held link.new)) }
    ensures apart { L.left link.new ≡ L.left link.old }
    ensures later { L.faults link.old ≤ L.faults link.new }
    ensures rose { OnErr result (Rose (L.faults link.old) (L.faults link.new)) }
{
    if part.len() <= waiting.len() - count {
        waiting[count..count + part.len()].copy_from_slice(part);
        return Ok(count + part.len());
    }
    send_all(link, &waiting[..count])?;
    send_all(link, part)?;
    Ok(0)
}

// Adds three parts.
pub(crate) fn send_line<L: Link>(
    link: &mut L,
    waiting: &mut [u8],
    count: usize,
    name: &[u8],
    value: &[u8],
    end: &[u8],
) -> Result<usize, Failed>
    requires { count ≤ length waiting.old }
    ensures fits { IfOk result (λ n. n ≤ length waiting.new) }
    ensures ok { IfOk result (λ n. Waits (take count waiting.old ++ name.now ++ value.now ++ end.now)
        (take n waiting.new) (L.held link.old) (L.held link.new)) }
    ensures in_part { OnErr result (IsWrittenInPart (take count waiting.old ++ name.now ++ value.now ++ end.now)
        (L.held link.old) (L.held link.new)) }
    ensures apart { L.left link.new ≡ L.left link.old }
    ensures later { L.faults link.old ≤ L.faults link.new }
    ensures rose { OnErr result (Rose (L.faults link.old) (L.faults link.new)) }
{
    let named = send_part(link, waiting, count, name)?;
    let valued = send_part(link, waiting, named, value)?;
    let ended = send_part(link, waiting, valued, end)?;
    Ok(ended)
}
