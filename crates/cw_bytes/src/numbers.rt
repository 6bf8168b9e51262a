//! Reading numbers.
ghost use Rattle.std.specs.Prelude.{◌≡◌, ◌+◌, ◌<◌, ◌≤◌, ◌^◌, length};
ghost use Rattle.std.specs.Int.{w32, w64};
ghost use Rattle.cw_bytes.specs.Input.{unread};
ghost use Rattle.cw_bytes.specs.Unread.{past};
ghost use Rattle.cw_bytes.specs.Reading.{Reads, byte_at, number_at};

use crate::fault::FieldFault;
use crate::input::Input;

/// What is unread behind so many bytes more.
#[inline]
pub fn past(from: Input<'_>, count: usize) -> Input<'_>
    requires { count ≤ length from.rest.now }
    ensures { unread result ≡ past count (unread from.entry) }
{
    Input {
        place: from.place + count,
        rest: &from.rest[count..],
    }
}

/// One byte.
#[inline]
pub fn u8_of(from: Input<'_>) -> Result<(u8, Input<'_>), FieldFault>
    ensures { Reads (λ x. (x.0, unread x.1)) result (byte_at (unread from.entry)) }
{
    match from.rest {
        [] => Err(FieldFault::Short(from.place)),
        [byte, rest @ ..] => {
            let next = Input {
                place: from.place + 1,
                rest,
            };
            Ok((*byte, next))
        }
    }
}

/// A number of four bytes, the greatest first.
#[inline]
pub fn u32_of(from: Input<'_>) -> Result<(u32, Input<'_>), FieldFault>
    ensures { Reads (λ x. (x.0, unread x.1)) result (number_at w32 (unread from.entry)) }
{
    if from.rest.len() < 4 {
        return Err(FieldFault::Short(from.place));
    }
    let front = &from.rest[..4];
    let number = u32::from_be_bytes([front[0], front[1], front[2], front[3]]);
    Ok((number, past(from, 4)))
}

/// A number of eight bytes, the greatest first.
#[inline]
pub fn u64_of(from: Input<'_>) -> Result<(u64, Input<'_>), FieldFault>
    ensures { Reads (λ x. (x.0, unread x.1)) result (number_at w64 (unread from.entry)) }
{
    if from.rest.len() < 8 {
        return Err(FieldFault::Short(from.place));
    }
    let front = &from.rest[..8];
    let number = u64::from_be_bytes([
        front[0], front[1], front[2], front[3], front[4], front[5], front[6], front[7],
    ]);
    Ok((number, past(from, 8)))
}
