//! Bytes that aren't read yet.
ghost use Rattle.std.specs.Prelude.{◌+◌, ◌<◌, ◌^◌, length};

/// The unread bytes, and the place of the first of them.
#[derive(Clone, Copy, Drop)]
pub struct Input<'a> {
    pub place: usize,
    pub rest: &'a [u8],
    ghost fits: { place + length rest.now < 2 ^ 64 },
}
