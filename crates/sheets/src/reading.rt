// What the contents of a message are read with.
ghost use Rattle.std.specs.Prelude.{◌≤◌, length};

// The table backwards, the sign, and the rest of the details that run on, which stands in 72.
#[derive(Clone, Copy)]
pub(crate) struct Reading<'a> {
    pub back: &'a [u8; 256],
    pub sign: bool,
    pub rest: &'a [u8],
    ghost short: { length rest.now ≤ 10000 },
}
