// A lent buffer, and the place in it where the next bytes go. The callers have seen that there is room.
ghost use Rattle.std.specs.Prelude.{length};
ghost use Rattle.record_writer.specs.Pens.{HasRoom, SameBuffer, Puts};

#[derive(Drop)]
pub(crate) struct Pen<'a> {
    pub(crate) buffer: &'a mut [u8],
    pub(crate) at: usize,
}

impl<'a> Pen<'a> {
    /// Writes the bytes, and goes on behind them.
    pub(crate) fn put(&mut self, bytes: &[u8])
        requires { HasRoom self.old (length bytes.now) }
        ensures same_buffer { SameBuffer self.old self.new }
        ensures bytes { Puts self.old bytes.now self.new }
    {
        let end = self.at + bytes.len();
        self.buffer[self.at..end].copy_from_slice(bytes);
        self.at = end;
    }
}
