// A buffer that is written from a place on.
ghost use Rattle.std.specs.Prelude.{◌≡◌, ◌+◌, ◌≤◌, length};
ghost use Rattle.sheet.specs.Buffers.{Puts};

#[derive(Drop)]
pub(crate) struct Writer<'a> {
    pub(crate) out: &'a mut [u8],
    pub(crate) place: usize,
}

impl Writer<'_> {
    // Writes some bytes, and goes on behind them.
    pub(crate) fn put<const N: usize>(&mut self, bytes: [u8; N])
        requires { self.old.place + N ≤ length self.old.out.now }
        ensures { Puts self.old bytes.entry self.new }
    {
        let end = self.place + N;
        let out = &mut *self.out;
        out[self.place..end].copy_from_slice(&bytes);
        self.place = end;
    }
}
