// The fields of a body that are not read yet, as bytes.
ghost use Rattle.std.specs.Prelude.{◌≡◌, ◌+◌, ◌≤◌, length, take, drop};

#[derive(Drop)]
pub(crate) struct Fields<'a> {
    pub(crate) left: &'a [u8],
}

impl Fields<'_> {
    // The bytes of the next field.
    pub(crate) fn next<const N: usize>(&mut self) -> [u8; N]
        requires { N ≤ length self.old.left.now }
        ensures field { result ≡ take N self.old.left.now }
        ensures left { self.new.left.now ≡ drop N self.old.left.now }
        ensures fewer { length self.new.left.now + N ≡ length self.old.left.now }
    {
        let (field, left) = self.left.split_first_chunk().unwrap();
        self.left = left;
        *field
    }
}
