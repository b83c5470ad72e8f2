// Words appended to a lent buffer.
// That the buffer stays the one lent is a clause of its own at each method: as a field of `Wrote` it was tried, and a caller's proof then does not find what the buffer holds.
// `printer` puts bytes so: no crate lies under both, and one for a slice and a place is no plainer.
ghost use Rattle.std.specs.Prelude.{◌≡◌};
ghost use Rattle.slips.specs.Writing.{HasRoom, Wrote};

// A lent buffer, and the place reached in it.
#[derive(Drop)]
pub struct Writer<'a> {
    pub words: &'a mut [i32],
    pub at: usize,
}

impl<'a> Writer<'a> {
    // Words appended.
    pub fn put<const N: usize>(&mut self, words: [i32; N])
        requires { HasRoom N self.old }
        ensures words { Wrote words.entry self.old self.new }
        ensures same_buffer { self.new.words.ghost_name ≡ self.old.words.ghost_name }
    {
        let end = self.at + N;
        self.words[self.at..end].copy_from_slice(&words);
        self.at = end;
    }
}
