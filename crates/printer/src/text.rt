// A text as it is put into a lent buffer. Words are put so by `slips::Writer`: no crate lies under both, and one for a slice and a place is no plainer.
ghost use Rattle.std.specs.Prelude.{◌≡◌, ◌∷◌, ◌++◌, ◌+◌, ◌*◌, ◌/◌, ◌≤◌, length, take, drop};
ghost use Rattle.model.specs.Print.{numeral, line_of, headline, event_lines};
ghost use Rattle.printer.specs.Buffer.{Put, HasRoom};

use itoa::{Buffer, Integer};

// A lent buffer, and the place that the text in it has reached. It is no `fmt::Write`: `write!` was tried, and the proof did not close. It promises its text only where it answers Ok, nothing says when it does, and the printers cannot fail.
#[derive(Drop)]
pub struct Text<'a> {
    out: &'a mut [u8],
    pub at: usize,
}

impl<'a> Text<'a> {
    // No text yet.
    pub fn new(out: &'a mut [u8]) -> Text<'a>
        ensures same_reference { result.out.ghost_name ≡ out.entry.ghost_name }
        ensures buffer { result.out.now ≡ out.old }
        ensures at { result.at ≡ 0 }
    {
        Text { out, at: 0 }
    }

    // Bytes behind what stands there.
    fn put(&mut self, bytes: &[u8])
        requires { HasRoom self.old (length bytes.now) }
        ensures { Put (length bytes.now) self.old self.new bytes.now }
    {
        let end = self.at + bytes.len();
        self.out[self.at..end].copy_from_slice(bytes);
        self.at = end;
    }

    // A number.
    fn put_number<I: Integer>(&mut self, n: I)
        requires { HasRoom self.old I.MAX_STR_LEN }
        ensures { Put I.MAX_STR_LEN self.old self.new (I.text n) }
    {
        self.put(Buffer::new().format(n).as_bytes());
    }

    // A blank and a number.
    fn put_word<I: Integer>(&mut self, n: I)
        requires { HasRoom self.old (I.MAX_STR_LEN + 1) }
        ensures { Put (I.MAX_STR_LEN + 1) self.old self.new (32 ∷ I.text n) }
    {
        self.put(b" ");
        self.put_number(n);
    }

    // A name and two counts.
    pub fn put_headline(&mut self, name: &[u8], a: usize, b: usize)
        requires { HasRoom self.old (length name.now + 43) }
        ensures { Put (length name.now + 43) self.old self.new (headline name.now a b) }
    {
        self.put(name);
        self.put_word(a);
        self.put_word(b);
        self.put(b"\n");
    }

    // Words, each behind a blank, and the line's end.
    fn put_line(&mut self, words: &[i32])
        requires { HasRoom self.old (12 * length words.now + 1) }
        ensures { Put (12 * length words.now + 1) self.old self.new (line_of words.now) }
    {
        for word in words {
            self.put_word(*word);
        }
        self.put(b"\n");
    }

    // The number of an event and the four words of its windows, of five.
    fn put_event(&mut self, y: usize, event: &[i32])
        requires { HasRoom self.old 69 × (length event.now ≡ 5) }
        ensures { Put 69 self.old self.new (numeral y ++ line_of (take 4 event.now)) }
    {
        self.put_number(y);
        self.put_line(&event[..4]);
    }

    // The lines of all events.
    #[tactic(auto, unfolding(model::specs::Print::event_lines))]
    pub fn put_events(&mut self, table: &[i32])
        requires { HasRoom self.old (69 * (length table.now / 5)) }
        ensures { Put (69 * (length table.now / 5)) self.old self.new (event_lines table.now (length table.now / 5)) }
    {
        for (y, event) in table.chunks_exact(5).enumerate() {
            self.put_event(y, event);
        }
    }
}
