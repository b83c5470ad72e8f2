// Standard output, written in pieces.
// Whoever runs the program compares what it wrote, so a write that fails is passed over.
ghost use Rattle.std.specs.Prelude.{◌≤◌};

use std::fmt;

// Where the output goes, the piece at hand and the place reached in it.
#[derive(Drop)]
pub struct Output<'a, P> {
    rt: &'a P,
    piece: [u8; 65536],
    at: usize,
    ghost within: { at ≤ 65536 },
}

impl<'a, P: Print> Output<'a, P> {
    // Nothing is written yet.
    pub fn new(rt: &'a P) -> Output<'a, P> {
        Output {
            rt,
            piece: [0; 65536],
            at: 0,
        }
    }

    // What is left is written out.
    pub fn flush(&mut self) {
        let _ = self.rt.write_all(&self.piece[..self.at]);
        self.at = 0;
    }

    // One byte; a full piece is written out first.
    fn put(&mut self, b: u8) {
        if self.at < 65536 {
            self.piece[self.at] = b;
            self.at += 1;
            return;
        }
        self.flush();
        self.piece[0] = b;
        self.at = 1;
    }
}

impl<'a, P: Print> fmt::Write for Output<'a, P> {
    fn write_str(&mut self, s: &str) -> fmt::Result {
        for b in s.as_bytes() {
            self.put(*b);
        }
        Ok(())
    }
}
