// Standard input, word by word, read in pieces.
ghost use Rattle.std.specs.Prelude.{◌<◌, ◌≤◌, length, IfOk};

use super::words::word;
use std::io::Read;

// What is said where the stream ends before its last record does.
const CUT: &str = "the stream is cut short";

// A reader, the piece at hand, where reading stands in it and where it ends.
#[derive(Drop)]
pub struct Input<R> {
    reader: R,
    piece: [u8; 65536],
    at: usize,
    end: usize,
    ghost within: { at ≤ end },
    ghost held: { end ≤ 65536 },
}

// Reads until the space is full, the input ends or a read fails, and returns how many bytes it put at the start of the space.
fn read_full(reader: &mut impl Read, space: &mut [u8]) -> usize
    ensures { result ≤ length space.new }
{
    let mut done = 0;
    while done < space.len() {
        let got = reader.read(&mut space[done..]).unwrap_or(0);
        if got == 0 {
            break;
        }
        done += got;
    }
    done
}

impl<R: Read> Input<R> {
    // Nothing is read yet.
    pub fn new(reader: R) -> Input<R> {
        Input {
            reader,
            piece: [0; 65536],
            at: 0,
            end: 0,
        }
    }

    // The words at hand put at the start of a table, as many as it takes, and how many they are. A piece is a whole number of words, so that none lies across two.
    fn take(&mut self, table: &mut [i32]) -> Result<usize, &'static str>
        requires { 0 < length table.old }
        ensures { IfOk result (λ n. (0 < n) × (n ≤ length table.new)) }
    {
        if self.at == self.end {
            self.at = 0;
            self.end = read_full(&mut self.reader, &mut self.piece);
        }
        let (words, _) = self.piece[self.at..self.end].as_chunks::<4>();
        let n = words.len().min(table.len());
        if n == 0 {
            return Err(CUT);
        }
        for (x, bytes) in table.iter_mut().zip(words) {
            *x = word(*bytes);
        }
        self.at += 4 * n;
        Ok(n)
    }

    // All words of a table.
    pub fn fill(&mut self, table: &mut [i32]) -> Result<(), &'static str> {
        let mut done = 0;
        while done < table.len() {
            done += self.take(&mut table[done..])?;
        }
        Ok(())
    }

    // The next word.
    pub fn next_word(&mut self) -> Result<i32, &'static str> {
        let mut word = [0i32; 1];
        self.fill(&mut word)?;
        Ok(word[0])
    }
}
