// The board: the windows of up to 64 events, each end's words side by side, so that a loop over events goes along a row; 64 `Windows` in a row would be no plainer, as ends are read and stored by their row.
// How many events a job has stands in the job. That an event's number is below 64 stays a clause, here and above: a type for it would only wrap the number, anew in each step of a loop.
ghost use Rattle.std.specs.Prelude.{◌≡◌, ◌+◌, ◌*◌, ◌/◌, ◌<◌, ◌≤◌, pos, length, replicate, set};
ghost use Rattle.std.proofs.lemmas.List.Edits.{sets};
ghost use Rattle.model.specs.Job.{t_min, t_max, h_min, h_max, word, windows};
ghost use Rattle.tables.specs.Board.{board, words_of, table_of, WindowTable, Loaded};
ghost use Rattle.tables.specs.Ends.{end_of};
ghost use Rattle.tables.specs.Windows.{windows_set, Event};

use crate::ends::{End, Word};
use crate::windows::Windows;
use crate::{Height, Time};

// Word k of event y, in the order of the ends, at 64·k + y.
#[derive(Clone, Copy)]
pub struct Board {
    pub words: [i32; 256],
    ghost whole: { length words ≡ 256 },
}

impl Board {
    // Each word is 0: no event has windows yet.
    pub fn blank() -> Board
        ensures { result.words ≡ replicate 256 (pos 0) }
    {
        Board { words: [0; 256] }
    }

    // An end of event y's windows.
    pub fn end(&self, k: End, y: usize) -> Word
        requires { y < 64 }
        ensures { result.0 ≡ board self.now.words y (end_of k) }
    {
        Word(self.words[64 * k.row() + y])
    }

    // It becomes v; no other word changes.
    pub fn set_end(&mut self, k: End, y: usize, v: Word)
        requires { y < 64 }
        ensures { self.new.words ≡ set self.old.words (64 * word (end_of k) + y) v.0 }
    {
        self.words[64 * k.row() + y] = v.0;
    }

    // The ends by their names, each with its measure: one function over the end would hand back a word, and each caller would have to say again what it measures.
    pub fn t_min(&self, y: usize) -> Time
        requires { y < 64 }
        ensures { result.0 ≡ board self.now.words y t_min }
    {
        Time(self.words[y])
    }

    pub fn t_max(&self, y: usize) -> Time
        requires { y < 64 }
        ensures { result.0 ≡ board self.now.words y t_max }
    {
        Time(self.words[64 + y])
    }

    pub fn h_min(&self, y: usize) -> Height
        requires { y < 64 }
        ensures { result.0 ≡ board self.now.words y h_min }
    {
        Height(self.words[128 + y])
    }

    pub fn h_max(&self, y: usize) -> Height
        requires { y < 64 }
        ensures { result.0 ≡ board self.now.words y h_max }
    {
        Height(self.words[192 + y])
    }

    // The ends by their names become v, each with its measure, so that a minute is never stored as an amount; no other word changes.
    pub fn set_t_min(&mut self, y: usize, v: Time)
        requires { y < 64 }
        ensures { self.new.words ≡ set self.old.words (64 * word t_min + y) v.0 }
    {
        self.set_end(End::TMin, y, v.into());
    }

    pub fn set_t_max(&mut self, y: usize, v: Time)
        requires { y < 64 }
        ensures { self.new.words ≡ set self.old.words (64 * word t_max + y) v.0 }
    {
        self.set_end(End::TMax, y, v.into());
    }

    pub fn set_h_min(&mut self, y: usize, v: Height)
        requires { y < 64 }
        ensures { self.new.words ≡ set self.old.words (64 * word h_min + y) v.0 }
    {
        self.set_end(End::HMin, y, v.into());
    }

    pub fn set_h_max(&mut self, y: usize, v: Height)
        requires { y < 64 }
        ensures { self.new.words ≡ set self.old.words (64 * word h_max + y) v.0 }
    {
        self.set_end(End::HMax, y, v.into());
    }

    // Event y's windows.
    pub fn windows(&self, y: usize) -> Windows
        requires { y < 64 }
        ensures { Event (board self.now.words) y result }
    {
        Windows {
            t_min: self.t_min(y),
            t_max: self.t_max(y),
            h_min: self.h_min(y),
            h_max: self.h_max(y),
        }
    }

    // They become w; no other word changes.
    pub fn set_windows(&mut self, y: usize, w: Windows)
        requires { y < 64 }
        ensures { self.new.words ≡ windows_set w y self.old.words }
    {
        self.words[y] = w.t_min.0;
        self.words[64 + y] = w.t_max.0;
        self.words[128 + y] = w.h_min.0;
        self.words[192 + y] = w.h_max.0;
    }

    // The board gets the windows of a window table.
    pub fn load(&mut self, table: &[i32])
        requires { WindowTable table.now }
        ensures { Loaded (length table.now / 5) table.now self.new.words }
    {
        for y in 0..table.len() / 5 {
            self.set_windows(y, Windows::of_event(table, y));
        }
    }

    // The words of event y's windows into the window table; its cage stays.
    fn unload_event(&self, y: usize, table: &mut [i32])
        requires { (y < 64) × (5 * y + 5 ≤ length table.old) }
        ensures { table.new ≡ sets table.old (5 * y) (words_of self.now.words y) }
    {
        let w = self.windows(y);
        let at = 5 * y;
        table[at..at + 4].copy_from_slice(&[w.t_min.0, w.t_max.0, w.h_min.0, w.h_max.0]);
    }

    // The windows of all events back into the window table.
    pub fn unload(&self, table: &mut [i32])
        requires { WindowTable table.old }
        ensures { table.new ≡ table_of (length table.old / 5) table.old self.now.words }
    {
        for y in 0..table.len() / 5 {
            self.unload_event(y, table);
        }
    }
}
