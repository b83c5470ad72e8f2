// The text as `read` gives it: piece after piece, until one is empty or a call fails.
ghost use Rattle.std.specs.Prelude.{◌≡◌};
ghost use Rattle.std.specs.Option.{option_copied};
ghost use Rattle.scanner.specs.Scanning.{state_of, piece_of, taken, goes_on, has_more};

use crate::scan::{Scan, Scanner};
use std::ops::ControlFlow;

impl<'a> Scanner<'a> {
    // A piece more of the text: the bytes that a call of `read` gave, or None where it failed. The text goes on with the scan, or ends with it.
    // A call that failed leaves a text that is not known to its end, which is 20.
    // It rules out a program that takes a piece which is not full for the last (short_read_as_end) and one that takes a failed read for the end (failed_read_as_end).
    pub fn take(&mut self, piece: Option<&[u8]>) -> ControlFlow<()>
        ensures same_table { self.new.table.ghost_name ≡ self.old.table.ghost_name }
        ensures scan { state_of self.new ≡ taken (state_of self.old) (piece_of (option_copied piece.entry)) }
        ensures more { has_more result ≡ goes_on (piece_of (option_copied piece.entry)) }
    {
        let Some(bytes) = piece else {
            self.scan = Scan::Malformed;
            return ControlFlow::Break(());
        };
        self.feed(bytes);
        if bytes.is_empty() {
            ControlFlow::Break(())
        } else {
            ControlFlow::Continue(())
        }
    }
}
