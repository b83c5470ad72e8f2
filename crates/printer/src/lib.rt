// The program's output: a reply as text, put into a lent buffer of bytes.
#![tactic(auto)]

mod text;

ghost use Rattle.std.specs.Prelude.{◌≡◌, ◌++◌, ◌/◌, ◌≤◌, length};
ghost use Rattle.model.specs.Text.{bytes};
ghost use Rattle.model.specs.Print.{headline, event_lines};
ghost use Rattle.printer.specs.Buffer.{HoldsReply, Printed};

use text::Text;

// Both put their text into a buffer of the caller's, since no library crate uses heap, and answer how many bytes it is, as `read` does. That it holds a reply stays a clause: an array would ask more of its length.

// The verdict's name with slips and rounds, then each event's number and the four words of its windows.
// It rules out a program that loses digits (digit_lost) and one that numbers events otherwise (event_by_place).
pub fn print_done(out: &mut [u8], name: &[u8], slips: usize, rounds: usize, table: &[i32]) -> usize
    requires { (length name.now ≤ 8) × (length table.now ≤ 320) × HoldsReply out.old }
    ensures { Printed out.new result (headline name.now slips rounds ++ event_lines table.now (length table.now / 5)) }
{
    let mut text = Text::new(out);
    text.put_headline(name, slips, rounds);
    text.put_events(table);
    text.at
}

// "refused", number, place. The number is a number here, as printing knows no questions.
// It rules out a program that exchanges the two (place_before_number) and one that loses digits (digit_lost).
pub fn print_refused(out: &mut [u8], number: usize, place: usize) -> usize
    requires { HoldsReply out.old }
    ensures { Printed out.new result (headline (bytes "refused") number place) }
{
    let mut text = Text::new(out);
    text.put_headline(b"refused", number, place);
    text.at
}
