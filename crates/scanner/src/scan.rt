// The numbers of a text, read byte by byte in pieces of any length.
// The steps are functions of scan and table, of which `Scanner` is made: a method would say of each that the table stays the one lent.
ghost use Rattle.std.specs.Prelude.{◌≡◌, ◌+◌, ◌*◌};
ghost use Rattle.scanner.specs.Scanning.{state, state_of, sized, kept, closed, ended, negated, grown, valued, step, fed};

// Where a text stands after some of its bytes.
#[derive(Clone, Copy, Debug, PartialEq, Eq)]
pub enum Scan {
    // So many numbers, and no token begun.
    Between(usize),
    // So many numbers, then '-'.
    Minus(usize),
    // So many numbers, then digits of this value, after a '-' if true.
    Digits(usize, bool, u32),
    // Text otherwise formed, whatever follows: 20. A state, and no None: the scanner goes on with it.
    Malformed,
}

// A value with its sign, if it is a word of 32 bits.
fn with_sign(negative: bool, v: u32) -> Option<i32>
    ensures { result ≡ sized negative v }
{
    let magnitude = i64::from(v);
    let value = if negative { -magnitude } else { magnitude };
    i32::try_from(value).ok()
}

// Number n of the text is z, if the table has room for it. With `get_mut` the proof does not close: it knows no word of the table behind the loan.
fn store(n: usize, z: i32, table: &mut [i32]) -> Scan
    ensures { state result table.new ≡ kept n z table.old }
{
    if n < table.len() {
        table[n] = z;
        return Scan::Between(n + 1);
    }
    Scan::Malformed
}

// The digits of number n end.
fn end_digits(n: usize, negative: bool, v: u32, table: &mut [i32]) -> Scan
    ensures { state result table.new ≡ closed n (sized negative v) table.old }
{
    match with_sign(negative, v) {
        Some(z) => store(n, z, table),
        None => Scan::Malformed,
    }
}

// A token ends: its number is stored.
pub fn end_token(s: Scan, table: &mut [i32]) -> Scan
    ensures { state result table.new ≡ ended s table.old }
{
    match s {
        Scan::Between(n) => Scan::Between(n),
        Scan::Digits(n, negative, v) => end_digits(n, negative, v, table),
        _ => Scan::Malformed,
    }
}

// A token begins with '-'.
fn negate(s: Scan) -> Scan
    ensures { result ≡ negated s }
{
    match s {
        Scan::Between(n) => Scan::Minus(n),
        _ => Scan::Malformed,
    }
}

// Digits of this value, unless it fits with neither sign.
fn valued(n: usize, negative: bool, v: u64) -> Scan
    ensures { result ≡ valued n negative v }
{
    if v <= 2147483648 {
        return Scan::Digits(n, negative, v as u32);
    }
    Scan::Malformed
}

// One digit more.
fn digit(s: Scan, d: u8) -> Scan
    ensures { result ≡ grown s d }
{
    // Most digits follow one.
    if let Scan::Digits(n, negative, v) = s {
        return valued(n, negative, 10 * u64::from(v) + u64::from(d));
    }
    match s {
        Scan::Between(n) => valued(n, false, u64::from(d)),
        Scan::Minus(n) => valued(n, true, u64::from(d)),
        _ => Scan::Malformed,
    }
}

// One byte more. A blank and a digit are asked for by themselves, before the rest: a text is mostly these.
#[tactic(auto, unfolding(crate::specs::Scanning::step))]
fn step(s: Scan, b: u8, table: &mut [i32]) -> Scan
    ensures { state result table.new ≡ step (state s table.old) b }
{
    if b == b' ' {
        return end_token(s, table);
    }
    if b.is_ascii_digit() {
        return digit(s, b - b'0');
    }
    match b {
        b'\t' | b'\n' | b'\r' => end_token(s, table),
        b'-' => negate(s),
        _ => Scan::Malformed,
    }
}

// The bytes of a piece more. Where the text stands is held by itself on the way: as the scanner's field it would be stored and read again at each byte.
fn steps(s: Scan, piece: &[u8], table: &mut [i32]) -> Scan
    ensures { state result table.new ≡ fed (state s table.old) piece.now }
{
    let mut scan = s;
    for b in piece {
        scan = step(scan, *b, table);
    }
    scan
}

// Where a text stands, and a lent table that holds its numbers.
#[derive(Drop)]
pub struct Scanner<'a> {
    pub table: &'a mut [i32],
    pub scan: Scan,
}

impl<'a> Scanner<'a> {
    // No text yet.
    // It rules out a program that takes a text to begin behind a '-' (begun_with_minus).
    pub fn new(table: &'a mut [i32]) -> Scanner<'a>
        ensures same_table { result.table.ghost_name ≡ table.entry.ghost_name }
        ensures start { state_of result ≡ state (Scan.Between 0) table.old }
    {
        Scanner {
            table,
            scan: Scan::Between(0),
        }
    }

    // The bytes of one piece more, and the numbers that ended in it stored.
    // It rules out a program that takes "+5" (plus_taken) and one that refuses 2147483647 (largest_word_refused).
    pub fn feed(&mut self, piece: &[u8])
        ensures same_table { self.new.table.ghost_name ≡ self.old.table.ghost_name }
        ensures scan { state_of self.new ≡ fed (state_of self.old) piece.now }
    {
        self.scan = steps(self.scan, piece, self.table);
    }
}
