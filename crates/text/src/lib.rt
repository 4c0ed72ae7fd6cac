//! The text of the printed lines, in ASCII.
#![tactic(auto)]

ghost use Rattle.std.specs.Prelude.{◌≡◌, ◌+◌, ◌≤◌, ◌<◌, length, [], ◌∷◌, map};
ghost use Rattle.text.specs.Text.{words, decimal, text, counts_line, sample_line, refusal_line, Printed};
ghost use Rattle.text.specs.Put.{Put, Room, word_text};

// The places that are enough for every line.
pub const LINE_PLACES: usize = 128;

// A word of a line.
#[derive(Clone, Copy)]
enum Word {
    Refused,
    Natural(usize),
    Signed(i32),
}

// A line that is written from its front on: its places, and how many of them are written.
#[derive(Drop)]
struct Line<'a> {
    places: &'a mut [u8],
    at: usize,
}

impl<'a> Line<'a> {
    // Writes a byte.
    fn byte(&mut self, b: u8)
        requires { Room (b ∷ []) self.old }
        ensures { Put (b ∷ []) self.old self.new }
    {
        self.places[self.at] = b;
        self.at += 1;
    }

    // Writes two bytes.
    fn pair(&mut self, b: u8, c: u8)
        requires { Room (b ∷ (c ∷ [])) self.old }
        ensures { Put (b ∷ (c ∷ [])) self.old self.new }
    {
        let at = self.at;
        self.places[at] = b;
        self.places[at + 1] = c;
        self.at = at + 2;
    }

    // Writes the digits of n, four a call, as printing spends most of its time here.
    fn digits(&mut self, n: usize)
        requires { Room (decimal n) self.old }
        ensures { Put (decimal n) self.old self.new }
    {
        if n < 10 {
            self.byte(b'0' + n as u8);
        } else if n < 100 {
            self.pair(b'0' + (n / 10) as u8, b'0' + (n % 10) as u8);
        } else if n < 10000 {
            self.digits(n / 100);
            self.pair(b'0' + (n / 10 % 10) as u8, b'0' + (n % 10) as u8);
        } else {
            self.digits(n / 10000);
            let four = n % 10000;
            self.pair(b'0' + (four / 1000) as u8, b'0' + (four / 100 % 10) as u8);
            self.pair(b'0' + (four / 10 % 10) as u8, b'0' + (four % 10) as u8);
        }
    }

    // Writes z, with a minus sign where z is negative.
    fn signed(&mut self, z: i32)
        requires { Room (text z) self.old }
        ensures { Put (text z) self.old self.new }
    {
        if z < 0 {
            self.byte(b'-');
        }
        self.digits(z.unsigned_abs() as usize);
    }

    // Writes the word `refused`.
    fn refused(&mut self)
        requires { Room (word_text Word.Refused) self.old }
        ensures { Put (word_text Word.Refused) self.old self.new }
    {
        let end = self.at + 7;
        self.places[self.at..end].copy_from_slice(b"refused");
        self.at = end;
    }

    // Writes a word.
    fn word(&mut self, word: Word)
        requires { Room (word_text word) self.old }
        ensures { Put (word_text word) self.old self.new }
    {
        match word {
            Word::Refused => self.refused(),
            Word::Natural(n) => self.digits(n),
            Word::Signed(z) => self.signed(z),
        }
    }

    // Writes words, with a blank behind each but the last, and behind that the line's end.
    fn words(&mut self, all: &[Word])
        requires { Room (words (map word_text all.now)) self.old }
        ensures { Put (words (map word_text all.now)) self.old self.new }
    {
        let Some((last, others)) = all.split_last() else {
            return self.byte(b'\n');
        };
        for word in others {
            self.word(*word);
            self.byte(b' ');
        }
        self.word(*last);
        self.byte(b'\n');
    }
}

// The length 0 for no room, and no Option: the three calls below promise it (docs/SPECIFICATION.md).
// Writes a line of words to the front of `places` and gives its length, with its end; writes nothing and gives 0 where there are fewer than 128 places.
fn write_line(all: &[Word], places: &mut [u8]) -> usize
    requires { length (words (map word_text all.now)) ≤ 128 }
    ensures { Printed (words (map word_text all.now)) places.old places.new result }
{
    if places.len() < LINE_PLACES {
        return 0;
    }
    let mut line = Line { places, at: 0 };
    line.words(all);
    line.at
}

// The line of an accepted mesh's counts V, F, E, B.
// Returns: the length of the line, with its end; 0 where `line` has fewer than 128 places.
// Writes: the line to the front of `line`.
// Leaves alone: the places behind it; all places where there are fewer than 128.
// Refuses: nothing.
// Units: none, the numbers stand in the line as they are passed.
pub fn counts_line(v: usize, f: usize, e: usize, b: usize, line: &mut [u8]) -> usize
    ensures { Printed (counts_line v f e b) line.old line.new result }
{
    use Word::Natural;
    write_line(&[Natural(v), Natural(f), Natural(e), Natural(b)], line)
}

// The line of a sample: face, a, b, x, y, z.
// Returns, writes, leaves alone, refuses, units: as `counts_line`.
pub fn sample_line(f: usize, a: usize, b: usize, x: i32, y: i32, z: i32, line: &mut [u8]) -> usize
    ensures { Printed (sample_line f a b x y z) line.old line.new result }
{
    use Word::{Natural, Signed};
    write_line(
        &[
            Natural(f),
            Natural(a),
            Natural(b),
            Signed(x),
            Signed(y),
            Signed(z),
        ],
        line,
    )
}

// The line of a refusal.
// Returns, writes, leaves alone, refuses, units: as `counts_line`.
pub fn refusal_line(k: u8, line: &mut [u8]) -> usize
    ensures { Printed (refusal_line k) line.old line.new result }
{
    write_line(&[Word::Refused, Word::Natural(usize::from(k))], line)
}
