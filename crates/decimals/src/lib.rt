// Lines of words and numbers, as the program prints them: a text that grows at the front of a lent buffer, which has to be long
// enough. What stands beyond the text stays as it was.
#![tactic(auto)]

ghost use Rattle.std.specs.Prelude.{◌≡◌, [], ◌∷◌, ◌++◌, ◌+◌, ◌≤◌, length, drop};
ghost use Rattle.market.specs.Program.{digits_on, decimal, spaced, line};
ghost use Rattle.decimals.specs.Digits.{digit_count, last_digits};
ghost use Rattle.decimals.specs.Written.{HasRoom, Adds, label_text, most_label, most_digits, most_decimal, most_figures};

// No number of 64 bits is longer, its sign beside it.
pub const MOST_DECIMAL: usize = 21;

// With the space before it.
pub const MOST_FIGURE: usize = MOST_DECIMAL + 1;

// ---- digits
// By hand: `write!` would take an `impl fmt::Write` of the text, and answer a `fmt::Result` where there is room for every number.

// How many digits n has.
fn digit_count(n: u64) -> usize
    ensures { result ≡ digit_count most_digits n }
{
    n.checked_ilog10().unwrap_or(0) as usize + 1
}

// The last `count` digits of n, from the last to the first.
fn write_digits(n: u64, count: usize, out: &mut [u8])
    requires { count ≤ length out.old }
    ensures { out.new ≡ last_digits count n ++ drop count out.old }
{
    let mut rest = n;
    for i in (0..count).rev() {
        out[i] = b'0' + (rest % 10) as u8;
        rest /= 10;
    }
}

// ---- texts

// What a line begins with.
#[derive(Clone, Copy, Drop)]
pub enum Label<'a> {
    Word(&'a [u8]),
    Number(i64),
}

// A text at the front of a lent buffer, and how long it is. That the rest is long enough stands in each contract, since a ghost
// field beside a `&mut` is not covered.
#[derive(Drop)]
pub struct Text<'a> {
    pub buffer: &'a mut [u8],
    pub length: usize,
}

impl<'a> Text<'a> {
    pub fn new(buffer: &'a mut [u8]) -> Text<'a>
        ensures same_reference { result.buffer.ghost_name ≡ buffer.entry.ghost_name }
        ensures buffer { result.buffer.now ≡ buffer.old }
        ensures empty { result.length ≡ 0 }
    {
        Text { buffer, length: 0 }
    }

    fn byte(&mut self, byte: u8)
        requires { HasRoom 1 self.old }
        ensures { Adds (byte ∷ []) self.old self.new }
    {
        self.buffer[self.length] = byte;
        self.length += 1;
    }

    fn word(&mut self, word: &[u8])
        requires { HasRoom (length word.now) self.old }
        ensures { Adds word.now self.old self.new }
    {
        let end = self.length + word.len();
        self.buffer[self.length..end].copy_from_slice(word);
        self.length = end;
    }

    fn magnitude(&mut self, n: u64)
        requires { HasRoom most_digits self.old }
        ensures { Adds (digits_on most_digits n []) self.old self.new }
    {
        let count = digit_count(n);
        write_digits(n, count, &mut self.buffer[self.length..]);
        self.length += count;
    }

    fn number(&mut self, v: i64)
        requires { HasRoom most_decimal self.old }
        ensures { Adds (decimal v) self.old self.new }
    {
        if v < 0 {
            self.byte(b'-');
        }
        self.magnitude(v.unsigned_abs());
    }

    // A space, then a number.
    fn figure(&mut self, v: i64)
        requires { HasRoom (1 + most_decimal) self.old }
        ensures { Adds (32 ∷ decimal v) self.old self.new }
    {
        self.byte(b' ');
        self.number(v);
    }

    // A space before each number, and a line feed.
    fn figures(&mut self, vs: &[i64])
        requires { HasRoom (most_figures (length vs.now)) self.old }
        ensures { Adds (spaced vs.now) self.old self.new }
    {
        for v in vs {
            self.figure(*v);
        }
        self.byte(b'\n');
    }

    fn label(&mut self, label: Label<'_>)
        requires { HasRoom (most_label label) self.old }
        ensures { Adds (label_text label.entry) self.old self.new }
    {
        match label {
            Label::Word(word) => self.word(word),
            Label::Number(number) => self.number(number),
        }
    }

    // A word or a number, figures, a line feed.
    pub fn line(&mut self, label: Label<'_>, vs: &[i64])
        requires { HasRoom (most_label label + most_figures (length vs.now)) self.old }
        ensures { Adds (line (label_text label.entry) vs.now) self.old self.new }
    {
        self.label(label);
        self.figures(vs);
    }
}
