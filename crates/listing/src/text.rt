// A text that is appended to, with numbers in decimal.

// The length that no listing of a volume exceeds.
pub(crate) const MAX_LISTING: usize = 2214;

// The most digits of a number of 64 bits.
const MAX_DIGITS: usize = 20;

// A text of at most MAX_LISTING bytes, the first `len` of the buffer: the project uses no heap. What is appended must fit: that is asked of both, and an
// invariant of the length alone would not say it.
#[derive(Drop)]
pub(crate) struct Text {
    bytes: [u8; MAX_LISTING],
    len: usize,
}

impl Text {
    ghost use Rattle.std.specs.Prelude.{[], ◌≡◌, ◌+◌, ◌≤◌, ◌++◌, length};
    ghost use Rattle.listing.specs.Decimal.{decimal, max_digits};
    ghost use Rattle.listing.specs.Listing.{field, line, max_field, max_line, max_listing};
    ghost use Rattle.listing.specs.Text.{text_of};

    // The empty text.
    pub(crate) fn new() -> Text
        ensures text { text_of result ≡ [] }
        ensures len { result.len ≡ 0 }
    {
        Text {
            bytes: [0; MAX_LISTING],
            len: 0,
        }
    }

    // Its bytes.
    pub(crate) fn as_bytes(&self) -> &[u8]
        requires { self.now.len ≤ max_listing }
        ensures { result.now ≡ text_of self.now }
    {
        &self.bytes[..self.len]
    }

    // Appends bytes.
    pub(crate) fn push(&mut self, s: &[u8])
        requires { self.old.len + length s.now ≤ max_listing }
        ensures text { text_of self.new ≡ text_of self.old ++ s.now }
        ensures len { self.new.len ≡ self.old.len + length s.now }
    {
        let end = self.len + s.len();
        self.bytes[self.len..end].copy_from_slice(s);
        self.len = end;
    }

    // Appends a number. Its digits are made from the last to the first.
    fn push_number(&mut self, x: u64)
        requires { self.old.len + max_digits ≤ max_listing }
        ensures text { text_of self.new ≡ text_of self.old ++ decimal x }
        ensures bound { self.new.len ≤ self.old.len + max_digits }
    {
        let mut digits = [0u8; MAX_DIGITS];
        let mut start = MAX_DIGITS - 1;
        let mut rest = x;
        // No `for`: how many digits a number has is seen at its end. No `write!`: std's contract says nothing of when it fails.
        while 10 <= rest {
            digits[start] = b'0' + (rest % 10) as u8;
            start -= 1;
            rest /= 10;
        }
        digits[start] = b'0' + rest as u8;
        self.push(&digits[start..]);
    }

    // Appends a tab and a number.
    pub(crate) fn push_field(&mut self, x: u64)
        requires { self.old.len + max_field ≤ max_listing }
        ensures text { text_of self.new ≡ text_of self.old ++ field x }
        ensures bound { self.new.len ≤ self.old.len + max_field }
    {
        self.push(b"\t");
        self.push_number(x);
    }

    // Appends a line: its word, three fields and a line feed.
    pub(crate) fn push_line(&mut self, word: &[u8], x: u64, y: u64, z: u64)
        requires { self.old.len + max_line word.now ≤ max_listing }
        ensures text { text_of self.new ≡ text_of self.old ++ line word.now x y z }
        ensures bound { self.new.len ≤ self.old.len + max_line word.now }
    {
        self.push(word);
        self.push_field(x);
        self.push_field(y);
        self.push_field(z);
        self.push(b"\n");
    }
}
