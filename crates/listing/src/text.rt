// Reading a line of the list from left to right; `None` where it cannot be read.
ghost use Rattle.std.specs.Prelude.{◌≡◌, ◌≢◌, ℕ, ◌+◌, ◌<◌, ◌≤◌, ◌∷◌, IfSome, IfNone, MatchOption, drop, length, slice_index, take};
ghost use Rattle.listing.specs.Digits.{digit_of};
ghost use Rattle.listing.specs.Reading.{LeadsTo};

// Where the byte b first stands.
pub fn find(text: &[u8], b: u8) -> Option<usize>
    ensures bounds { IfSome result (λ at. at < length text.now) }
    ensures before { IfSome result (λ at. (k : ℕ) → k < at → slice_index text.now k ≢ b) }
    ensures found { IfSome result (λ at. slice_index text.now at ≡ b) }
    ensures absent { IfNone result ((k : ℕ) → k < length text.now → slice_index text.now k ≢ b) }
{
    text.iter().position(|x| *x == b)
}

// The first line of a text, up to a line feed, 10, or the end, and what follows that.
pub fn split_line(text: &[u8]) -> (&[u8], &[u8])
    ensures line { result.0.now ≡ take (length result.0.now) text.now }
    ensures inside { (k : ℕ) → k < length result.0.now → slice_index text.now k ≢ 10 }
    ensures end { length result.0.now < length text.now → slice_index text.now (length result.0.now) ≡ 10 }
    ensures rest { result.1.now ≡ drop (length result.0.now + 1) text.now }
{
    match find(text, b'\n') {
        Some(end) => {
            let (line, rest) = text.split_at(end);
            (line, &rest[1..])
        }
        None => (text, &[]),
    }
}

// The value of a hexadecimal digit, in capitals.
pub fn digit_value(b: u8) -> Option<u32>
    ensures value { result ≡ digit_of b }
    ensures small { IfSome result (λ digit. digit < 16) }
{
    match b {
        b'0'..=b'9' => Some(b as u32 - 48),
        b'A'..=b'F' => Some(b as u32 - 55),
        _ => None,
    }
}

// A place and what is to stand there, `place=value`.
#[derive(Clone, Copy)]
pub struct Item {
    pub place: u32,
    pub value: u32,
}

// What is left of a line.
#[derive(Drop)]
pub struct Cursor<'a> {
    pub rest: &'a [u8],
}

#[tactic(auto, using(crate::specs::Laws::Reading::leading))]
impl<'a> Cursor<'a> {
    pub fn new(line: &'a [u8]) -> Self
        ensures { result.rest.now ≡ line.now }
    {
        Cursor { rest: line }
    }

    // To where the byte b first stands.
    pub fn skip_to(&mut self, b: u8) -> Option<()>
        ensures { LeadsTo self.old.rest.now self.new.rest.now }
    {
        let at = find(self.rest, b)?;
        let (_, rest) = self.rest.split_at(at);
        self.rest = rest;
        Some(())
    }

    // Past the byte b, which must stand there.
    pub fn pass(&mut self, b: u8) -> Option<()>
        ensures cases { MatchOption result (self.new.rest.now ≡ self.old.rest.now) (λ _. self.old.rest.now ≡ b ∷ self.new.rest.now) }
        ensures leads { LeadsTo self.old.rest.now self.new.rest.now }
    {
        let (first, rest) = self.rest.split_first()?;
        if *first != b {
            return None;
        }
        self.rest = rest;
        Some(())
    }

    fn digit(&mut self) -> Option<u32>
        ensures small { IfSome result (λ digit. digit < 16) }
        ensures leads { LeadsTo self.old.rest.now self.new.rest.now }
        ensures shorter { IfSome result (λ _. length self.new.rest.now < length self.old.rest.now) }
    {
        let (first, rest) = self.rest.split_first()?;
        let digit = digit_value(*first)?;
        self.rest = rest;
        Some(digit)
    }

    // Hexadecimal digits, one to eight with zeros before them.
    pub fn number(&mut self) -> Option<u32>
        ensures { LeadsTo self.old.rest.now self.new.rest.now }
    {
        let mut value = self.digit()?;
        while value < 0x1000_0000
            && let Some(digit) = self.digit()
        {
            value = 16 * value + digit;
        }
        Some(value)
    }

    // A blank, then a number.
    pub fn field(&mut self) -> Option<u32>
        ensures { LeadsTo self.old.rest.now self.new.rest.now }
    {
        self.pass(b' ')?;
        self.number()
    }

    pub fn item(&mut self) -> Option<Item>
        ensures { LeadsTo self.old.rest.now self.new.rest.now }
    {
        let place = self.number()?;
        self.pass(b'=')?;
        let value = self.number()?;
        Some(Item { place, value })
    }

    // Whether ` ;` stands there, which ends a case.
    pub fn has_end(&self) -> bool {
        self.rest.starts_with(b" ;")
    }
}
