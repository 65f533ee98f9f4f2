// Text as a person reads it.
use std::fmt;

// A half of a pair that stands alone is left out; no sheet has one.
#[derive(Drop)]
pub struct Letters<'a> {
    pub text: &'a [u16],
}

impl fmt::Display for Letters<'_> {
    fn fmt<W: fmt::Write>(&self, f: &mut fmt::Formatter<W>) -> fmt::Result {
        for letter in char::decode_utf16(self.text.iter().copied()) {
            if let Ok(c) = letter {
                write!(f, "{c}")?;
            }
        }
        Ok(())
    }
}
