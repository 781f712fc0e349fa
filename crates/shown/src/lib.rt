// How the programs show octets: as hexadecimal digits, or as the text that they are.
#![tactic(auto)]

use std::fmt;

// Two hexadecimal digits for each octet, a space before each.
#[derive(Clone, Copy)]
pub struct Hex<'a>(pub &'a [u8]);

impl fmt::Display for Hex<'_> {
    fn fmt<W: fmt::Write>(&self, f: &mut fmt::Formatter<W>) -> fmt::Result {
        for octet in self.0 {
            write!(f, " {octet:02x}")?;
        }
        Ok(())
    }
}

// A character for each octet.
#[derive(Clone, Copy)]
pub struct Text<'a>(pub &'a [u8]);

impl fmt::Display for Text<'_> {
    fn fmt<W: fmt::Write>(&self, f: &mut fmt::Formatter<W>) -> fmt::Result {
        for octet in self.0 {
            write!(f, "{}", *octet as char)?;
        }
        Ok(())
    }
}
