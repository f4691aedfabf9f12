// The lines that name keys, `card=` with a number and `code=` with presses, and routes as text.
ghost use Rattle.std.specs.Prelude.{Some};
ghost use Rattle.sizing.specs.Lines.{Names, route_text};

use keys::routes::{DEPTH, chunk};
use keys::{Card, Code};
use numerals::number;
use panel::Refusal;
use std::fmt;

// A key as a line names it.
#[derive(Clone, Copy)]
pub enum KeyLine {
    OfCard(Card),
    OfCode(Code),
}

// A line names a key if it has one of the two forms.
impl<'a> TryFrom<&'a [u8]> for KeyLine {
    type Error = Refusal;

    ghost try_from_gives = { λ line named. Names line.now named };

    fn try_from(line: &'a [u8]) -> Result<KeyLine, Refusal> {
        let (name, text) = line.split_at_checked(5).ok_or(Refusal::LineMalformed)?;
        match name {
            b"card=" => {
                let n = number(text).ok_or(Refusal::LineMalformed)?;
                Ok(KeyLine::OfCard(Card(n)))
            }
            b"code=" => Ok(KeyLine::OfCode(Code::try_from(text)?)),
            _ => Err(Refusal::LineMalformed),
        }
    }
}

// The way of a hash from the root on, printed as its seven chunks.
#[derive(Clone, Copy)]
pub struct Route(pub u32);

impl fmt::Display for Route {
    ghost output = { λ r. Some (route_text r.0) };

    fn fmt<W: fmt::Write>(&self, f: &mut fmt::Formatter<W>) -> fmt::Result {
        write!(f, "{}", chunk(self.0, 0))?;
        for index in 1..DEPTH {
            write!(f, ".{}", chunk(self.0, index))?;
        }
        Ok(())
    }
}
