// Reading a code, its presses, and its place among the key kinds.
ghost use Rattle.std.specs.Prelude.{◌≡◌, ℕ};
ghost use Rattle.std.proofs.Common.{rules};
ghost use Rattle.std.specs.Cmp.Rules.{comparing};
ghost use Rattle.std.specs.Str.{bytes_eq};
ghost use Rattle.keys.specs.Codes.{presses_of, in_presses, code_read};
ghost use Rattle.keys.specs.Hashes.{fnv1a};
ghost use Rattle.keys.specs.Presses.{press_byte};
ghost use Rattle.keys.specs.Fnv.{bytes_lawful};

use crate::keypad::Code;
use crate::kind::Key;
use panel::Refusal;

// Bytes are a code if they are 1 to 8 presses.
impl<'a> TryFrom<&'a [u8]> for Code {
    type Error = Refusal;

    ghost try_from_gives = { λ bytes read. in_presses read ≡ code_read bytes.now };

    #[tactic(auto, using(crate::proofs::Keypresses::of_codes))]
    fn try_from(bytes: &'a [u8]) -> Result<Code, Refusal> {
        let count = bytes.len();
        if count < 1 || count > 8 {
            return Err(Refusal::CodeMisread);
        }
        let mut stored = [0u8; 8];
        // By index: zipped with its places the line would be no plainer, and the fault planted here, all presses in the first
        // place, needs an index.
        for (i, byte) in bytes.iter().enumerate() {
            stored[i] = press(char::from(*byte)).ok_or(Refusal::CodeMisread)?;
        }
        Ok(Code {
            bytes: stored,
            count,
        })
    }
}

impl Code {
    // The presses, as their ASCII bytes.
    pub fn presses(&self) -> &[u8]
        ensures { result.now ≡ presses_of self.now }
    {
        &self.bytes[0..self.count]
    }
}

// The byte of a press: a digit, a star or a hash sign. A function and no type: a press is no more than its byte.
pub fn press(c: char) -> Option<u8>
    ensures { result ≡ press_byte c }
{
    match c {
        '0'..='9' | '*' | '#' => Some(c as u8),
        _ => None,
    }
}

// The 32-bit FNV-1a hash of bytes.
pub fn fnv_1a(bytes: &[u8]) -> u32
    ensures { result ≡ fnv1a bytes.now }
{
    bytes.iter().fold(
        0x811C_9DC5,
        |h: u32, byte| (h ^ u32::from(*byte)).wrapping_mul(0x0100_0193),
    )
}

// Codes are equal if they are the same presses in the same order. Not derived: for that the bytes past the presses would have to
// be pinned by the type, wherever a code is made.
impl PartialEq for Code {
    ghost eq = { λ a b. bytes_eq (presses_of a) (presses_of b) };

    ghost laws = { Prim.search (comparing, rules) };

    fn eq(&self, other: &Code) -> bool {
        self.presses() == other.presses()
    }
}

impl Eq for Code {
    ghost laws = { Prim.search (comparing, rules) };
}

impl Key for Code {
    ghost hash = { λ a. fnv1a (presses_of a) };

    ghost lawful = { bytes_lawful presses_of };

    fn hash(&self) -> u32 {
        fnv_1a(self.presses())
    }
}
