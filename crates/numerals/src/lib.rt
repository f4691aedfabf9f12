// Numbers as lines write them: decimal, with no sign and no leading zero.
#![tactic(auto)]

ghost use Rattle.std.specs.Prelude.{◌≡◌, ℕ, ◌^◌, ◌<◌, decimal, MatchOption, ◌≢◌};

// The number that the bytes write; none unless they are just the digits of a number of 64 bits.
pub fn number(text: &[u8]) -> Option<u64>
    ensures { MatchOption result ((n : ℕ) → n < 2 ^ 64 → text.now ≢ decimal n) (λ n. text.now ≡ decimal n) }
{
    let first = *text.first()?;
    // `parse` would take a plus sign and leading zeros.
    if first == b'+' {
        return None;
    }
    if first == b'0' && text.len() > 1 {
        return None;
    }
    std::str::from_utf8(text).ok()?.parse().ok()
}
