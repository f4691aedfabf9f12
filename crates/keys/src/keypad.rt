// Codes: keys that are pressed on a keypad.
ghost use Rattle.std.specs.Prelude.{◌≡◌, ℕ, ◌≤◌, true, take};
ghost use Rattle.keys.specs.Presses.{is_code};

pub mod reading;

// 1 to 8 presses, as their ASCII bytes; the bytes past `count` mean nothing. An array and no Vec: a key is copied, and the
// memory that it lies in is fixed.
#[derive(Clone, Copy)]
pub struct Code {
    bytes: [u8; 8],
    count: usize,
    ghost proper: { (count ≤ 8) × (is_code (take count bytes) ≡ true) },
}
