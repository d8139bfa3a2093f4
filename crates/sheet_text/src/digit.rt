// Hexadecimal digits, lower case.
ghost use Rattle.std.specs.Prelude.{◌≡◌};
ghost use Rattle.sheet_text.specs.inner.Digit.{digit_of};

// What a byte is worth as a digit; 255 for no digit, and no Option: its promise, `digit_of`, says 255.
// The last four bits of the codes are 0 to 9 for 0 to 9, and 1 to 6 for a to f.
#[tactic(auto, unfolding(crate::specs::inner::Digit::digit_of))]
pub fn digit_value(b: u8) -> u8
    ensures { result ≡ digit_of b }
{
    if b < b'0' {
        return 255;
    }
    if b < b'a' {
        if b'9' < b {
            return 255;
        }
        return b % 16;
    }
    if b'f' < b {
        return 255;
    }
    b % 16 + 9
}
