// How a byte of a text stands in a line.
ghost use Rattle.std.specs.Prelude.{◌≡◌, ◌<◌, ◌/◌, ◌%◌, [], ◌∷◌, MatchOption};
ghost use Rattle.std.specs.List.{position};
ghost use Rattle.lines.specs.Line.{escapes as is_escaped, escape_byte, hex as hex_digit, unhex as hex_value, unescaped};

// The hexadecimal digit of a number below 16, in upper case, where the library's `from_digit` gives lower case.
fn digit(n: u8) -> u8
    requires { n < 16 }
    ensures { result ≡ hex_digit n }
{
    if n < 10 { b'0' + n } else { b'A' - 10 + n }
}

// Whether a byte of a text is written as a backslash and two digits.
fn escapes(byte: u8) -> bool
    ensures { result ≡ is_escaped byte }
{
    byte < 33 || byte > 126 || byte == b'\\'
}

// Where the first byte of a text stands that is escaped.
pub(crate) fn first_escaped(text: &[u8]) -> Option<usize>
    ensures { result ≡ position is_escaped text.now }
{
    text.iter().position(|b| escapes(*b))
}

// A backslash and the two digits of a byte.
pub(crate) fn escaped(byte: u8) -> [u8; 3]
    ensures { result ≡ 92 ∷ hex_digit (byte / 16) ∷ hex_digit (byte % 16) ∷ [] }
{
    [b'\\', digit(byte / 16), digit(byte % 16)]
}

// A backslash and the two digits of a byte that does not stand in a line as it is; none for one that does.
pub fn escape(byte: u8) -> Option<[u8; 3]>
    ensures { MatchOption result (escape_byte byte ≡ byte ∷ []) (λ escaped. escape_byte byte ≡ escaped) }
{
    if escapes(byte) {
        Some(escaped(byte))
    } else {
        None
    }
}

// The number of a hexadecimal digit in upper case; of any other byte, some number, as its definition has it, where the library's `to_digit` takes lower case too.
fn unhex(digit: u8) -> u8
    ensures { result ≡ hex_value digit }
{
    if digit >= b'A' {
        digit - (b'A' - 10)
    } else {
        digit.saturating_sub(b'0')
    }
}

// The byte that the two digits after a backslash seem to tell.
pub(crate) fn unescape(high: u8, low: u8) -> u8
    ensures { result ≡ unescaped high low }
{
    unhex(high).wrapping_mul(16).wrapping_add(unhex(low))
}
