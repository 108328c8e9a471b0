// Writing an anchor.
ghost use Rattle.std.specs.Prelude.{◌≡◌, ◌+◌, ◌%◌, ◌<◌};
ghost use Rattle.serial.specs.Numbering.{name};
ghost use Rattle.walk.specs.Names.{name_in};

use crate::name::AnchorName;

// The last digit of a number.
fn last_digit(n: u32) -> u8
    ensures { result ≡ 48 + n % 10 }
{
    b'0' + (n % 10) as u8
}

// `id` and the number with at least three digits. Two literals, which show where each digit stands; a loop over the digits would be no plainer.
pub fn generate_anchor(number: u32) -> AnchorName
    requires { number < 10000 }
    ensures { name_in result ≡ name number }
{
    let hundreds = last_digit(number / 100);
    let tens = last_digit(number / 10);
    let ones = last_digit(number);
    if number < 1000 {
        return AnchorName {
            bytes: [b'i', b'd', hundreds, tens, ones, 0],
            len: 5,
        };
    }
    let thousands = last_digit(number / 1000);
    AnchorName {
        bytes: [b'i', b'd', thousands, hundreds, tens, ones],
        len: 6,
    }
}
