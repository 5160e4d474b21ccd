// Answers as lines of text.
ghost use Rattle.std.specs.Prelude.{◌≡◌, ◌<◌, ◌≤◌, ◌*◌, false, length, take, Some};
ghost use Rattle.std.specs.Fmt.{digit_glyph};
ghost use Rattle.stream.specs.Lines.{hexadecimal, image_text, text};

use crate::answers::{Answer, Line};
use crate::image::ImageBytes;
use std::fmt;

// The most digits of an image: two for each byte that there is room for.
const DIGITS: usize = 640;

// A lowercase hexadecimal digit.
fn digit(number: u8) -> u8
    requires { number < 16 }
    ensures { result ≡ digit_glyph false number }
{
    if number < 10 {
        b'0' + number
    } else {
        b'a' + (number - 10)
    }
}

// Writes two digits for each byte to the front of a text.
fn write_digits(bytes: &[u8], text: &mut [u8])
    requires { 2 * length bytes.now ≤ length text.old }
    ensures digits { take (2 * length bytes.now) text.new ≡ hexadecimal bytes.now }
    ensures size { length text.new ≡ length text.old }
{
    for (place, &byte) in bytes.iter().enumerate() {
        text[2 * place] = digit(byte / 16);
        text[2 * place + 1] = digit(byte % 16);
    }
}

/// Each byte as two lowercase hexadecimal digits.
impl fmt::Display for ImageBytes {
    ghost output = { λ image. Some (image_text image) };

    fn fmt<W: fmt::Write>(&self, f: &mut fmt::Formatter<W>) -> fmt::Result {
        // In one piece: `{:02x}` goes through the formatter for each byte, and prints an image at half the speed.
        let mut text = [0; DIGITS];
        write_digits(self.bytes(), &mut text);
        match str::from_utf8(&text[..2 * self.size]) {
            Ok(digits) => f.write_str(digits),
            Err(_) => Err(fmt::Error),
        }
    }
}

/// The count, and `ok`, `done`, `spent` or `no` with what belongs to it.
impl fmt::Display for Line {
    ghost output = { λ l. Some (text l) };

    fn fmt<W: fmt::Write>(&self, f: &mut fmt::Formatter<W>) -> fmt::Result {
        let count = self.count;
        match self.answer {
            Answer::Number(n) => write!(f, "{count} ok {n}"),
            Answer::Image(image) => write!(f, "{count} ok {image}"),
            Answer::Done(turns) => write!(f, "{count} done {turns}"),
            Answer::Spent(turns) => write!(f, "{count} spent {turns}"),
            Answer::Refused(refusal) => write!(f, "{count} no {refusal}"),
        }
    }
}
