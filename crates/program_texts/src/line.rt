//! A line that is said, in a buffer of fixed size.
ghost use Rattle.std.specs.Prelude.{◌≡◌, ◌≤◌, ◌+◌, ◌++◌, length, decimal};
ghost use Rattle.arrayvec.specs.ArrayString.{array_string_len};

use arrayvec::ArrayString;
use itoa::Buffer;

/// The most bytes of a line.
pub const LINE_LIMIT: usize = 256;

/// A line of standard error.
pub type Line = ArrayString<LINE_LIMIT>;

/// Puts words of at most 20 bytes at the end of a line, and a number after them.
pub(crate) fn push_number(line: &mut Line, words: &str, number: u64)
    requires room { array_string_len line.old + 40 ≤ LINE_LIMIT }
    requires short { length words.now ≤ 20 }
    ensures bytes { line.new.bytes ≡ line.old.bytes ++ words.now ++ decimal number }
    ensures len { array_string_len line.new ≤ array_string_len line.old + 40 }
{
    let mut digits = Buffer::new();
    line.push_str(words);
    line.push_str(digits.format(number));
}
