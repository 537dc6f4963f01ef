// The text of a report, in an array of its own, so that its whole length is known before a page is touched.
ghost use Rattle.std.specs.Prelude.{◌≡◌, ◌+◌, ◌%◌, ◌≤◌, ◌++◌, length};
ghost use Rattle.arrayvec.specs.ArrayString.{array_string_len};
ghost use Rattle.report.specs.Adding.{digits, sign_of, with_figure};
ghost use Rattle.report.specs.Lines.{line_of};

use crate::writing::LONGEST_REPORT;
use arrayvec::ArrayString;

pub type Text = ArrayString<LONGEST_REPORT>;

// What stands before the digits of a figure.
fn sign(z: i128) -> &'static str
    ensures value { result.now ≡ sign_of z }
    ensures few { length result.now ≤ 1 }
{
    if z < 0 { "-" } else { "" }
}

fn last_digit(n: u128) -> u8
    ensures { result ≡ 48 + n % 10 }
{
    b'0' + (n % 10) as u8
}

// The digits before the last one are those of a tenth of the number.
fn push_digits(text: &mut Text, n: u128)
    requires { array_string_len text.old + length (digits n) ≤ LONGEST_REPORT }
    ensures { text.new.bytes ≡ text.old.bytes ++ digits n }
{
    if n >= 10 {
        push_digits(text, n / 10);
    }
    text.push(char::from(last_digit(n)));
}

fn push_number(text: &mut Text, n: u128)
    requires { array_string_len text.old + 39 ≤ LONGEST_REPORT }
    ensures bytes { text.new.bytes ≡ text.old.bytes ++ digits n }
    ensures few { array_string_len text.new ≤ array_string_len text.old + 39 }
{
    push_digits(text, n);
}

// The size of the most negative figure is no `i128`, but it is a `u128`.
fn push_figure(text: &mut Text, z: i128)
    requires { array_string_len text.old + 40 ≤ LONGEST_REPORT }
    ensures bytes { text.new.bytes ≡ with_figure text.old.bytes z }
    ensures few { array_string_len text.new ≤ array_string_len text.old + 40 }
{
    text.push_str(sign(z));
    push_number(text, z.unsigned_abs());
}

// Puts a line behind the text: a name, `=`, a figure and a newline.
pub fn push_line(text: &mut Text, name: &str, figure: i128)
    requires { array_string_len text.old + length name.now + 42 ≤ LONGEST_REPORT }
    ensures bytes { text.new.bytes ≡ text.old.bytes ++ line_of name.now figure }
    ensures few { array_string_len text.new ≤ array_string_len text.old + length name.now + 42 }
{
    text.push_str(name);
    text.push_str("=");
    push_figure(text, figure);
    text.push_str("\n");
}
