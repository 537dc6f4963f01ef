// The report of an accepted clearing, on a page that the caller lends.
ghost use Rattle.std.specs.Prelude.{◌≡◌, ◌≤◌, ◌++◌, length, drop};
ghost use Rattle.report.specs.Lines.{lines_of};
ghost use Rattle.report.specs.Writing.{put_answer, put_page, written, page_after};

use crate::text::{Text, push_line};
use books::answers::Cleared;

// No report is longer: six names of 33 bytes together, and with each a figure of 40 bytes, `=` and a
// newline.
pub const LONGEST_REPORT: usize = 285;

fn text_of(cleared: Cleared) -> Text
    ensures { result.bytes ≡ lines_of cleared }
{
    let mut text = Text::new();
    push_line(&mut text, "clearing", i128::from(cleared.clearing));
    push_line(&mut text, "net", cleared.net);
    push_line(&mut text, "reserve", cleared.reserve);
    push_line(&mut text, "worst", i128::from(cleared.worst));
    push_line(&mut text, "gap", cleared.gap);
    push_line(&mut text, "weights", i128::from(cleared.weights));
    text
}

fn copy_to(text: &[u8], page: &mut [u8])
    requires { length text.now ≤ length page.old }
    ensures { page.new ≡ text.now ++ drop (length text.now) page.old }
{
    let end = text.len();
    page[0..end].copy_from_slice(text);
}

fn put(text: &[u8], page: &mut [u8]) -> Option<usize>
    ensures answer { result ≡ put_answer text.now page.old }
    ensures after { page.new ≡ put_page text.now page.old }
{
    if page.len() < text.len() {
        return None;
    }
    copy_to(text, page);
    Some(text.len())
}

// Writes the report to the front of the page, and says how many bytes it has. A page that is too short
// for all of it is left as it is.
pub fn write_report(cleared: Cleared, page: &mut [u8]) -> Option<usize>
    ensures answer { result ≡ written cleared page.old }
    ensures page { page.new ≡ page_after cleared page.old }
{
    let text = text_of(cleared);
    put(text.as_str().as_bytes(), page)
}
