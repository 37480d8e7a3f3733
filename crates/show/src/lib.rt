// Lines of the runs: put on a page, and sent to standard output in one write.
#![tactic(auto)]

ghost use Rattle.print.specs.Buffers.{Put};
ghost use Rattle.show.specs.Text.{tally_text};

use print::Page;
use rules::Tally;
use streams::STDOUT_FILENO;

// What is counted of a task: late jobs, ended jobs, greatest response.
pub fn tally(page: &mut Page, tally: Tally)
    ensures { Put page.old.bytes page.old.len (tally_text tally) page.new.bytes page.new.len }
{
    page.two(tally.late as u64, tally.ended as u64);
    page.byte(b' ');
    page.number(tally.response);
}

// The line that is put, with its newline.
pub fn send(page: &mut Page) -> bool {
    page.byte(b'\n');
    page.send(STDOUT_FILENO)
}

// A line of words.
pub fn say(text: &[u8]) -> bool {
    let mut page = Page::new();
    page.words(text);
    send(&mut page)
}

// A heading, with an empty line above it.
pub fn heading(text: &[u8]) -> bool {
    let mut page = Page::new();
    page.words(b"\n== ");
    page.words(text);
    send(&mut page)
}

// What stands above the lines of calls.
pub fn header() -> bool {
    let mut page = Page::new();
    page.header_line();
    page.send(STDOUT_FILENO)
}

// ---- parts of a line, sent as they are

pub fn put(text: &[u8]) -> bool {
    io::write_all(STDOUT_FILENO, text)
}

// How many bytes of a buffer are shown at most.
const MOST_SHOWN: usize = 40;

// A byte in hexadecimal, with a space in front. (By hand: it is sent as it is, with no page for `write!`.)
fn hex(b: u8) {
    let digits = b"0123456789ABCDEF";
    put(&[b' ', digits[b as usize / 16], digits[b as usize % 16]]);
}

// What a buffer holds: its first bytes.
pub fn bytes(bytes: &[u8]) {
    for b in bytes.iter().take(MOST_SHOWN) {
        hex(*b);
    }
    if MOST_SHOWN < bytes.len() {
        put(b" ..");
    }
}
