//! What came of a call, and why it was refused.
ghost use Rattle.std.specs.Prelude.{◌≡◌, ◌<◌};
ghost use Rattle.egl_explain.specs.Judged.{code_at};

use crate::headers::name_with;
use crate::pages::{Ink, Page};
use crate::row_words::row_words;
use crate::source_lines::put_bar;
use driver_core::Refusals;
use egl_calls::{Call, EglKind, Kind, Outcome, OwnKind, Reply};
use egl_names::name_of;
use refusal_rows::MOST_ROWS;

/// The code of the error of the row at a place, where that row holds.
pub fn code_at(refusals: &Refusals, place: usize) -> Option<u32>
    requires { place < 16 }
    ensures { result ≡ code_at refusals.now place }
{
    match refusals {
        Refusals::Egl(holding) => match holding.errors[place] {
            Some(error) => Some(error.code()),
            None => None,
        },
        Refusals::Gl(holding) => match holding.errors[place] {
            Some(error) => Some(error.code()),
            None => None,
        },
        Refusals::Unjudged => None,
    }
}

/// The name of an error.
fn error_name(code: u32) -> &'static str {
    match name_of(i64::from(code)) {
        Some(name) => name,
        None => "an error",
    }
}

/// A row that holds: its error, and its condition in words. The row that decides is marked.
fn put_row(page: &mut Page, decides: bool, code: u32, words: Option<&str>) {
    put_bar(page);
    if decides {
        page.begin(Ink::Fault);
        page.put("> ");
    } else {
        page.begin(Ink::Pale);
        page.put("  ");
    }
    page.put(error_name(code));
    if let Some(words) = words {
        page.put(": ");
        page.put(words);
    }
    page.end();
    page.end_line();
}

/// Each row that holds, of which the first decides.
fn put_rows(page: &mut Page, kind: Kind, refusals: &Refusals) {
    let mut decides = true;
    'rows: for place in 0..MOST_ROWS {
        if let Some(code) = code_at(refusals, place) {
            put_row(page, decides, code, row_words(kind, place));
            decides = false;
        }
    }
}

/// The first number that is that of a name in the headers of EGL or OpenGL ES, which isn't the name's code.
fn put_header_numbers(page: &mut Page, numbers: &[i64]) {
    'each: for number in numbers {
        if let Some(name) = name_with(*number) {
            put_bar(page);
            page.put("  ");
            page.put_decimal((*number).unsigned_abs());
            page.put(" is the number of ");
            page.put_in(Ink::Answer, name);
            page.put(" in the headers; a trace writes the name");
            return page.end_line();
        }
    }
}

/// The numbers of a reply's list, joined by commas.
fn put_list(page: &mut Page, numbers: &[i64]) {
    page.put(" [");
    'each: for (k, number) in numbers.iter().enumerate() {
        if k > 0 {
            page.put(",");
        }
        page.put_number(*number);
    }
    page.put("]");
}

/// The bytes of a reply where they are at most so many, else how many there are.
fn put_reply_bytes(page: &mut Page, bytes: &[u8], most: usize) {
    page.put(" ");
    if bytes.len() <= most {
        page.put_digits(bytes);
    } else {
        page.put("(");
        page.put_decimal(bytes.len() as u64);
        page.put(" bytes)");
    }
}

/// What was answered: the value, and the list and the bytes where there are any.
fn put_reply(page: &mut Page, word: &str, reply: &Reply, most: usize) {
    put_bar(page);
    page.put("  ");
    page.put_in(Ink::Answer, word);
    page.put(" ");
    page.put_number(reply.value);
    if reply.list.len() > 0 {
        put_list(page, reply.list.as_slice());
    }
    if reply.bytes.len() > 0 {
        put_reply_bytes(page, reply.bytes.as_slice(), most);
    }
    page.end_line();
}

/// A call that isn't refused and not done.
fn put_state(page: &mut Page, text: &str) {
    put_bar(page);
    page.put("  ");
    page.put_in(Ink::Answer, text);
    page.end_line();
}

/// How a call came out, with at most so many bytes, and where it was refused each row that holds.
pub fn put_outcome(page: &mut Page, call: &Call, reply: &Reply, refusals: &Refusals, most: usize) {
    match reply.outcome {
        Outcome::Done => put_reply(page, "ok", reply, most),
        Outcome::Egl(_) | Outcome::Gl(_) => {
            put_rows(page, call.kind, refusals);
            put_header_numbers(page, &call.args);
            put_header_numbers(page, call.list.as_slice());
        }
        Outcome::Waiting => put_state(page, "waits for the sync"),
        Outcome::InWait => put_state(page, "the thread waits for a sync already"),
        Outcome::NoWait => put_state(page, "the thread doesn't wait for a sync"),
    }
}

/// Whether a census stands behind calls of a kind.
pub fn shows_census(kind: Kind) -> bool {
    matches!(
        kind,
        Kind::Own(OwnKind::Census) | Kind::Egl(EglKind::Terminate)
    )
}
