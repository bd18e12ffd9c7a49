//! The columns of a line of recorded answers, and the escapes in them.
use std::alloc::{AllocError, Global};

/// A recorded answer.
///
/// A line has three columns, separated by tabs: the question, the text and the answer. The text and the answer are
/// escaped. Two more columns name a difference from the Rust crate: the kind of the answer that is right here, and that
/// answer.
#[derive(Drop)]
pub struct Recorded<'a> {
    /// The question, or `refused`.
    pub asked: &'a str,
    /// The text.
    pub text: String,
    /// The kind of the answer that is right here: the question, or the kind of a named difference.
    pub kind: &'a str,
    /// The answer that is right here: the crate's, or that of a named difference.
    pub answer: String,
}

/// Returns the recorded answer of a line. Returns `None` if the line has neither three nor five columns, if a column
/// has a wrong escape, or if a named difference is equal to the crate's answer.
///
/// The columns `fault`, `(]` and `1:1` are the fault of `(]`. The columns `print`, `'''`, `'''`, `fault` and `1:0` are
/// what the crate prints for `'''`, and the fault that is right here.
pub fn read_line<'a>(alloc: Global, line: &'a str) -> Result<Option<Recorded<'a>>, AllocError> {
    let mut columns = line.split('\t');
    let (Some(asked), Some(text), Some(answer)) = (columns.next(), columns.next(), columns.next())
    else {
        return Ok(None);
    };
    let (Some(text), Some(answer)) = (unescape(alloc, text)?, unescape(alloc, answer)?) else {
        return Ok(None);
    };
    let (kind, answer) = match (columns.next(), columns.next(), columns.next()) {
        (None, _, _) => (asked, answer),
        (Some(kind), Some(wanted), None) => match unescape(alloc, wanted)? {
            Some(wanted) if kind != asked || wanted != answer => (kind, wanted),
            _ => return Ok(None),
        },
        _ => return Ok(None),
    };
    Ok(Some(Recorded {
        asked,
        text,
        kind,
        answer,
    }))
}

/// How much of an escape was read.
#[derive(Clone, Copy)]
enum State {
    /// No escape is open.
    Plain,
    /// After the backslash.
    Backslash,
    /// After `\u`.
    Brace,
    /// After the brace, with the number so far.
    Number(u32),
}

/// Returns the text of a column, or `None` if an escape is none of `\n`, `\r`, `\t`, `\\` and `\u{..}`, or isn't
/// closed. `a\tb\u{e9}` is `a`, a tab, `b` and U+00E9.
fn unescape(alloc: Global, column: &str) -> Result<Option<String>, AllocError> {
    let mut text = String::new(alloc);
    let mut state = State::Plain;
    for c in column.chars() {
        let Some((next, read)) = step(state, c) else {
            return Ok(None);
        };
        state = next;
        if let Some(c) = read {
            text.push(c)?;
        }
    }
    Ok(match state {
        State::Plain => Some(text),
        _ => None,
    })
}

/// Returns the state after a character, and the character that is complete with it. Returns `None` at a wrong escape.
fn step(state: State, c: char) -> Option<(State, Option<char>)> {
    match (state, c) {
        (State::Plain, '\\') => Some((State::Backslash, None)),
        (State::Plain, c) | (State::Backslash, c @ '\\') => Some((State::Plain, Some(c))),
        (State::Backslash, 'n') => Some((State::Plain, Some('\n'))),
        (State::Backslash, 'r') => Some((State::Plain, Some('\r'))),
        (State::Backslash, 't') => Some((State::Plain, Some('\t'))),
        (State::Backslash, 'u') => Some((State::Brace, None)),
        (State::Brace, '{') => Some((State::Number(0), None)),
        (State::Number(number), '}') => Some((State::Plain, Some(char::from_u32(number)?))),
        (State::Number(number), c) => {
            let number = number.checked_mul(16)?.checked_add(c.to_digit(16)?)?;
            Some((State::Number(number), None))
        }
        (State::Backslash | State::Brace, _) => None,
    }
}
