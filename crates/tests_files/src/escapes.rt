//! Texts in which a backslash and what is behind it are one character, or a piece that is repeated.
use crate::shown::AnswerText;
use crate::told::UnreadLine;
use std::alloc::Global;

/// What a character is read as.
#[derive(Clone, Copy)]
enum State {
    Plain,
    /// Behind a backslash.
    Escape,
    /// Behind `\u`.
    Open,
    /// In the digits of `\u{..}`.
    Code,
    /// Behind `\*`.
    OpenPiece,
    /// In the count of `\*{..:`.
    Count,
    /// In the piece, which is repeated so often.
    Piece(u32),
}

/// A text that is read up to some character.
#[derive(Drop)]
struct Reading {
    state: State,
    /// The digits or the piece that was read of an escape.
    held: AnswerText,
}

/// The character that a letter behind a backslash stands for.
fn escaped(letter: char) -> Option<char> {
    match letter {
        't' => Some('\t'),
        'n' => Some('\n'),
        'r' => Some('\r'),
        'v' => Some('\u{b}'),
        's' => Some(' '),
        '0' => Some('\0'),
        '\\' | '[' | '#' | '=' => Some(letter),
        _ => None,
    }
}

/// The character with this number, in hex.
fn character(digits: &str) -> Option<char> {
    let code = u32::from_str_radix(digits, 16).ok()?;
    char::from_u32(code)
}

impl Reading {
    fn plain(&mut self, out: &mut AnswerText, letter: char) {
        if letter == '\\' {
            self.state = State::Escape;
        } else {
            out.push(letter);
        }
    }

    fn escape(&mut self, out: &mut AnswerText, letter: char) -> Result<(), UnreadLine> {
        self.held.clear();
        self.state = match letter {
            'u' => State::Open,
            '*' => State::OpenPiece,
            _ => State::Plain,
        };
        match escaped(letter) {
            Some(letter) => out.push(letter),
            None if letter == 'u' || letter == '*' => {}
            None => return Err(UnreadLine::Line("an escape that is not known")),
        }
        Ok(())
    }

    /// Goes on where a brace opens.
    fn open(&mut self, letter: char, next: State) -> Result<(), UnreadLine> {
        if letter != '{' {
            return Err(UnreadLine::Line("an escape without its brace"));
        }
        self.state = next;
        Ok(())
    }

    fn code(&mut self, out: &mut AnswerText, letter: char) -> Result<(), UnreadLine> {
        if letter != '}' {
            self.held.push(letter);
            return Ok(());
        }
        self.state = State::Plain;
        match character(self.held.text()) {
            Some(letter) => out.push(letter),
            None => return Err(UnreadLine::Line("an escape whose number is none")),
        }
        Ok(())
    }

    fn count(&mut self, letter: char) -> Result<(), UnreadLine> {
        if letter != ':' {
            self.held.push(letter);
            return Ok(());
        }
        let count = self.held.text().parse::<u32>().ok();
        self.held.clear();
        match count {
            Some(count) => self.state = State::Piece(count),
            None => return Err(UnreadLine::Line("a count that is no number")),
        }
        Ok(())
    }

    fn piece(&mut self, out: &mut AnswerText, letter: char, count: u32) {
        if letter != '}' {
            return self.held.push(letter);
        }
        self.state = State::Plain;
        for _ in 0..count {
            out.put_whole(&self.held);
        }
    }

    fn take(&mut self, out: &mut AnswerText, letter: char) -> Result<(), UnreadLine> {
        match self.state {
            State::Plain => self.plain(out, letter),
            State::Escape => self.escape(out, letter)?,
            State::Open => self.open(letter, State::Code)?,
            State::Code => self.code(out, letter)?,
            State::OpenPiece => self.open(letter, State::Count)?,
            State::Count => self.count(letter)?,
            State::Piece(count) => self.piece(out, letter, count),
        }
        Ok(())
    }

    fn take_all(&mut self, out: &mut AnswerText, text: &str) -> Result<(), UnreadLine> {
        for letter in text.chars() {
            self.take(out, letter)?;
        }
        match self.state {
            State::Plain => Ok(()),
            _ => Err(UnreadLine::Line("an escape that does not end")),
        }
    }
}

/// Puts a text without its escapes: `\t`, `\n`, `\r`, `\v`, `\0`, `\s` for a blank, `\\`, `\[`, `\#`, `\=`,
/// `\u{85}` for the character of that number in hex, and `\*{3:ab}` for a piece that is there so often. A
/// piece has no escapes.
pub fn put_unescaped(alloc: Global, out: &mut AnswerText, text: &str) -> Result<(), UnreadLine> {
    let mut reading = Reading {
        state: State::Plain,
        held: AnswerText::new(alloc),
    };
    reading.take_all(out, text)
}
