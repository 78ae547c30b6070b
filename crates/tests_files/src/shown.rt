//! What is written and let go piece by piece. A text keeps its own want of memory, so that those who write it have no exit for that;
//! and a value is let go where its type is a parameter, so that nothing is proved there of what it is made of.
use deny_text::Span;
use std::alloc::{AllocError, Global};
use std::fmt::Display;

/// Lets a value go.
pub fn let_go<T: Drop>(_value: T) {}

/// How a value is written in an answer. `R` is a type of the room that writes it, so that a room can say it of another crate's type.
pub trait Shown<R> {
    fn put(&self, out: &mut AnswerText);
}

/// A text, and whether there was memory for all of it, and what was to be tried could be.
#[derive(Drop)]
pub struct AnswerText {
    text: String,
    is_whole: bool,
    is_tried: bool,
}

impl AnswerText {
    pub fn new(alloc: Global) -> AnswerText {
        AnswerText {
            text: String::new(alloc),
            is_whole: true,
            is_tried: true,
        }
    }

    /// Appends a piece.
    pub fn put(&mut self, piece: &str) {
        self.is_whole = self.text.push_str(piece).is_ok() & self.is_whole;
    }

    /// What `write!` calls: `write!(out, "{start} {end}");`.
    pub fn write_fmt<D: Display + Drop>(&mut self, value: D) {
        self.is_whole = self.text.write(value).is_ok() & self.is_whole;
    }

    /// Appends a character.
    pub fn push(&mut self, letter: char) {
        self.is_whole = self.text.push(letter).is_ok() & self.is_whole;
    }

    /// Begins again.
    pub fn clear(&mut self) {
        self.text.clear();
    }

    /// Appends another text, of which nothing may be lost.
    pub fn put_whole(&mut self, other: &AnswerText) {
        self.put(other.text.as_str());
        self.is_whole = self.is_whole & other.is_whole;
    }

    /// Puts each item, with a text before each but the first.
    pub fn each<R, T: Shown<R>>(&mut self, between: &str, items: &[T]) {
        let mut front = "";
        for item in items {
            self.put(front);
            item.put(self);
            front = between;
        }
    }

    /// Puts a text before each item of a list in brackets but the first, which is behind the opening one.
    pub fn between(&mut self, between: &str) {
        let last = self.text.as_str().as_bytes().last().copied();
        if !matches!(last, Some(b'[' | b'{')) {
            self.put(between);
        }
    }

    /// Puts places as they are in a text, and what is before them.
    pub fn put_span(&mut self, before: &str, span: Span) {
        let Span { start, end } = span;
        write!(self, "{before}{start}..{end}");
    }

    /// Puts what was made as it is printed, and lets it go.
    pub fn printed<D: Display + Drop, E: Drop>(&mut self, made: Result<D, E>) {
        match made {
            Ok(value) => self.write_fmt(value),
            Err(_) => self.want_memory(),
        }
    }

    /// Puts what was made, or why it was not, and lets it go.
    pub fn made<R, T: Shown<R> + Drop, E: Shown<R> + Drop>(&mut self, made: Result<T, E>) {
        match &made {
            Ok(value) => value.put(self),
            Err(error) => error.put(self),
        }
    }

    /// The same of what may be nothing, which is written so.
    pub fn made_or<R, T: Shown<R> + Drop, E: Shown<R> + Drop>(
        &mut self,
        made: Result<Option<T>, E>,
        nothing: &str,
    ) {
        match &made {
            Ok(Some(value)) => value.put(self),
            Ok(None) => self.put(nothing),
            Err(error) => error.put(self),
        }
    }

    /// Puts what a row or a case was read as, and lets it go; without it, neither can be tried.
    pub fn tried<R, T: Shown<R> + Drop>(&mut self, made: Option<T>) {
        match &made {
            Some(value) => value.put(self),
            None => self.cant_be_tried(),
        }
    }

    /// Lets go what was made, and notes where there was no memory for it.
    pub fn needs<T: Drop, E: Drop>(&mut self, made: Result<T, E>) {
        self.is_whole = made.is_ok() & self.is_whole;
    }

    /// Notes that there was no memory for something that was to be shown.
    pub fn want_memory(&mut self) {
        self.is_whole = false;
    }

    /// Notes where something that is asked can't be.
    pub fn tries(&mut self, can_be: bool) {
        self.is_tried = can_be & self.is_tried;
    }

    /// Notes that what is asked can't be: a file that can't be put, or a word that can't be read.
    pub fn cant_be_tried(&mut self) {
        self.is_tried = false;
    }

    /// Whether there was memory for all of it.
    pub fn is_whole(&self) -> bool {
        self.is_whole
    }

    /// Whether what was to be tried could be.
    pub fn is_tried(&self) -> bool {
        self.is_tried
    }

    /// The text, as far as there was memory for it.
    pub fn text(&self) -> &str {
        self.text.as_str()
    }

    /// The whole text.
    pub fn into_text(self) -> Result<String, AllocError> {
        if self.is_whole {
            Ok(self.text)
        } else {
            Err(AllocError)
        }
    }
}

impl<R> Shown<R> for AllocError {
    fn put(&self, out: &mut AnswerText) {
        out.want_memory();
    }
}
