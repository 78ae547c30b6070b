//! Files of rows. A line `[NAME]` begins a group, and each line behind it is a row: a text, ` => `, and what it comes to, or
//! ` =>` at the end of the line where that is nothing. Lines that are empty or begin with `#` are not read.
use crate::escapes::put_unescaped;
use crate::shown::AnswerText;
use crate::told::UnreadLine;
use std::alloc::Global;

/// A text, and what is wanted of it.
#[derive(Drop)]
pub struct Row {
    pub text: AnswerText,
    pub wanted: AnswerText,
}

/// The two sides of a row.
fn sides(line: &str) -> Option<(&str, &str)> {
    match line.split_once(" => ") {
        Some(sides) => Some(sides),
        None => match line.strip_suffix(" =>") {
            Some(text) => Some((text, "")),
            None => None,
        },
    }
}

fn put_sides(row: &mut Row, alloc: Global, line: &str) -> Result<(), UnreadLine> {
    let Some((text, wanted)) = sides(line) else {
        return Err(UnreadLine::Line("a row without ` => `"));
    };
    put_unescaped(alloc, &mut row.text, text)?;
    put_unescaped(alloc, &mut row.wanted, wanted)?;
    if row.text.is_whole() && row.wanted.is_whole() {
        Ok(())
    } else {
        Err(UnreadLine::Memory)
    }
}

/// The row that a line is.
pub fn row_of(alloc: Global, line: &str) -> Result<Row, UnreadLine> {
    let mut row = Row {
        text: AnswerText::new(alloc),
        wanted: AnswerText::new(alloc),
    };
    match put_sides(&mut row, alloc, line) {
        Ok(()) => Ok(row),
        Err(why) => Err(why),
    }
}
