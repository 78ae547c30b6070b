//! What a program answers to rows and cases: text in, text out.
use crate::case::Case;
use crate::compared::Comparison;
use crate::shown::AnswerText;
use std::alloc::Global;

/// What a row or a case asks.
#[derive(Clone, Copy)]
pub struct Asked<'a> {
    pub alloc: Global,
    /// The group of a row, or the key of a case that wants something.
    pub group: &'a str,
    /// The text of a row; of a case nothing.
    pub text: &'a str,
    /// The entries of a case; of a row none.
    pub case: Case<'a>,
}

/// Whether something was asked.
#[derive(Clone, Copy, Debug, PartialEq, Eq)]
pub enum Told {
    /// It is answered.
    Answer,
    /// The key says what is put in.
    Given,
    /// There is no such group or key.
    NoSuchGroup,
}

/// What answers the rows and cases of some files.
pub trait Room {
    /// Puts what a row or a case comes to. A room whose files have no rows, and whose cases are run, answers nothing itself.
    fn answer(&self, _asked: &Asked<'_>, _out: &mut AnswerText) -> Told {
        Told::NoSuchGroup
    }

    /// Runs a case, and compares what it came to, which is the room that answers (`Comparison::compare_ran`). Returns whether cases
    /// are run; where they are not, a case is asked as it is.
    fn compare_runs(&self, _compared: &mut Comparison<'_>, _case: &Case<'_>) -> bool {
        false
    }

    /// How many bytes there were room for of what a key wants: as much of it is compared.
    fn room_for(&self, _key: &str) -> usize {
        usize::MAX
    }

    /// Puts which of a case's runs it is, a line for each thing that tells it from others.
    fn put_run(&self, _out: &mut AnswerText) {}
}
