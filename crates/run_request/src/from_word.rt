//! What is read from one word.
//! Called by level, names, output and rows; any search that finds the first row of a name serves.
ghost use Rattle.std.specs.Prelude.{◌≡◌, ℕ, List, Option, map};
ghost use Rattle.run_request.specs.Named.{named_in, pair_of};

/// A value that one word of a command line stands for.
pub trait FromWord: Copy {
    ghost read: { List ℕ → Option Self };

    /// The value of that word; none where the word stands for none.
    fn from_word(word: &str) -> Option<Self>
        ensures { result ≡ read word.now };
}

/// A name, and the value that it names.
#[derive(Clone, Copy)]
pub(crate) struct NamedValue<T> {
    pub(crate) name: &'static str,
    pub(crate) value: T,
}

/// The value of that name in a table.
pub(crate) fn value_named<T: Copy>(names: &[NamedValue<T>], word: &str) -> Option<T>
    ensures { result ≡ named_in (map pair_of names.now) word.now }
{
    'names: for name in names {
        if name.name == word {
            return Some(name.value);
        }
    }
    None
}
