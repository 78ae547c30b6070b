//! Files that a clarification or an exception names.
ghost use Rattle.std.specs.Prelude.{◌≡◌, IfOk};
ghost use Rattle.policy_toml.specs.rows.Rows.{left_of_table};
ghost use Rattle.policy_parts.specs.Values.{file_source_at, file_source_of};

use deny_text::{ListOf, PathBuf, Spanned, Text};
use policy_toml::rows::{FromKeys, finish, read_table};
use policy_toml::{DeserError, Deserialize, TableHelper, Value};
use std::alloc::{AllocError, Global};

/// A licence file, and the hash of its normal form.
#[derive(Drop)]
#[derive_where(PartialEq, Eq)]
pub struct FileSource {
    /// The file, from the crate's folder.
    pub path: Spanned<PathBuf>,
    pub hash: u32,
}

/// Files in order.
pub type FileSources = ListOf<FileSource>;

fn path_of(alloc: Global, text: &Spanned<Text>) -> Result<Spanned<PathBuf>, AllocError>
    ensures { IfOk result (λ path. path ≡ text.now) }
{
    let value = PathBuf::copy(alloc, text.value.as_str())?;
    let span = text.span;
    Ok(Spanned { value, span })
}

impl<X> FromKeys<X> for FileSource {
    ghost shape = { λ _. file_source_at };

    fn read_keys(
        alloc: Global,
        mut table: TableHelper<'_>,
        _context: &X,
    ) -> Result<FileSource, DeserError> {
        let path: Spanned<Text> = table.required(alloc, "path", &())?;
        match table.required(alloc, "hash", &()) {
            Ok(hash) => {
                let path = path_of(alloc, &path)?;
                finish(alloc, table, FileSource { path, hash })
            }
            Err(error) => Err(error),
        }
    }
}

impl<X> Deserialize<X> for FileSource {
    ghost reads = { λ _ value. file_source_of value };

    ghost leaves = { λ _ value. left_of_table value };

    fn deserialize(
        alloc: Global,
        value: &mut Value<'_>,
        context: &X,
    ) -> Result<FileSource, DeserError> {
        read_table(alloc, value, context)
    }
}
