//! Crates that a policy calls private.
ghost use Rattle.std.specs.Prelude.{◌≡◌, [], false};
ghost use Rattle.policy_toml.specs.rows.Rows.{left_of_table, shaped_by};
ghost use Rattle.policy_parts.specs.Tables.{private_rows, private_in, private_of};

use deny_text::{ListOf, Spanned, Text, Texts};
use policy_toml::rows::{FromKeys, finish, or_empty, read_table};
use policy_toml::{DeserError, Deserialize, TableHelper, Value};
use std::alloc::Global;

/// Texts with their places.
pub type SpannedTexts = ListOf<Spanned<Text>>;

/// Which crates of the workspace are passed over.
#[derive(Drop)]
pub struct Private {
    /// Whether crates are passed over that are not published, or to private registries alone.
    pub ignore: bool,
    /// Addresses of registries. The crates that come from them are passed over.
    pub ignore_sources: SpannedTexts,
    /// Names of registries that are private.
    pub registries: Texts,
}

impl Private {
    /// No crate is passed over. It takes no memory.
    pub fn default(alloc: Global) -> Private
        ensures { result ≡ record { ignore = false; ignore_sources = []; registries = [] } }
    {
        Private {
            ignore: false,
            ignore_sources: SpannedTexts::new(alloc),
            registries: Texts::new(alloc),
        }
    }
}

impl<X> FromKeys<X> for Private {
    ghost shape = { λ _. shaped_by [] private_rows private_in };

    fn read_keys(
        alloc: Global,
        mut table: TableHelper<'_>,
        _context: &X,
    ) -> Result<Private, DeserError> {
        let ignore = table.optional(alloc, "ignore", &())?;
        let ignore_sources = table.optional(alloc, "ignore-sources", &())?;
        let registries = table.optional(alloc, "registries", &())?;
        let private = Private {
            ignore: ignore.unwrap_or(false),
            ignore_sources: or_empty(alloc, ignore_sources),
            registries: or_empty(alloc, registries),
        };
        finish(alloc, table, private)
    }
}

impl<X> Deserialize<X> for Private {
    ghost reads = { λ _ value. private_of value };

    ghost leaves = { λ _ value. left_of_table value };

    fn deserialize(
        alloc: Global,
        value: &mut Value<'_>,
        context: &X,
    ) -> Result<Private, DeserError> {
        read_table(alloc, value, context)
    }
}
