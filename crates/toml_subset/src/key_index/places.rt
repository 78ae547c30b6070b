//! Places of keys by their names.
ghost use Rattle.std.specs.Prelude.{◌≡◌, ◌+◌, ◌<◌, ◌^◌, [], ◌∷◌, ◌++◌, length, None, IfOk};
ghost use Rattle.std.specs.FinMap as finmap;
ghost use Rattle.std.specs.List.{position};
ghost use Rattle.std.specs.Str.{bytes_eq};
ghost use Rattle.toml_subset.specs.key_index.KeyPlaces.{first_key_place, HasPlacesFrom, IsIndex};

use crate::Key;
use deny_text::{Text, TextMap};
use std::alloc::{AllocError, Global};

/// Up to how many keys are looked through one after another.
pub(crate) const FEW: usize = 8;

/// The place of a name, looked for key by key.
pub(crate) fn scan(keys: &[Key<'_>], name: &str) -> Option<usize>
    ensures { result ≡ position (λ key. bytes_eq name.now key.name.text) keys.now }
{
    keys.iter().position(|key| name == key.name.as_str())
}

/// Notes the place of a key.
fn with_place(
    alloc: Global,
    places: TextMap<usize>,
    key: &Key<'_>,
    place: usize,
) -> Result<TextMap<usize>, AllocError>
    ensures { IfOk result (λ new. new ≡ finmap.insert places key.now.name.text place) }
{
    let mut places = places;
    let name = Text::copy(alloc, key.name.as_str())?;
    places.insert(name, place)?;
    Ok(places)
}

/// The places of all keys, counted from a first one on.
fn all_places(alloc: Global, keys: &[Key<'_>], first: usize) -> Result<TextMap<usize>, AllocError>
    requires fits { first + length keys.now < 2 ^ 64 }
    ensures { IfOk result (λ places. HasPlacesFrom first places keys.now) }
{
    let Some((key, rest)) = keys.split_first() else {
        return Ok(TextMap::new(alloc));
    };
    let further = all_places(alloc, rest, first + 1)?;
    let all = with_place(alloc, further, key, first)?;
    Ok(all)
}

/// The map for a further key: none while there are few.
pub(crate) fn noted(
    alloc: Global,
    keys: &[Key<'_>],
    places: TextMap<usize>,
    key: &Key<'_>,
) -> Result<TextMap<usize>, AllocError>
    requires index { IsIndex places keys.now }
    requires new { first_key_place key.now.name.text keys.now ≡ None }
    ensures { IfOk result (λ new. IsIndex new (keys.now ++ key.now ∷ [])) }
{
    if keys.len() < FEW {
        return Ok(places);
    }
    if keys.len() == FEW {
        let before = all_places(alloc, keys, 0)?;
        let first = with_place(alloc, before, key, FEW)?;
        return Ok(first);
    }
    let further = with_place(alloc, places, key, keys.len())?;
    Ok(further)
}
