//! Which addresses a source matches.
ghost use Rattle.std.specs.Prelude.{◌≡◌, ◌↔◌, IsTrue};
ghost use Rattle.graph_core.specs.source.Matching.{IsAt, IsCratesIo, PathMatches, AddressMatches, Matches};

use crate::source::source::Source;
use url::{Host, Url};

fn is_at(domain: &str, path: &str, address: &Url) -> bool
    ensures { IsTrue result ↔ IsAt domain.now path.now address.now }
{
    address.host() == Some(Host::Domain(domain)) && address.path() == path
}

fn is_crates_io(address: &Url) -> bool
    ensures { IsTrue result ↔ IsCratesIo address.now }
{
    is_at("github.com", "/rust-lang/crates.io-index", address)
        || is_at("index.crates.io", "/", address)
}

/// Whether one path is the other, or where it need not be exact a prefix of it.
fn has_path(exact: bool, own: &str, path: &str) -> bool
    ensures { IsTrue result ↔ PathMatches exact own.now path.now }
{
    if exact {
        own == path
    } else {
        own.as_bytes().starts_with(path.as_bytes())
    }
}

fn address_matches(exact: bool, own: &Url, address: &Url) -> bool
    ensures { IsTrue result ↔ AddressMatches exact own.now address.now }
{
    own.host() == address.host() && has_path(exact, own.path(), address.path())
}

/// Whether a source matches an address: crates.io by the host and the path of its two addresses, another
/// source by equal hosts and, where it is to be exact, equal paths, else an address whose path is a prefix of
/// the source's.
pub fn matches_address(source: &Source, address: &Url, exact: bool) -> bool
    ensures { IsTrue result ↔ Matches exact source.now address.now }
{
    match source {
        Source::CratesIo(_) => is_crates_io(address),
        Source::Git { url, .. } | Source::Registry(url) | Source::Sparse(url) => {
            address_matches(exact, url, address)
        }
    }
}
