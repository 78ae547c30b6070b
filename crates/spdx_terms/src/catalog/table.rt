//! This project's own catalogue.
ghost use Rattle.std.specs.Prelude.{◌≡◌, ◌↔◌, IsTrue, IfSome, IfNone, Contains, map};
ghost use Rattle.std.specs.List.{list_any};
ghost use Rattle.std.specs.Str.{bytes_eq};
ghost use Rattle.spdx_terms.specs.catalog.Catalog.{entry_of, IsLongestImprecise, BeginsNone, BeginsText};
ghost use Rattle.spdx_terms.specs.catalog.NameOrder.{name_order, AreInOrder, named_entries};
ghost use Rattle.spdx_terms.specs.catalog.Words.{ends_word};
ghost use Rattle.spdx_terms.specs.catalog.Table.{table_lists, table_is_catalog};

use crate::catalog::catalog::{Catalog, Imprecise, LicenseEntry};
use std::cmp::Ordering;

/// A licence of the table.
struct TableLicense {
    name: &'static str,
    entry: LicenseEntry,
}

/// A known way to write a licence that is no licence name, in lower case.
struct Meaning {
    text: &'static str,
    name: &'static str,
}

/// The marks of a licence that no version stands for and no mark of the GNU licences is on.
const PLAIN: LicenseEntry = LicenseEntry {
    family: 0,
    rank: 0,
    later: false,
    deprecated: false,
    gnu: false,
};

/// The marks of a name of a GNU family that does not say whether later versions count.
const GNU_BARE: LicenseEntry = LicenseEntry {
    family: 0,
    rank: 0,
    later: false,
    deprecated: true,
    gnu: true,
};

/// The marks of a GNU licence of one version.
const GNU_ONLY: LicenseEntry = LicenseEntry {
    family: 0,
    rank: 0,
    later: false,
    deprecated: false,
    gnu: true,
};

/// The marks of a GNU licence and its later versions.
const GNU_LATER: LicenseEntry = LicenseEntry {
    family: 0,
    rank: 0,
    later: true,
    deprecated: false,
    gnu: true,
};

/// The licences of the table: beside each name its family, its rank and its marks.
macro_rules! licenses {
    ($($name:literal: $family:literal, $rank:literal, $marks:ident;)*) => {
        [
            $(TableLicense {
                name: $name,
                entry: LicenseEntry {
                    family: $family,
                    rank: $rank,
                    ..$marks
                },
            },)*
        ]
    };
}

/// In the order in which names are looked up: by length, and those of one length in byte order.
static LICENCES: [TableLicense; 84] = licenses! {
    "FTL": 14, 10, PLAIN;
    "ICU": 16, 10, PLAIN;
    "IJG": 17, 10, PLAIN;
    "ISC": 18, 10, PLAIN;
    "MIT": 19, 10, PLAIN;
    "Vim": 34, 10, PLAIN;
    "W3C": 35, 10, PLAIN;
    "X11": 37, 10, PLAIN;
    "0BSD": 0, 10, PLAIN;
    "HPND": 15, 10, PLAIN;
    "NCSA": 23, 10, PLAIN;
    "Ruby": 29, 10, PLAIN;
    "Zlib": 38, 10, PLAIN;
    "curl": 13, 10, PLAIN;
    "MIT-0": 20, 10, PLAIN;
    "Pixar": 25, 10, PLAIN;
    "WTFPL": 36, 10, PLAIN;
    "BSL-1.0": 8, 10, PLAIN;
    "CC0-1.0": 11, 10, PLAIN;
    "EPL-1.0": 45, 10, PLAIN;
    "EPL-2.0": 45, 20, PLAIN;
    "GPL-1.0": 51, 10, GNU_BARE;
    "GPL-2.0": 51, 20, GNU_BARE;
    "GPL-3.0": 51, 30, GNU_BARE;
    "MPL-1.0": 47, 10, PLAIN;
    "MPL-1.1": 47, 11, PLAIN;
    "MPL-2.0": 47, 20, PLAIN;
    "OFL-1.0": 48, 10, PLAIN;
    "OFL-1.1": 48, 11, PLAIN;
    "OpenSSL": 24, 10, PLAIN;
    "PSF-2.0": 27, 10, PLAIN;
    "UPL-1.0": 33, 10, PLAIN;
    "AGPL-3.0": 49, 30, GNU_BARE;
    "BUSL-1.1": 9, 10, PLAIN;
    "CDDL-1.0": 44, 10, PLAIN;
    "CDDL-1.1": 44, 11, PLAIN;
    "EUPL-1.1": 46, 11, PLAIN;
    "EUPL-1.2": 46, 12, PLAIN;
    "GFDL-1.3": 50, 13, GNU_BARE;
    "LGPL-2.0": 52, 20, GNU_BARE;
    "LGPL-2.1": 52, 21, GNU_BARE;
    "LGPL-3.0": 52, 30, GNU_BARE;
    "CC-BY-3.0": 42, 30, PLAIN;
    "CC-BY-4.0": 42, 40, PLAIN;
    "Unlicense": 32, 10, PLAIN;
    "Apache-1.0": 40, 10, PLAIN;
    "Apache-1.1": 40, 11, PLAIN;
    "Apache-2.0": 40, 20, PLAIN;
    "PostgreSQL": 26, 10, PLAIN;
    "Python-2.0": 28, 10, PLAIN;
    "Unicode-3.0": 30, 10, PLAIN;
    "bzip2-1.0.6": 10, 10, PLAIN;
    "Artistic-1.0": 41, 10, PLAIN;
    "Artistic-2.0": 41, 20, PLAIN;
    "BSD-1-Clause": 2, 10, PLAIN;
    "BSD-2-Clause": 3, 10, PLAIN;
    "BSD-3-Clause": 5, 10, PLAIN;
    "BSD-4-Clause": 7, 10, PLAIN;
    "CC-BY-SA-3.0": 43, 30, PLAIN;
    "CC-BY-SA-4.0": 43, 40, PLAIN;
    "GPL-1.0-only": 51, 10, GNU_ONLY;
    "GPL-2.0-only": 51, 20, GNU_ONLY;
    "GPL-3.0-only": 51, 30, GNU_ONLY;
    "MulanPSL-2.0": 22, 10, PLAIN;
    "AGPL-3.0-only": 49, 30, GNU_ONLY;
    "BlueOak-1.0.0": 1, 10, PLAIN;
    "GFDL-1.3-only": 50, 13, GNU_ONLY;
    "LGPL-2.0-only": 52, 20, GNU_ONLY;
    "LGPL-2.1-only": 52, 21, GNU_ONLY;
    "LGPL-3.0-only": 52, 30, GNU_ONLY;
    "GPL-1.0-or-later": 51, 10, GNU_LATER;
    "GPL-2.0-or-later": 51, 20, GNU_LATER;
    "GPL-3.0-or-later": 51, 30, GNU_LATER;
    "Unicode-DFS-2016": 31, 10, PLAIN;
    "AGPL-3.0-or-later": 49, 30, GNU_LATER;
    "GFDL-1.3-or-later": 50, 13, GNU_LATER;
    "LGPL-2.0-or-later": 52, 20, GNU_LATER;
    "LGPL-2.1-or-later": 52, 21, GNU_LATER;
    "LGPL-3.0-or-later": 52, 30, GNU_LATER;
    "BSD-3-Clause-Clear": 6, 10, PLAIN;
    "BSD-2-Clause-Patent": 4, 10, PLAIN;
    "CDLA-Permissive-2.0": 12, 10, PLAIN;
    "zlib-acknowledgement": 39, 10, PLAIN;
    "MPL-2.0-no-copyleft-exception": 21, 10, PLAIN;
};

static EXCEPTIONS: [&str; 10] = [
    "Autoconf-exception-3.0",
    "Bison-exception-2.2",
    "Classpath-exception-2.0",
    "Font-exception-2.0",
    "GCC-exception-3.1",
    "Linux-syscall-note",
    "LLVM-exception",
    "OCaml-LGPL-linking-exception",
    "openvpn-openssl-exception",
    "Swift-exception",
];

/// The imprecise texts of the table, after the licence that they mean.
macro_rules! meanings {
    ($($name:literal: $($text:literal),*;)*) => {
        [$($(Meaning { text: $text, name: $name },)*)*]
    };
}

static IMPRECISE: [Meaning; 33] = meanings! {
    "Apache-2.0": "apache", "apache2", "apache 2", "apache 2.0", "apache-2", "apache-2.0",
        "apache license", "apache license 2.0";
    "BSD-2-Clause": "bsd 2-clause", "bsd-2", "simplified bsd";
    "BSD-3-Clause": "bsd 3-clause", "bsd-3", "new bsd";
    "BSL-1.0": "boost";
    "CC0-1.0": "cc0";
    "GPL-2.0-only": "gplv2", "gpl v2", "gpl-2";
    "GPL-3.0-only": "gplv3", "gpl v3", "gpl-3";
    "LGPL-3.0-only": "lgplv3", "lgpl v3";
    "ISC": "isc license";
    "MIT": "mit", "mit license", "the mit license";
    "MPL-2.0": "mpl", "mpl 2.0", "mpl-2", "mpl-2.0";
    "Zlib": "zlib license";
};

/// The catalogue of the licences, exceptions and imprecise texts that this project knows.
#[derive(Clone, Copy, Debug)]
pub struct Table;

/// The order in which names are looked up.
fn name_order(name: &[u8], other: &[u8]) -> Ordering
    ensures { result ≡ name_order name.now other.now }
{
    match name.len().cmp(&other.len()) {
        Ordering::Less => Ordering::Less,
        Ordering::Equal => name.cmp(other),
        Ordering::Greater => Ordering::Greater,
    }
}

/// What is known of a name among licences, which are in the order of their names.
fn entry_among(licenses: &[TableLicense], name: &[u8]) -> Option<LicenseEntry>
    requires { AreInOrder (named_entries licenses.now) }
    ensures { result ≡ entry_of (named_entries licenses.now) name.now }
{
    let (before, rest) = licenses.split_at(licenses.len() / 2);
    match rest.split_first() {
        None => None,
        Some((middle, behind)) => match name_order(name, middle.name.as_bytes()) {
            Ordering::Less => entry_among(before, name),
            Ordering::Equal => Some(middle.entry),
            Ordering::Greater => entry_among(behind, name),
        },
    }
}

/// Whether a name is one of these.
fn is_listed(names: &[&str], name: &str) -> bool
    ensures { result ≡ list_any (λ listed. bytes_eq name.now listed.now) names.now }
{
    names.iter().any(|listed| name == *listed)
}

/// Whether nothing is here that goes on a word.
fn ends_word(rest: &[u8]) -> bool
    ensures { result ≡ ends_word rest.now }
{
    match rest.first() {
        None => true,
        Some(byte) => !(byte.is_ascii_alphanumeric() || matches!(*byte, b'-' | b'.' | b':')),
    }
}

/// Whether an imprecise text begins a text.
fn begins(imprecise: &str, text: &str) -> bool
    ensures { IsTrue result ↔ BeginsText imprecise.now text.now }
{
    let imprecise = imprecise.as_bytes();
    let text = text.as_bytes();
    if text.len() < imprecise.len() {
        return false;
    }
    let (start, rest) = text.split_at(imprecise.len());
    imprecise.eq_ignore_ascii_case(start) && ends_word(rest)
}

/// The longest of the texts that begins a text.
fn longest(meanings: &[Meaning], text: &str) -> Option<Imprecise<'static>>
    ensures found { IfSome result (λ found. IsLongestImprecise
        (map (λ one. (one.text.now, one.name.now)) meanings.now) text.now found.len found.name.now) }
    ensures none { IfNone result
        (BeginsNone (map (λ one. (one.text.now, one.name.now)) meanings.now) text.now) }
{
    match meanings.split_first() {
        None => None,
        Some((first, rest)) => {
            let behind = longest(rest, text);
            if !begins(first.text, text) {
                return behind;
            }
            match behind {
                Some(found) if first.text.len() <= found.len => Some(found),
                _ => Some(Imprecise {
                    len: first.text.len(),
                    name: first.name,
                }),
            }
        }
    }
}

impl Catalog for Table {
    ghost lists = { λ _. table_lists };

    ghost lawful = { λ _. table_is_catalog };

    fn license(&self, name: &str) -> Option<LicenseEntry> {
        entry_among(&LICENCES, name.as_bytes())
    }

    fn exception(&self, name: &str) -> bool {
        is_listed(&EXCEPTIONS, name)
    }

    fn imprecise(&self, text: &str) -> Option<Imprecise<'_>> {
        let found = longest(&IMPRECISE, text)?;
        Some(Imprecise {
            len: found.len,
            name: found.name,
        })
    }
}
