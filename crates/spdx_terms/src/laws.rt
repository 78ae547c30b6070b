//! What holds of all terms and licensees. These functions do nothing: their contracts are the laws.
ghost use Rattle.spdx_terms.specs.Laws.{SatisfiesOwnFamily, PrintedAlikeIsEqual, ItemsRise, ItemsCover};
ghost use Rattle.spdx_terms.specs.Laws.{SlashChangesNothing};

/// A licensee satisfies terms of its own family alone.
pub fn satisfies_own_family()
    ensures { SatisfiesOwnFamily }
{}

/// Licensees that print the same are equal, and so neither is less.
pub fn printed_alike_is_equal()
    ensures { PrintedAlikeIsEqual }
{}

/// The items of a text follow one another in it, are not empty, and begin and end on character borders.
pub fn items_rise()
    ensures { ItemsRise }
{}

/// The items of a text cover it: before them, between them and behind them is white space alone.
pub fn items_cover()
    ensures { ItemsCover }
{}

/// Where no slash is in a text, the slash as an operator changes no item.
pub fn slash_changes_nothing()
    ensures { SlashChangesNothing }
{}
