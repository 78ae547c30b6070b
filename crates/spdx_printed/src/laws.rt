//! What holds of all printed expressions. These functions do nothing: their contracts are the laws.
ghost use Rattle.spdx_printed.specs.Laws.{PrintedIsRead};

/// What is printed is read as the same tree, with terms that print the same, over every catalogue that has the names.
pub fn printed_is_read()
    ensures { PrintedIsRead }
{}
