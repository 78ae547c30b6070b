//! Reading the items of a text up to their first fault.
ghost use Rattle.std.specs.Prelude.{◌≡◌, OnOk};
ghost use Rattle.spdx_terms.specs.Faults.{opened_after};
ghost use Rattle.spdx_core.specs.Answers.{StepAnswers, TextAnswer};

use crate::reader::Reader;
use crate::stack::Stack;
use deny_text::Span;
use spdx_terms::catalog::Catalog;
use spdx_terms::fault::{empty_fault, end_fault, item_fault};
use spdx_terms::item::{Item, ItemKind, WantedItem};
use spdx_terms::items::next_item;
use spdx_terms::{ExprError, ParseMode};
use std::alloc::{AllocError, Global};

/// What was read, what is wanted behind it, and where the open parentheses are.
#[derive(Drop)]
pub struct Progress {
    pub reader: Reader,
    pub wanted: WantedItem,
    pub opened: Stack<Span>,
}

/// The open parentheses behind an item.
fn note_parens(opened: &mut Stack<Span>, what: &ItemKind, span: Span) -> Result<(), AllocError>
    ensures { OnOk result (opened.new ≡ opened_after opened.old what.now span) }
{
    match what {
        ItemKind::Open => opened.push(span),
        ItemKind::Close => {
            let _last = opened.pop();
            Ok(())
        }
        _ => Ok(()),
    }
}

impl Progress {
    fn step(&mut self, item: Item, mode: ParseMode) -> Result<(), ExprError>
        ensures { StepAnswers mode self.old item self.new result }
    {
        let is_open = self.opened.top().is_some();
        if let Some(fault) = item_fault(&item, mode, self.wanted, is_open) {
            return Err(ExprError::Parse(fault));
        }
        self.wanted = self.wanted.after(&item.what);
        note_parens(&mut self.opened, &item.what, item.span)?;
        let Item { what, span } = item;
        self.reader.take(what, span)?;
        Ok(())
    }
}

/// Reads the items of a text one by one, or tells the first fault among them or at their end.
pub fn read_text<C: Catalog>(
    alloc: Global,
    text: &str,
    mode: ParseMode,
    catalog: &C,
) -> Result<Reader, ExprError>
    ensures { TextAnswer mode (C.lists catalog.now) text.now result }
{
    let mut progress = Progress {
        reader: Reader::new(alloc),
        wanted: WantedItem::Term,
        opened: Stack::new(alloc),
    };
    let mut place = 0;
    'items: while let Some(item) = next_item(alloc, text, place, progress.wanted, mode, catalog)? {
        place = item.span.end;
        progress.step(item, mode)?;
    }
    if place == 0 {
        return Err(ExprError::Parse(empty_fault(text.len())));
    }
    match end_fault(text.len(), progress.wanted, progress.opened.top()) {
        Some(fault) => Err(ExprError::Parse(fault)),
        None => Ok(progress.reader),
    }
}
