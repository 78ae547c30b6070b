//! What the lines of a catalogue's file list.
ghost use Rattle.std.specs.Prelude.{◌≡◌, IfOk, Some};
ghost use Rattle.spdx_own_names.specs.File.{has_fault};
ghost use Rattle.spdx_own_names.specs.FormView.{form_view};
ghost use Rattle.spdx_own_names.specs.ListsView.{lists_view, no_lists, with_form, IsNewIn};

use crate::entries::LicenseList;
use crate::form::LineForm;
use crate::meanings::MeaningList;
use crate::names::NameList;
use crate::words::{is_imprecise, is_name};
use std::alloc::{AllocError, Global};

/// Licences, exceptions and imprecise texts.
#[derive(Drop)]
pub(crate) struct Lists {
    pub(crate) licenses: LicenseList,
    pub(crate) exceptions: NameList,
    pub(crate) meanings: MeaningList,
}

impl Lists {
    /// Nothing.
    pub(crate) fn new(alloc: Global) -> Lists
        ensures { lists_view result ≡ no_lists }
    {
        Lists {
            licenses: LicenseList::new(alloc),
            exceptions: NameList::new(alloc),
            meanings: MeaningList::new(alloc),
        }
    }

    /// Whether a line with this form has a fault behind lines that list this, in a file whose licences have
    /// these names.
    pub(crate) fn fault(
        &self,
        alloc: Global,
        names: &NameList,
        form: &LineForm<'_>,
    ) -> Result<bool, AllocError>
        ensures { IfOk result (λ fault.
            fault ≡ has_fault names.now (lists_view self.now) (Some (form_view form.now))) }
    {
        match form {
            LineForm::Nothing => Ok(false),
            LineForm::License { name, .. } => Ok(!is_name(name) || self.licenses.has(name)),
            LineForm::Exception { name } => Ok(!is_name(name) || self.exceptions.has(name)),
            LineForm::Imprecise { text, name } => {
                if !(is_name(name) && is_imprecise(text)) {
                    return Ok(true);
                }
                let again = self.meanings.has(alloc, text)?;
                Ok(again || !names.has(name))
            }
        }
    }

    /// The lists and what a line with this form lists.
    pub(crate) fn with(self, alloc: Global, form: &LineForm<'_>) -> Result<Lists, AllocError>
        requires { IsNewIn (lists_view self) (form_view form.now) }
        ensures { IfOk result (λ lists.
            lists_view lists ≡ with_form (lists_view self) (Some (form_view form.now))) }
    {
        let Lists {
            licenses,
            exceptions,
            meanings,
        } = self;
        match form {
            LineForm::Nothing => Ok(Lists {
                licenses,
                exceptions,
                meanings,
            }),
            LineForm::License { name, entry } => {
                let licenses = licenses.with(alloc, name, *entry)?;
                Ok(Lists {
                    licenses,
                    exceptions,
                    meanings,
                })
            }
            LineForm::Exception { name } => {
                let exceptions = exceptions.with(alloc, name)?;
                Ok(Lists {
                    licenses,
                    exceptions,
                    meanings,
                })
            }
            LineForm::Imprecise { text, name } => {
                let meanings = meanings.with(alloc, text, name)?;
                Ok(Lists {
                    licenses,
                    exceptions,
                    meanings,
                })
            }
        }
    }
}
