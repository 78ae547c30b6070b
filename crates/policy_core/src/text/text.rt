//! The text of a policy.
ghost use Rattle.std.specs.Prelude.{◌≡◌, ◌≢◌, Err};
ghost use Rattle.tree_core.specs.declared.texts.fault.ReadFault.{ReadFault};
ghost use Rattle.policy_core.specs.text.Text.{config_text_of};

use crate::text::error::ConfigError;
use deny_text::Text;
use std::alloc::Global;
use tree_core::texts::{ReadFault, TextHeard};

/// The text that a policy is read from.
#[derive(Drop)]
pub struct ConfigText {
    pub text: Text,
    /// Whether there is a file; else the text is empty.
    pub is_there: bool,
}

impl ConfigText {
    /// The text, from what was read of the policy's file. Where nothing is there it is empty.
    ///
    /// It is refused where the file is a folder or no UTF-8, and where its read failed.
    pub fn from_heard(alloc: Global, heard: TextHeard) -> Result<ConfigText, ConfigError>
        ensures told { result ≡ config_text_of heard }
        ensures there { result ≢ Err (ConfigError.ConfigRead ReadFault.Absent) }
    {
        match heard {
            Ok(text) => Ok(ConfigText {
                text,
                is_there: true,
            }),
            Err(ReadFault::Absent) => Ok(ConfigText {
                text: Text::from(String::new(alloc)),
                is_there: false,
            }),
            Err(fault) => Err(ConfigError::ConfigRead(fault)),
        }
    }
}
