//! A list of settings, which contracts see as a list.

ghost use Rattle.std.specs.Prelude.{◌≡◌, ◌++◌, ◌==◌, List, [], ◌∷◌, length, OnOk, OnErr};

use crate::setting::Setting;
use std::alloc::{AllocError, Global};
use std::marker::Model;

/// Settings in the order in which they are made.
#[derive(Debug, Drop)]
pub struct SettingList {
    settings: Vec<Setting>,
}

impl Model for SettingList {
    ghost use Rattle.std.specs.Prelude.{List};
    ghost use Rattle.rws_vars.specs.declared.setting.Setting.{Setting};

    ghost Value = { List Setting };

    ghost view = { λ list. list.settings.items };
}

impl SettingList {
    /// No settings, which takes no memory.
    pub fn new(alloc: Global) -> SettingList
        ensures { result ≡ [] }
    {
        SettingList {
            settings: Vec::new(alloc),
        }
    }

    pub fn len(&self) -> usize
        ensures { result ≡ length self.now }
    {
        self.settings.len()
    }

    pub fn is_empty(&self) -> bool
        ensures { result ≡ (length self.now == 0) }
    {
        self.settings.is_empty()
    }

    pub fn as_slice(&self) -> &[Setting]
        ensures { result.now ≡ self.now }
    {
        self.settings.as_slice()
    }

    /// Puts a setting at the end.
    pub fn push(&mut self, setting: Setting) -> Result<(), AllocError>
        ensures ok { OnOk result (self.new ≡ self.old ++ setting ∷ []) }
        ensures err { OnErr result (self.new ≡ self.old) }
    {
        self.settings.push(setting)?;
        Ok(())
    }
}
