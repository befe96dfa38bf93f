//! The settings that session commands leave, as a map in which the last assignment of a name counts.

ghost use Rattle.std.specs.Prelude.{◌≡◌, OnOk, OnErr, IfOk};
ghost use Rattle.std.specs.Option.{option_copied};
ghost use Rattle.std.specs.FinMap as map;
ghost use Rattle.rws_vars.specs.Map.{applied};

use crate::setting::Setting;
use crate::setting_list::SettingList;
use rws_wire::Text;
use std::alloc::{AllocError, Global};
use std::collections::BTreeMap;
use std::marker::Model;

/// A map from the names of settings to their values.
#[derive(Drop)]
pub struct Settings {
    values: BTreeMap<Text, Text>,
}

impl Model for Settings {
    ghost use Rattle.std.specs.Prelude.{List, ℕ};
    ghost use Rattle.std.specs.Ordering.{nat_cmp};
    ghost use Rattle.std.specs.Cmp.Lexicographic.{slice_cmp};
    ghost use Rattle.std.specs.FinMap as map;
    ghost use Rattle.std.specs.Coded.{coded_ℕ, coded_list};

    ghost Value = { map.FinMap {K = List ℕ} (slice_cmp nat_cmp) (List ℕ) };

    ghost coded = { map.code (coded_list coded_ℕ) (coded_list coded_ℕ) };

    ghost view = { λ s. map.from_entries s.values.entries };
}

impl Settings {
    /// No settings, which takes no memory.
    pub fn new(alloc: Global) -> Settings
        ensures { result ≡ map.empty }
    {
        Settings {
            values: BTreeMap::new(alloc),
        }
    }

    /// The value of a name, which is in lower case.
    pub fn get(&self, name: &Text) -> Option<&Text>
        ensures { option_copied result ≡ map.get self.now name.now }
    {
        self.values.get(name)
    }

    fn insert(&mut self, name: Text, value: Text) -> Result<(), AllocError>
        ensures { OnOk result (self.new ≡ map.insert self.old name value) }
    {
        self.values.insert(name, value)?;
        Ok(())
    }

    /// A copy to which these settings are applied in their order.
    fn with(&self, settings: &[Setting]) -> Result<Settings, AllocError>
        ensures { IfOk result (λ copy. copy ≡ applied self.now settings.now) }
    {
        let mut copy = self.clone()?;
        let mut rest = settings;
        while let [setting, behind @ ..] = rest {
            copy.insert(setting.name.clone()?, setting.value.clone()?)?;
            rest = behind;
        }
        Ok(copy)
    }

    /// Applies these settings in their order. The old values are kept until the new ones stand.
    pub fn apply(&mut self, list: &SettingList) -> Result<(), AllocError>
        ensures ok { OnOk result (self.new ≡ applied self.old list.now) }
        ensures err { OnErr result (self.new ≡ self.old) }
    {
        *self = self.with(list.as_slice())?;
        Ok(())
    }
}

impl Clone for Settings {
    ghost is_clone = { λ settings copy. copy ≡ settings };

    fn clone(&self) -> Result<Settings, AllocError> {
        Ok(Settings {
            values: self.values.clone()?,
        })
    }
}
