//! What a session command's text sets.

ghost use Rattle.std.specs.Prelude.{◌≡◌, IfOk, ◌∷◌, [], List};
ghost use Rattle.rws_vars.specs.Assignments.{is_setting_class, list_settings, statement_of, assignments_of};

use crate::collector::Collector;
use crate::heading::headed;
use crate::setting_list::SettingList;
use crate::statement::Statement;
use rws_class::{Class, classify};
use std::alloc::{AllocError, Global};

fn is_setting_class(class: Class) -> bool
    ensures { result ≡ is_setting_class class }
{
    matches!(
        class,
        Class::Session | Class::AutocommitOn | Class::AutocommitOff
    )
}

/// What the items behind the first word set.
fn list_settings(alloc: Global, text: &[u8]) -> Result<SettingList, AllocError>
    ensures { IfOk result (λ list. list ≡ list_settings (statement_of text.now)) }
{
    let mut statement = Statement::new(text);
    if statement.next().is_none() {
        return Ok(SettingList::new(alloc));
    }
    let mut collector = Collector::new(alloc);
    while let Some(lexeme) = statement.next() {
        collector.read(&lexeme)?;
    }
    collector.finish()
}

/// What a statement's text, the bytes of a COM_QUERY behind its command byte, sets: Some for texts of the classes
/// Session, AutocommitOn and AutocommitOff, None for every other text.
#[tactic(auto, unfolding(crate::specs::Assignments::assignments_of))]
pub fn assignments(alloc: Global, text: &[u8]) -> Result<Option<SettingList>, AllocError>
    ensures { IfOk result (λ list. list ≡ assignments_of text.now) }
{
    if !is_setting_class(classify(text)) {
        return Ok(None);
    }
    let Some(setting) = headed(alloc, text)? else {
        return Ok(Some(list_settings(alloc, text)?));
    };
    let mut list = SettingList::new(alloc);
    list.push(setting)?;
    Ok(Some(list))
}
