//! Texts with what they set, and the map that lists of settings leave.

use crate::{SettingList, Settings, assignments};
use rws_wire::Text;
use std::alloc::{AllocError, Global};
use std::test::Fail;

/// A text, and its settings: each as its name, `=`, its value, and `!` where the value is literal, else `?`.
const SETTINGS: [(&str, &str); 14] = [
    (
        "set @A = 1, session time_zone := 'UTC'",
        "@a=1!time_zone='UTC'!",
    ),
    (
        "SET @@local.SQL_MODE = concat(@@sql_mode, ',X')",
        "sql_mode=concat(@@sql_mode,',X')?",
    ),
    (
        "set @a = 1, @a = 2, autocommit = off;",
        "@a=1!@a=2!autocommit=off!",
    ),
    (
        "set @`X y` = -1, @b = - 1.5e3, @c = +'a'",
        "@`x y`=-1!@b=-1.5e3!@c=+'a'?",
    ),
    ("(set @a = /* c */ 1", "@a=1!"),
    ("set @a = (1, 2), @b = 'x' 'y'", "@a=(1,2)?@b='x''y'?"),
    ("use db;", "database=db!"),
    ("use `Db`", "database=`Db`?"),
    ("set names utf8", "names=utf8!"),
    (
        "set names 'utf8' collate utf8_bin",
        "names='utf8'collateutf8_bin?",
    ),
    ("set character set latin1", "names=latin1!"),
    (
        "set session transaction isolation level serializable",
        "transaction isolation=serializable!",
    ),
    (
        "set session transaction isolation level read committed",
        "transaction isolation=readcommitted?",
    ),
    (
        "set session transaction read only",
        "transaction access=readonly?",
    ),
];

/// Texts that set nothing that can be repeated.
const OTHERS: [&str; 7] = [
    "",
    "select 1",
    "begin",
    "savepoint a",
    "set @a = @@hostname",
    "set @a = 1,",
    "set sql_log_bin = 0",
];

/// What a text sets, or `none`.
fn printed(alloc: Global, text: &[u8]) -> Result<Text, AllocError> {
    match assignments(alloc, text)? {
        Some(list) => printed_list(alloc, &list),
        None => Text::from_slice(alloc, b"none"),
    }
}

fn printed_list(alloc: Global, list: &SettingList) -> Result<Text, AllocError> {
    let mut text = Text::empty(alloc);
    for setting in list.as_slice() {
        text.extend_from_slice(setting.name.as_slice())?;
        text.extend_from_slice(b"=")?;
        text.extend_from_slice(setting.value.as_slice())?;
        text.push(if setting.literal { b'!' } else { b'?' })?;
    }
    Ok(text)
}

#[test]
fn texts_and_their_settings(rt: HostRuntime) -> Result<(), Fail> {
    for (text, settings) in &SETTINGS {
        let printed = printed(rt.alloc(), text.as_bytes())?;
        assert_eq!(rt; printed.as_slice(), settings.as_bytes(), "{text}");
    }
    Ok(())
}

#[test]
fn other_texts_set_nothing(rt: HostRuntime) -> Result<(), Fail> {
    for text in &OTHERS {
        let is_none = assignments(rt.alloc(), text.as_bytes())?.is_none();
        assert!(rt; is_none, "{text}");
    }
    Ok(())
}

/// The value that these texts leave at a name, one after the other.
fn value_of(alloc: Global, texts: &[&str], name: &str) -> Result<Text, AllocError> {
    let mut settings = Settings::new(alloc);
    for text in texts {
        if let Some(list) = assignments(alloc, text.as_bytes())? {
            settings.apply(&list)?;
        }
    }
    let name = Text::from_slice(alloc, name.as_bytes())?;
    match settings.get(&name) {
        Some(value) => value.clone(),
        None => Ok(Text::empty(alloc)),
    }
}

#[test]
fn the_last_assignment_counts(rt: HostRuntime) -> Result<(), Fail> {
    let texts = ["set @a = 1, @b = 2", "use db", "set @A = 3"];
    for (name, value) in &[("@a", "3"), ("@b", "2"), ("database", "db"), ("@c", "")] {
        let left = value_of(rt.alloc(), &texts, name)?;
        assert_eq!(rt; left.as_slice(), value.as_bytes(), "{name}");
    }
    Ok(())
}
