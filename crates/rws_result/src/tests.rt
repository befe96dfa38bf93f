//! Results as MariaDB 10.11 sent them, and lists of payloads that are none.

use crate::{OneValue, ReadFault, Rows, read_rows};
use rws_wire::{PayloadList, Text};
use std::alloc::Global;
use std::test::Fail;

/// To `select id, v, a from t where ..`, whose last column is NULL.
const ROWS: &[&[u8]] = &[
    b"\x03",
    b"\x03def\x04test\x01t\x01t\x02id\x02id\x0c?\x00\x0a\x00\x00\x00\x03#P\x00\x00\x00",
    b"\x03def\x04test\x01t\x01t\x01v\x01v\x0c?\x00\x0a\x00\x00\x00\x03!\x10\x00\x00\x00",
    b"\x03def\x04test\x01t\x01t\x01a\x01a\x0c-\x00\x00\x01\x00\x00\xfd\x00\x00\x00\x00\x00",
    b"\xfe\x00\x00\x22\x00",
    b"\x013\x0230\xfb",
    b"\xfe\x00\x00\x22\x00",
];

const ONE: &[u8] = b"\x01";

const DEFINITION: &[u8] =
    b"\x03def\x00\x00\x00\x01v\x00\x0c?\x00\x01\x00\x00\x00\x03\x81\x00\x00\x00\x00";

const EOF: &[u8] = b"\xfe\x00\x00\x02\x00";

const ROW: &[u8] = b"\x015";

const ERR: &[u8] = b"\xffl\x06#45000stop";

const OK: &[u8] = b"\x00\x00\x00\x02\x00\x00\x00";

/// The payloads, of which the last is cut to its first `size` bytes.
fn list_of(alloc: Global, payloads: &[&[u8]], size: usize) -> Result<PayloadList, Fail> {
    let mut list = PayloadList::new(alloc);
    for (at, payload) in payloads.iter().enumerate() {
        let kept = if at + 1 == payloads.len() {
            size.min(payload.len())
        } else {
            payload.len()
        };
        list.push(Text::from_slice(alloc, &payload[..kept])?)?;
    }
    Ok(list)
}

/// Whether the one row has these columns.
fn has_row(read: &Rows, columns: &[Option<&[u8]>]) -> bool {
    let [row] = read.rows.as_slice() else {
        return false;
    };
    if row.len() != columns.len() {
        return false;
    }
    for (cell, column) in row.as_slice().iter().zip(columns) {
        if cell.as_ref().map(|text| text.as_slice()) != *column {
            return false;
        }
    }
    true
}

#[test]
fn names_rows_and_nulls(rt: HostRuntime) -> Result<(), Fail> {
    let read = read_rows(rt.alloc(), &list_of(rt.alloc(), ROWS, 9)?)?;
    let names = read.names.as_slice();
    assert!(rt; names.len() == 3 && !read.rows.is_empty() && read.rows.len() == 1);
    for (name, expected) in names.iter().zip([b"id".as_slice(), b"v", b"a"]) {
        assert_eq!(rt; name.as_slice(), expected);
    }
    assert!(rt; has_row(&read, &[Some(b"3"), Some(b"30"), None]));
    Ok(())
}

#[test]
fn a_result_that_breaks_off(rt: HostRuntime) -> Result<(), Fail> {
    for count in 0..ROWS.len() {
        for size in 0..ROWS[count].len() {
            let cut = list_of(rt.alloc(), &ROWS[..count + 1], size)?;
            assert!(rt; matches!(read_rows(rt.alloc(), &cut), Err(ReadFault::NotAResult)));
        }
    }
    Ok(())
}

/// Lists that are no result set, and why.
const OTHERS: [(&str, &[&[u8]]); 16] = [
    ("nothing", &[]),
    ("an OK", &[OK]),
    ("an ERR", &[ERR]),
    ("no columns", &[b"\x00", EOF, EOF]),
    (
        "a count with something behind it",
        &[b"\x01\x00", DEFINITION, EOF, EOF],
    ),
    (
        "too many definitions",
        &[ONE, DEFINITION, DEFINITION, EOF, EOF],
    ),
    ("too few definitions", &[b"\x02", DEFINITION, EOF, ROW, EOF]),
    (
        "a count beyond all lists",
        &[
            b"\xfe\xff\xff\xff\xff\xff\xff\xff\xff",
            DEFINITION,
            EOF,
            EOF,
        ],
    ),
    (
        "a row of two columns",
        &[ONE, DEFINITION, EOF, b"\x015\x015", EOF],
    ),
    (
        "a row with a byte behind it",
        &[ONE, DEFINITION, EOF, b"\x0155", EOF],
    ),
    ("a row of no columns", &[ONE, DEFINITION, EOF, b"", EOF]),
    ("a row that is cut", &[ONE, DEFINITION, EOF, b"\x025", EOF]),
    ("rows that end by an ERR", &[ONE, DEFINITION, EOF, ROW, ERR]),
    ("an OK behind", &[ONE, DEFINITION, EOF, ROW, EOF, OK]),
    ("an EOF behind", &[ONE, DEFINITION, EOF, ROW, EOF, EOF]),
    (
        "two result sets",
        &[
            ONE, DEFINITION, EOF, ROW, EOF, ONE, DEFINITION, EOF, ROW, EOF,
        ],
    ),
];

#[test]
fn no_result_sets(rt: HostRuntime) -> Result<(), Fail> {
    for (why, payloads) in OTHERS {
        let list = list_of(rt.alloc(), payloads, 64)?;
        assert!(rt;
            matches!(read_rows(rt.alloc(), &list), Err(ReadFault::NotAResult)),
            "{why}"
        );
    }
    Ok(())
}

/// Rows of one column, and what stands there.
const COLUMNS: [(&[u8], Option<&[u8]>); 4] = [
    (ROW, Some(b"5")),
    (b"\xfb", None),
    (b"\x00", Some(b"")),
    (b"\xfe\x01\x00\x00\x00\x00\x00\x00\x005", Some(b"5")),
];

#[test]
fn rows_of_one_column(rt: HostRuntime) -> Result<(), Fail> {
    for (row, column) in COLUMNS {
        let list = list_of(rt.alloc(), &[ONE, DEFINITION, EOF, row, EOF], 5)?;
        let read = read_rows(rt.alloc(), &list)?;
        assert!(rt; has_row(&read, &[column]));
    }
    Ok(())
}

/// What is heard of these payloads is this value.
fn hears(alloc: Global, payloads: &[&[u8]], value: Option<&[u8]>) -> Result<bool, Fail> {
    let mut heard = OneValue::Begins;
    for payload in payloads {
        heard.hear(alloc, payload)?;
    }
    Ok(heard.value() == value)
}

#[test]
fn one_value_payload_by_payload(rt: HostRuntime) -> Result<(), Fail> {
    let alloc = rt.alloc();
    assert!(rt; hears(alloc, &[ONE, DEFINITION, EOF, ROW, EOF], Some(b"5"))?);
    assert!(rt; hears(alloc, &[ONE, DEFINITION, EOF, b"\xfb", EOF], None)?);
    assert!(rt; hears(alloc, &[ONE, DEFINITION, EOF, ROW], None)?);
    assert!(rt; hears(alloc, &[ONE, DEFINITION, EOF, ROW, ROW, EOF], None)?);
    assert!(rt; hears(alloc, &[ERR], None)?);
    Ok(())
}
