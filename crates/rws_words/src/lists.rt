//! The lists of words, in the order of their definitions. Their case doesn't count.

ghost use Rattle.std.specs.Prelude.{◌≡◌};
ghost use Rattle.std.specs.List.{list_any};
ghost use Rattle.rws_token.specs.Lexeme.{same_word};
ghost use Rattle.rws_words.specs.Words.{key_words, pure_names, primary_names, setting_names, character_sets, refused_names, is_on};

use rws_token::same_word;

/// Words that no call begins with: a parenthesis behind one opens a list, a query or an operand.
const KEY_WORDS: [&[u8]; 37] = [
    b"ALL",
    b"AND",
    b"ANY",
    b"AS",
    b"BETWEEN",
    b"BY",
    b"CASE",
    b"DISTINCT",
    b"ELSE",
    b"EXISTS",
    b"EXCEPT",
    b"FROM",
    b"HAVING",
    b"IN",
    b"INDEX",
    b"INTERSECT",
    b"INTERVAL",
    b"JOIN",
    b"KEY",
    b"LIKE",
    b"NOT",
    b"ON",
    b"OR",
    b"OVER",
    b"PARTITION",
    b"SELECT",
    b"SET",
    b"SOME",
    b"THEN",
    b"UNION",
    b"USING",
    b"VALUE",
    b"VALUES",
    b"WHEN",
    b"WHERE",
    b"WITH",
    b"XOR",
];

/// Functions that read no more than their arguments, clocks and random numbers.
const PURE_NAMES: [&[u8]; 110] = [
    b"ABS",
    b"AVG",
    b"CAST",
    b"CEIL",
    b"CEILING",
    b"CHAR_LENGTH",
    b"CHARACTER_LENGTH",
    b"COALESCE",
    b"CONCAT",
    b"CONCAT_WS",
    b"CONVERT",
    b"COUNT",
    b"CURDATE",
    b"CURRENT_DATE",
    b"CURRENT_TIME",
    b"CURRENT_TIMESTAMP",
    b"CURRENT_USER",
    b"CURTIME",
    b"DATABASE",
    b"DATE",
    b"DATE_ADD",
    b"DATE_FORMAT",
    b"DATE_SUB",
    b"DATEDIFF",
    b"DAY",
    b"DAYOFMONTH",
    b"DAYOFWEEK",
    b"DAYOFYEAR",
    b"DENSE_RANK",
    b"FIELD",
    b"FIND_IN_SET",
    b"FIRST_VALUE",
    b"FLOOR",
    b"FORMAT",
    b"FROM_UNIXTIME",
    b"GREATEST",
    b"GROUP_CONCAT",
    b"HEX",
    b"HOUR",
    b"IF",
    b"IFNULL",
    b"INSTR",
    b"ISNULL",
    b"JSON_ARRAY",
    b"JSON_EXTRACT",
    b"JSON_OBJECT",
    b"JSON_UNQUOTE",
    b"JSON_VALUE",
    b"LAG",
    b"LAST_VALUE",
    b"LCASE",
    b"LEAD",
    b"LEAST",
    b"LEFT",
    b"LENGTH",
    b"LOCALTIME",
    b"LOCATE",
    b"LOWER",
    b"LPAD",
    b"LTRIM",
    b"MAX",
    b"MD5",
    b"MIN",
    b"MINUTE",
    b"MOD",
    b"MONTH",
    b"NOW",
    b"NULLIF",
    b"POSITION",
    b"POW",
    b"POWER",
    b"QUARTER",
    b"RAND",
    b"RANK",
    b"REPEAT",
    b"REPLACE",
    b"REVERSE",
    b"RIGHT",
    b"ROUND",
    b"ROW_NUMBER",
    b"RPAD",
    b"RTRIM",
    b"SCHEMA",
    b"SECOND",
    b"SHA1",
    b"SHA2",
    b"SIGN",
    b"SQRT",
    b"STD",
    b"STR_TO_DATE",
    b"SUBSTR",
    b"SUBSTRING",
    b"SUBSTRING_INDEX",
    b"SUM",
    b"SYSDATE",
    b"TIME",
    b"TIMESTAMPADD",
    b"TIMESTAMPDIFF",
    b"TRIM",
    b"TRUNCATE",
    b"UCASE",
    b"UNHEX",
    b"UNIX_TIMESTAMP",
    b"UPPER",
    b"USER",
    b"UTC_TIMESTAMP",
    b"UUID",
    b"WEEK",
    b"WEEKDAY",
    b"YEAR",
];

/// Functions whose answer may differ from server to server.
const PRIMARY_NAMES: [&[u8]; 5] = [
    b"CONNECTION_ID",
    b"FOUND_ROWS",
    b"LAST_INSERT_ID",
    b"ROW_COUNT",
    b"VERSION",
];

/// Variables of a session that a client may set and that can be set again on other connections.
const SETTINGS: [&[u8]; 27] = [
    b"AUTOCOMMIT",
    b"CHARACTER_SET_CLIENT",
    b"CHARACTER_SET_CONNECTION",
    b"CHARACTER_SET_RESULTS",
    b"COLLATION_CONNECTION",
    b"DIV_PRECISION_INCREMENT",
    b"FOREIGN_KEY_CHECKS",
    b"GROUP_CONCAT_MAX_LEN",
    b"INNODB_LOCK_WAIT_TIMEOUT",
    b"INTERACTIVE_TIMEOUT",
    b"LC_TIME_NAMES",
    b"LOCK_WAIT_TIMEOUT",
    b"MAX_STATEMENT_TIME",
    b"NET_READ_TIMEOUT",
    b"NET_WRITE_TIMEOUT",
    b"OPTIMIZER_SWITCH",
    b"SQL_AUTO_IS_NULL",
    b"SQL_MODE",
    b"SQL_SAFE_UPDATES",
    b"SQL_SELECT_LIMIT",
    b"TIME_ZONE",
    b"TRANSACTION_ISOLATION",
    b"TRANSACTION_READ_ONLY",
    b"TX_ISOLATION",
    b"TX_READ_ONLY",
    b"UNIQUE_CHECKS",
    b"WAIT_TIMEOUT",
];

/// Character sets in which a byte below 0x80 is always a character of its own.
const CHARACTER_SETS: [&[u8]; 6] = [
    b"UTF8", b"UTF8MB3", b"UTF8MB4", b"LATIN1", b"ASCII", b"BINARY",
];

/// Variables that replication and the proxy itself stand on.
const REFUSED_NAMES: [&[u8]; 6] = [
    b"SESSION_TRACK_SYSTEM_VARIABLES",
    b"GTID_DOMAIN_ID",
    b"GTID_SEQ_NO",
    b"SERVER_ID",
    b"SQL_LOG_BIN",
    b"SKIP_REPLICATION",
];

/// Whether a word is one of these names.
pub fn is_among(names: &[&[u8]], word: &[u8]) -> bool
    ensures { result ≡ list_any (λ name. same_word word.now name.now) names.now }
{
    names.iter().any(|name| same_word(word, name))
}

/// Whether no call begins with this word.
pub(crate) fn is_key_word(word: &[u8]) -> bool
    ensures { result ≡ is_on key_words word.now }
{
    is_among(&KEY_WORDS, word)
}

/// Whether it is a function that reads no more than its arguments, clocks and random numbers.
pub(crate) fn is_pure(word: &[u8]) -> bool
    ensures { result ≡ is_on pure_names word.now }
{
    is_among(&PURE_NAMES, word)
}

/// Whether it is a function whose answer may differ from server to server.
pub(crate) fn is_primary(word: &[u8]) -> bool
    ensures { result ≡ is_on primary_names word.now }
{
    is_among(&PRIMARY_NAMES, word)
}

/// Whether it is a variable of a session that a client may set and that can be set again on other connections.
pub fn is_setting(word: &[u8]) -> bool
    ensures { result ≡ is_on setting_names word.now }
{
    is_among(&SETTINGS, word)
}

/// Whether it is a character set in which a byte below 0x80 is always a character of its own.
pub fn is_character_set_name(word: &[u8]) -> bool
    ensures { result ≡ is_on character_sets word.now }
{
    is_among(&CHARACTER_SETS, word)
}

/// Whether it is a variable that replication or the proxy itself stands on.
pub fn is_refused_name(word: &[u8]) -> bool
    ensures { result ≡ is_on refused_names word.now }
{
    is_among(&REFUSED_NAMES, word)
}
