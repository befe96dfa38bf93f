//! Texts and their classes, each by the rules that docs/STATEMENTS.md tells.

use crate::{Class, classify};
use std::process::Abort;
use std::test::Fail;

const WORKED: [(&str, Class); 22] = [
    ("select 1", Class::Read),
    ("SELECT a FROM t FOR UPDATE", Class::Write),
    ("/*!40001 select*/ 1", Class::Other),
    ("SELECT LAST_INSERT_ID()", Class::PrimaryRead),
    ("set names utf8mb4", Class::Session),
    ("select 'a", Class::Other),
    ("insert into t (a) values (1)", Class::Write),
    ("set gtid_domain_id=1", Class::Refused),
    ("", Class::Other),
    ("start transaction read only", Class::BeginReadOnly),
    ("rollback to a", Class::TrxLocal),
    ("create temporary table x (a int)", Class::Other),
    ("set autocommit=0", Class::AutocommitOff),
    ("select a into @b from t", Class::Other),
    ("select f(1)", Class::Other),
    ("select version()", Class::PrimaryRead),
    ("set global sql_mode=''", Class::Other),
    ("insert into t(a) values (1)", Class::Write),
    ("insert into t select count(*) from u", Class::Write),
    ("select 1;", Class::Read),
    ("select 1; select 2", Class::Other),
    ("call p()", Class::Other),
];

const QUERIES_1: [(&str, Class); 30] = [
    (
        "select a, b from t join u on (t.id = u.id) where t.a in (1, 2)",
        Class::Read,
    ),
    (
        "select a from t where exists (select 1 from u) and b = any (select c from v)",
        Class::Read,
    ),
    (
        "select count(distinct a), sum(b), max(c) from t group by d having count(*) > 1",
        Class::Read,
    ),
    ("select a from t union (select b from u)", Class::Read),
    (
        "(select a from t) union all (select b from u) order by 1",
        Class::Read,
    ),
    ("((select 1))", Class::Read),
    ("with c as (select a from t) select * from c", Class::Read),
    (
        "with recursive c (n) as (select 1 union select n + 1 from c where n < 9) select n from c",
        Class::Other,
    ),
    (
        "select a, row_number() over (partition by b order by c) from t",
        Class::Read,
    ),
    (
        "select rank() over w from t window w as (order by a)",
        Class::Read,
    ),
    (
        "select cast(a as char), convert(b using utf8mb4) from t",
        Class::Read,
    ),
    ("select cast(a as decimal(10,2)) from t", Class::Other),
    (
        "select case when a = 1 then concat(b, '-', c) else ifnull(d, '') end from t",
        Class::Read,
    ),
    (
        "select date_add(now(), interval 1 day), unix_timestamp()",
        Class::Read,
    ),
    ("select interval (3) day + now()", Class::Read),
    (
        "select if(a, left(b, 3), replace(c, 'x', 'y')) from t",
        Class::Read,
    ),
    (
        "select distinct a from t where a between 1 and 9 xor not (b like 'x%') limit 3",
        Class::Read,
    ),
    ("select a from db.t where db.t.b = t.c", Class::Read),
    ("select `a``b`, `select` from `t`", Class::Read),
    ("select `f`(1)", Class::Other),
    ("select `count`(1)", Class::Other),
    ("select db.count(1) from t", Class::Other),
    ("select t . count (1) from t", Class::Other),
    ("select count (1) from t", Class::Read),
    ("select count/* c */(1) from t", Class::Read),
    ("select my_function(1) from t", Class::Other),
    ("select sleep(1)", Class::Other),
    ("select get_lock('a', 1)", Class::Other),
    ("select user(), database(), current_user()", Class::Read),
    ("select connection_id()", Class::PrimaryRead),
];

const QUERIES_2: [(&str, Class); 30] = [
    ("select found_rows(), row_count()", Class::PrimaryRead),
    (
        "select SQL_CALC_FOUND_ROWS a from t limit 1",
        Class::PrimaryRead,
    ),
    ("select @@version", Class::PrimaryRead),
    ("select @@global.max_connections", Class::PrimaryRead),
    ("select @a", Class::Read),
    ("select @a.b, @'x y', @\"q\", @`z`", Class::Read),
    ("select @a := 1", Class::Other),
    ("select @ a from t", Class::Read),
    (
        "select * from information_schema.tables",
        Class::PrimaryRead,
    ),
    (
        "select * from `information_schema`.tables",
        Class::PrimaryRead,
    ),
    (
        "select * from performance_schema.threads",
        Class::PrimaryRead,
    ),
    ("select * from mysql.user", Class::PrimaryRead),
    ("select * from `MySQL` . user", Class::PrimaryRead),
    ("select mysql from t", Class::Read),
    ("select * from sys.version", Class::PrimaryRead),
    ("select a from t lock in share mode", Class::Write),
    ("select a from t for share", Class::Write),
    ("select a from t for  /* c */  update", Class::Write),
    ("select a from t for system_time all", Class::Read),
    ("select a from t into outfile '/tmp/x'", Class::Other),
    ("select a from t procedure analyse()", Class::Other),
    ("select next value for s", Class::Other),
    ("select previous value for s", Class::Other),
    ("select nextval(s)", Class::Other),
    ("select next, value from t", Class::Read),
    ("select 'for update'", Class::Read),
    ("select a as lock from t", Class::Read),
    ("select * from (select a from t) as d", Class::Read),
    (
        "select json_extract(a, '$.b') ->> '$.c' from t",
        Class::Read,
    ),
    (
        "select a from t where match (b) against ('x')",
        Class::Other,
    ),
];

const COMMENTS: [(&str, Class); 19] = [
    ("-- c\nselect 1", Class::Read),
    ("--c\nselect 1", Class::Other),
    ("select 1 --c", Class::Read),
    ("select 1 -- ; update", Class::Read),
    ("select 1--\n", Class::Read),
    ("select 1 # ; update t set a = 1", Class::Read),
    ("# select 1", Class::Other),
    ("/* a /* b */ select 1", Class::Read),
    ("/* a /* b */ c */ select 1", Class::Other),
    ("select /*! sql_no_cache */ a from t", Class::Other),
    ("select /*M! 1 */ a", Class::Other),
    ("select /*m! 1 */ a", Class::Read),
    ("/*/ select 1", Class::Other),
    ("/**/select 1", Class::Read),
    ("select 1 /*", Class::Other),
    ("select 1; -- done", Class::Read),
    ("select 1;;", Class::Other),
    (";", Class::Other),
    (";select 1", Class::Other),
];

const STRINGS: [(&str, Class); 16] = [
    ("select 'it''s; fine'", Class::Read),
    ("select 'a\\'b; c'", Class::Read),
    ("select \"a\"\"b;c\"", Class::Read),
    ("select \"a\\\"b\"", Class::Read),
    ("select 'a\\\\'", Class::Read),
    ("select 'a\\'", Class::Other),
    ("select 'a''", Class::Other),
    ("select \"a", Class::Other),
    ("select `a", Class::Other),
    ("select `a\\` from t", Class::Read),
    ("select @'a", Class::Other),
    ("select @@", Class::Other),
    ("select @@`a`", Class::Other),
    ("select 'a' 'b'", Class::Read),
    ("select n'a', x'1f', b'01', _utf8'c'", Class::Read),
    ("select '\u{e9}', caf\u{e9} from t\u{fc}", Class::Read),
];

const NUMBERS: [(&str, Class); 12] = [
    (
        "select 1e5, 1.e+3, .5, 1., 1.5, 0x1F, 0b01, 1e-2, 1E+2",
        Class::Read,
    ),
    ("select 1_000", Class::Other),
    ("select 1.2.3", Class::Other),
    ("select 1e", Class::Other),
    ("select 1e+", Class::Read),
    ("select 0x", Class::Other),
    ("select 0b2", Class::Other),
    ("select 0xg", Class::Other),
    ("select 0X1F", Class::Other),
    ("select 1(2)", Class::Other),
    ("select 12a from t", Class::Other),
    ("select a.1 from t", Class::Read),
];

const SHOWS: [(&str, Class); 7] = [
    ("show tables", Class::PrimaryRead),
    ("desc t", Class::PrimaryRead),
    ("describe t", Class::PrimaryRead),
    ("explain select a from t", Class::PrimaryRead),
    ("explain select f(a) from t", Class::Other),
    ("help 'select'", Class::PrimaryRead),
    ("show variables where f(a)", Class::Other),
];

const WRITES: [(&str, Class); 14] = [
    ("insert into t values (1, now())", Class::Write),
    ("insert t set a = 1", Class::Write),
    ("insert into t values (f(1))", Class::Other),
    ("insert into t set a = f(1)", Class::Other),
    ("insert into t (a) select f(1)", Class::Other),
    (
        "insert into t (a, b) values (1, 2) on duplicate key update a = values(a)",
        Class::Write,
    ),
    ("insert into t (a) values (last_insert_id())", Class::Write),
    ("replace into t (a) values (1)", Class::Write),
    ("replace t values (1)", Class::Write),
    ("update t set a = a + 1 where b in (1, 2)", Class::Write),
    ("update t set a = f(1)", Class::Other),
    ("update t set a = @b := 1", Class::Other),
    ("delete from t where a = 1", Class::Write),
    ("delete t from t join u using (a)", Class::Write),
];

const DEFINITIONS: [(&str, Class); 15] = [
    ("create table t (a int, primary key (a))", Class::Ddl),
    ("create table t (a int)", Class::Ddl),
    ("create table t (a int) as select a from u", Class::Ddl),
    ("create table t (a int) as select f(a) from u", Class::Other),
    ("create table t as values (f(1))", Class::Other),
    (
        "create table t (a int) partition by range (a) (partition p values less than (f(1)))",
        Class::Ddl,
    ),
    (
        "create table t (a int) partition by list (a) (partition p values in (f(1)))",
        Class::Ddl,
    ),
    ("alter table t add column b varchar(10)", Class::Ddl),
    ("drop table t", Class::Ddl),
    ("drop temporary table t", Class::Other),
    ("truncate table t", Class::Ddl),
    ("rename table t to u", Class::Ddl),
    ("grant select on t to u", Class::Ddl),
    ("revoke all on t from u", Class::Ddl),
    ("create table t (a int default (@b := 1))", Class::Other),
];

const TRANSACTIONS: [(&str, Class); 25] = [
    ("begin", Class::Begin),
    ("BEGIN WORK;", Class::Begin),
    ("begin not atomic", Class::Other),
    ("start transaction", Class::Begin),
    ("start transaction read write", Class::Begin),
    ("start transaction with consistent snapshot", Class::Begin),
    ("start transaction read only, read write", Class::Other),
    ("start slave", Class::Other),
    ("commit", Class::Commit),
    ("commit work", Class::Commit),
    ("commit and chain", Class::Other),
    ("rollback", Class::Rollback),
    ("rollback work", Class::Rollback),
    ("rollback to savepoint a", Class::TrxLocal),
    ("rollback work to `a`", Class::TrxLocal),
    ("rollback work to savepoint savepoint", Class::TrxLocal),
    ("rollback to savepoint", Class::TrxLocal),
    ("rollback to 'a'", Class::Other),
    ("savepoint a", Class::TrxLocal),
    ("savepoint", Class::Other),
    ("release savepoint a", Class::TrxLocal),
    ("release a", Class::Other),
    ("use db", Class::Session),
    ("use `db`;", Class::Session),
    ("use db.t", Class::Other),
];

const SETTINGS_1: [(&str, Class); 29] = [
    (
        "set autocommit=1, sql_mode=concat(@@sql_mode,',STRICT_TRANS_TABLES')",
        Class::AutocommitOn,
    ),
    ("SET @@session.autocommit = ON", Class::AutocommitOn),
    ("set local autocommit := false", Class::AutocommitOff),
    ("set autocommit=1, autocommit=0", Class::Other),
    ("set autocommit='1'", Class::Other),
    ("set autocommit = 1 + 0", Class::Other),
    ("set @a = 1", Class::Session),
    (
        "set @a = 1, @b := (1, 2), @@wait_timeout = 5",
        Class::Session,
    ),
    ("set @a = f(1)", Class::Other),
    ("set @a = now()", Class::Session),
    ("set @a = last_insert_id()", Class::Other),
    ("set @a = (select 1)", Class::Other),
    ("set @a := @b := 1", Class::Other),
    ("set @a =", Class::Other),
    ("set @a = 1,", Class::Other),
    ("set", Class::Other),
    ("set names 'utf8'", Class::Session),
    ("set names latin1 collate latin1_bin", Class::Session),
    ("set names gbk", Class::Other),
    ("set names utf8, @a = 1", Class::Other),
    ("set names default", Class::Other),
    ("set character set utf8mb4", Class::Session),
    ("set character_set_client = utf8", Class::Session),
    ("set character_set_client = gbk", Class::Other),
    ("set character_set_results = null", Class::Session),
    (
        "set session transaction isolation level read committed",
        Class::Session,
    ),
    (
        "set session transaction isolation level serializable",
        Class::Session,
    ),
    ("set session transaction read only", Class::Session),
    ("set session transaction read write;", Class::Session),
];

const SETTINGS_2: [(&str, Class); 30] = [
    ("set transaction read only", Class::Other),
    ("set transaction isolation level serializable", Class::Other),
    ("set global autocommit = 1", Class::Other),
    ("set @@global.autocommit = 1", Class::Other),
    ("set max_connections = 1", Class::Other),
    ("set session max_statement_time = 3", Class::Session),
    ("set sql_mode = default", Class::Session),
    ("set sql_mode = ansi", Class::Other),
    ("set sql_mode = ANSI_QUOTES", Class::Other),
    (
        "set sql_mode = 'STRICT_ALL_TABLES,NO_BACKSLASH_ESCAPES'",
        Class::Other,
    ),
    ("set sql_mode = 'AN' 'SI'", Class::Other),
    ("set sql_mode = concat('or', \"acle\")", Class::Other),
    (
        "set sql_mode = concat('or', @@sql_mode, \"acle\")",
        Class::Other,
    ),
    ("set sql_mode = concat('or-', \"acle\")", Class::Session),
    ("set sql_mode = 'A\\NSI'", Class::Other),
    ("set sql_mode = 'TRADITIONAL'", Class::Session),
    ("set sql_mode = concat", Class::Session),
    ("set sql_mode = @@session.sql_mode", Class::Session),
    ("set sql_mode = @a", Class::Other),
    ("set sql_mode = replace(@@sql_mode, 'x', 'y')", Class::Other),
    ("set sql_log_bin = 0", Class::Refused),
    ("set @@session.server_id = 1", Class::Refused),
    ("set @a = 1, session gtid_seq_no = 5", Class::Refused),
    ("set session_track_system_variables = '*'", Class::Refused),
    ("set @@skip_replication = 1", Class::Refused),
    ("set names utf8, sql_log_bin = 0", Class::Refused),
    ("set sql_log_bin = 0; select 1", Class::Other),
    ("set `autocommit` = 1", Class::Other),
    ("set @x = 1e5x", Class::Other),
    ("set password = 'x'", Class::Other),
];

const SETTINGS_3: [(&str, Class); 13] = [
    ("set @a = @@last_insert_id", Class::Other),
    ("set @a = @@identity, @b = 1", Class::Other),
    ("set @a = @@session.warning_count", Class::Other),
    ("set time_zone = @@hostname", Class::Other),
    ("set @a = @@global.wait_timeout", Class::Other),
    ("set sql_mode = @@other.sql_mode", Class::Other),
    (
        "set @a = @@wait_timeout, @b = (@@local.time_zone)",
        Class::Session,
    ),
    ("set `sql_log_bin` = 0", Class::Refused),
    ("set @@session.`Server_Id` = 1", Class::Refused),
    ("set @a = `gtid_seq_no`", Class::Refused),
    ("set @a = 'gtid_seq_no'", Class::Session),
    ("set role r", Class::Other),
    (
        "set statement max_statement_time = 1 for select 1",
        Class::Other,
    ),
];

const ANYTHING_ELSE: [(&str, Class); 11] = [
    ("do 1", Class::Other),
    ("kill 1", Class::Other),
    ("lock tables t write", Class::Other),
    ("analyze table t", Class::Other),
    ("xa start 'a'", Class::Other),
    ("load data infile 'x' into table t", Class::Other),
    ("prepare s from 'select 1'", Class::Other),
    ("handler t open", Class::Other),
    ("'select'", Class::Other),
    ("`select` 1", Class::Other),
    ("1", Class::Other),
];

fn each_has_its_class(rt: &impl Abort, table: &[(&str, Class)]) {
    for (text, class) in table {
        assert_eq!(rt; classify(text.as_bytes()), *class, "{text}");
    }
}

#[test]
fn worked_have_their_classes(rt: HostRuntime) {
    each_has_its_class(&rt, &WORKED);
}

#[test]
fn queries_1_have_their_classes(rt: HostRuntime) {
    each_has_its_class(&rt, &QUERIES_1);
}

#[test]
fn queries_2_have_their_classes(rt: HostRuntime) {
    each_has_its_class(&rt, &QUERIES_2);
}

#[test]
fn comments_have_their_classes(rt: HostRuntime) {
    each_has_its_class(&rt, &COMMENTS);
}

#[test]
fn strings_have_their_classes(rt: HostRuntime) {
    each_has_its_class(&rt, &STRINGS);
}

#[test]
fn numbers_have_their_classes(rt: HostRuntime) {
    each_has_its_class(&rt, &NUMBERS);
}

#[test]
fn shows_have_their_classes(rt: HostRuntime) {
    each_has_its_class(&rt, &SHOWS);
}

#[test]
fn writes_have_their_classes(rt: HostRuntime) {
    each_has_its_class(&rt, &WRITES);
}

#[test]
fn definitions_have_their_classes(rt: HostRuntime) {
    each_has_its_class(&rt, &DEFINITIONS);
}

#[test]
fn transactions_have_their_classes(rt: HostRuntime) {
    each_has_its_class(&rt, &TRANSACTIONS);
}

#[test]
fn settings_1_have_their_classes(rt: HostRuntime) {
    each_has_its_class(&rt, &SETTINGS_1);
}

#[test]
fn settings_2_have_their_classes(rt: HostRuntime) {
    each_has_its_class(&rt, &SETTINGS_2);
}

#[test]
fn settings_3_have_their_classes(rt: HostRuntime) {
    each_has_its_class(&rt, &SETTINGS_3);
}

#[test]
fn anything_else_have_their_classes(rt: HostRuntime) {
    each_has_its_class(&rt, &ANYTHING_ELSE);
}

#[test]
fn a_text_of_a_mebibyte(rt: HostRuntime) -> Result<(), Fail> {
    let mut text = Vec::from_slice(rt.alloc(), b"select a")?;
    for _ in 0..131_072 {
        text.extend_from_slice(b", a, abc")?;
    }
    assert_eq!(rt; classify(&text), Class::Read);
    Ok(())
}
