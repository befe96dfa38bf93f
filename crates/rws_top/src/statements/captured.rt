//! What connectors of Debian 12 sent for their prepared statements, captured before MariaDB 10.11.19, as a session's traces.
//!
//! Each statement had the number 1 there; where a session gives it another one, it is said so. Servers answer by the layouts of the
//! protocol, the primary with ids from 7 on, its replica from 9 on. What is printed was worked out from the protocol and from
//! docs/TRACE.md.

use super::Step;

/// What follows the first packet of the reply to a prepare of four parameters and four columns: their definitions, with an EOF
/// behind each.
const FOUR_PREPARED: &[u8] = b"1700000203646566000000013f000c3f0000000000068000000000\n\
    1700000303646566000000013f000c3f0000000000068000000000\n\
    1700000403646566000000013f000c3f0000000000068000000000\n\
    1700000503646566000000013f000c3f0000000000068000000000\n\
    05000006fe00000200\n\
    1700000703646566000000013f000c3f0000000000068000000000\n\
    1700000803646566000000013f000c3f0000000000068000000000\n\
    1700000903646566000000013f000c3f0000000000068000000000\n\
    1700000a03646566000000013f000c3f0000000000068000000000\n\
    0500000bfe00000200\n";

/// The same with five of each.
const FIVE_PREPARED: &[u8] = b"1700000203646566000000013f000c3f0000000000068000000000\n\
    1700000303646566000000013f000c3f0000000000068000000000\n\
    1700000403646566000000013f000c3f0000000000068000000000\n\
    1700000503646566000000013f000c3f0000000000068000000000\n\
    1700000603646566000000013f000c3f0000000000068000000000\n\
    05000007fe00000200\n\
    1700000803646566000000013f000c3f0000000000068000000000\n\
    1700000903646566000000013f000c3f0000000000068000000000\n\
    1700000a03646566000000013f000c3f0000000000068000000000\n\
    1700000b03646566000000013f000c3f0000000000068000000000\n\
    1700000c03646566000000013f000c3f0000000000068000000000\n\
    0500000dfe00000200\n";

/// The same with three of each.
const THREE_PREPARED: &[u8] = b"1700000203646566000000013f000c3f0000000000068000000000\n\
    1700000303646566000000013f000c3f0000000000068000000000\n\
    1700000403646566000000013f000c3f0000000000068000000000\n\
    05000005fe00000200\n\
    1700000603646566000000013f000c3f0000000000068000000000\n\
    1700000703646566000000013f000c3f0000000000068000000000\n\
    1700000803646566000000013f000c3f0000000000068000000000\n\
    05000009fe00000200\n";

/// The same of `select length(?), ?`.
const LENGTH_PREPARED: &[u8] = b"1700000203646566000000013f000c3f0000000000068000000000\n\
    1700000303646566000000013f000c3f0000000000068000000000\n\
    05000004fe00000200\n\
    1f00000503646566000000096c656e677468283f29000c3f000a000000038000000000\n\
    1700000603646566000000013f000c3f0000000000068000000000\n\
    05000007fe00000200\n";

/// The same of `select length(?)`.
const ONE_PREPARED: &[u8] = b"1700000203646566000000013f000c3f0000000000068000000000\n\
    05000003fe00000200\n\
    1f00000403646566000000096c656e677468283f29000c3f000a000000038000000000\n\
    05000005fe00000200\n";

/// The same of an insert of three parameters.
const INSERT_PREPARED: &[u8] = b"1700000203646566000000013f000c3f0000000000068000000000\n\
    1700000303646566000000013f000c3f0000000000068000000000\n\
    1700000403646566000000013f000c3f0000000000068000000000\n\
    05000005fe00000200\n";

/// The first part of a result of mysqli's first statement: the number of columns, their definitions, and an EOF.
const MYSQLI_HEAD: &[u8] = b"0100000104\n\
    1700000203646566000000013f000c3f0014000000088100000000\n\
    1700000303646566000000013f000c2d000c000000fd0100270000\n\
    1700000403646566000000013f000c3f0000000000068000000000\n\
    1700000503646566000000013f000c2d0028000000fd0100270000\n\
    05000006fe00000200\n";

/// The same of its second one.
const MYSQLI_LENGTH_HEAD: &[u8] = b"0100000102\n\
    1f00000203646566000000096c656e677468283f29000c3f000a000000038000000000\n\
    1700000303646566000000013f000c3f00170000000581001f0000\n\
    05000004fe00000200\n";

/// The first part of a result of PDO's statement.
const PDO_HEAD: &[u8] = b"0100000103\n\
    1700000203646566000000013f000c3f0014000000088100000000\n\
    1700000303646566000000013f000c2d0004000000fd0100270000\n\
    1700000403646566000000013f000c3f0000000000068000000000\n\
    05000005fe00000200\n";

/// The first part of a result of Connector/C's first statement.
const CONNECTOR_C_HEAD: &[u8] = b"0100000104\n\
    1700000203646566000000013f000c3f000b000000038100000000\n\
    1700000303646566000000013f000c2d000c000000fd0100270000\n\
    1700000403646566000000013f000c3f0000000000068000000000\n\
    1700000503646566000000013f000c3f000a0000000a8100000000\n\
    05000006fe00000200\n";

/// The same of its second one.
const CONNECTOR_C_LENGTH_HEAD: &[u8] = b"0100000102\n\
    1f00000203646566000000096c656e677468283f29000c3f000a000000038000000000\n\
    1700000303646566000000013f000c3f000b000000038100000000\n\
    05000004fe00000200\n";

/// The first part of a result of the statement of DBD::MariaDB.
const DBD_MARIADB_HEAD: &[u8] = b"0100000104\n\
    1700000203646566000000013f000c3f000b000000038100000000\n\
    1700000303646566000000013f000c2d0008000000fd0100270000\n\
    1700000403646566000000013f000c3f0000000000068000000000\n\
    1700000503646566000000013f000c2d0028000000fd0100270000\n\
    05000006fe00000200\n";

/// The first part of a result of the statement of DBD::mysql.
const DBD_MYSQL_HEAD: &[u8] = b"0100000104\n\
    1700000203646566000000013f000c3f0014000000088100000000\n\
    1700000303646566000000013f000c2d0008000000fd0100270000\n\
    1700000403646566000000013f000c3f0000000000068000000000\n\
    1700000503646566000000013f000c2d0028000000fd0100270000\n\
    05000006fe00000300\n";

/// The first part of a result of the statement of mysql2.
const MYSQL2_HEAD: &[u8] = b"0100000105\n\
    1700000203646566000000013f000c3f0014000000088100000000\n\
    1700000303646566000000013f000c2d0004000000fd0100270000\n\
    1700000403646566000000013f000c3f0000000000068000000000\n\
    1700000503646566000000013f000c3f000a0000000a8100000000\n\
    1700000603646566000000013f000c3f00170000000581001f0000\n\
    05000007fe00000200\n";

/// The same with a time.
const MYSQL2_TIME_HEAD: &[u8] = b"0100000105\n\
    1700000203646566000000013f000c3f0014000000088100000000\n\
    1700000303646566000000013f000c2d0004000000fd0100270000\n\
    1700000403646566000000013f000c3f0000000000068000000000\n\
    1700000503646566000000013f000c3f00130000000c8100000000\n\
    1700000603646566000000013f000c3f00170000000581001f0000\n\
    05000007fe00000200\n";

/// The first part of a result of the first statement of Go-MySQL-Driver.
const GO_HEAD: &[u8] = b"0100000105\n\
    1700000203646566000000013f000c3f0014000000088100000000\n\
    1700000303646566000000013f000c2d0008000000fd0100270000\n\
    1700000403646566000000013f000c3f0000000000068000000000\n\
    1700000503646566000000013f000c2d004c000000fd0100270000\n\
    1700000603646566000000013f000c3f00170000000581001f0000\n\
    05000007fe00000200\n";

/// The same of its second one.
const GO_SECOND_HEAD: &[u8] = b"0100000103\n\
    1700000203646566000000013f000c3f0014000000088100000000\n\
    1700000303646566000000013f000c2d0004000000fd0100270000\n\
    1700000403646566000000013f000c3f0000000000068000000000\n\
    05000005fe00000200\n";

/// The first part of a result of the first statement of Connector/J.
const CONNECTOR_J_HEAD: &[u8] = b"0100000104\n\
    1700000203646566000000013f000c3f000b000000038100000000\n\
    1700000303646566000000013f000c2d0008000000fd0100270000\n\
    1700000403646566000000013f000c3f0000000000068000000000\n\
    1700000503646566000000013f000c3f000a0000000a8100000000\n\
    05000006fe00000200\n";

/// The same of its third one.
const CONNECTOR_J_LENGTH_HEAD: &[u8] = b"0100000101\n\
    1f00000203646566000000096c656e677468283f29000c3f000a000000038000000000\n\
    05000003fe00000200\n";

/// mysqli of PHP: `select ?,?,?,?` three times, the third time after a reset. Then a statement with long data takes its place,
/// once in two pieces, and once where a reset takes a piece back.
pub const MYSQLI: &[Step] = &[
    Step::Line(b"observe 0=master:5 1=slave:5", b"observed\n"),
    Step::Line(b"begin 1 0", b""),
    Step::Line(
        b"client 1 0f0000001673656c656374203f2c3f2c3f2c3f",
        b"route 1\n\
        link 1 0f0000001673656c656374203f2c3f2c3f2c3f\n",
    ),
    // The primary knows the statement as 7, and the client is told 1.
    Step::Passed {
        line: b"link 1 0c000001000700000004000400000000",
        told: b"client 1 0c000001000100000004000400000000\n",
        packets: FOUR_PREPARED,
        behind: b"",
    },
    Step::Line(
        b"client 1 2b0000001701000000000100000004010800fd00fd00fd000700000000000000036162630a323032342d30352d3036",
        b"route 1\n\
        open 2 1 1\n",
    ),
    Step::Line(
        b"ready 2",
        b"link 2 0f0000001673656c656374203f2c3f2c3f2c3f\n",
    ),
    // The replica knows it as 9.
    Step::Silent {
        line: b"link 2 0c000001000900000004000400000000",
        packets: FOUR_PREPARED,
        printed: b"link 2 2b0000001709000000000100000004010800fd00fd00fd000700000000000000036162630a323032342d30352d3036\n",
    },
    Step::Passed {
        line: b"link 2 ",
        told: b"",
        packets: MYSQLI_HEAD,
        behind: b"",
    },
    Step::Line(
        b"link 2 1900000700100700000000000000036162630a323032342d30352d303605000008fe00000200",
        b"client 1 1900000700100700000000000000036162630a323032342d30352d3036\n\
        client 1 05000008fe00000200\n",
    ),
    // The client leaves the types out from now on.
    Step::Line(
        b"client 1 2200000017010000000001000000040008000000000000000264650a323032342d30352d3036",
        b"route 1\n\
        link 2 2a0000001709000000000100000004010800fd00fd00fd0008000000000000000264650a323032342d30352d3036\n",
    ),
    Step::Passed {
        line: b"link 2 ",
        told: b"",
        packets: MYSQLI_HEAD,
        behind: b"",
    },
    Step::Line(
        b"link 2 18000007001008000000000000000264650a323032342d30352d303605000008fe00000200",
        b"client 1 18000007001008000000000000000264650a323032342d30352d3036\n\
        client 1 05000008fe00000200\n",
    ),
    Step::Line(
        b"client 1 050000001a01000000",
        b"client 1 0700000100000002000000\n",
    ),
    Step::Line(
        b"client 1 2200000017010000000001000000040008000000000000000264650a323032342d30352d3036",
        b"route 1\n\
        link 2 2a0000001709000000000100000004010800fd00fd00fd0008000000000000000264650a323032342d30352d3036\n",
    ),
    Step::Passed {
        line: b"link 2 ",
        told: b"",
        packets: MYSQLI_HEAD,
        behind: b"",
    },
    Step::Line(
        b"link 2 18000007001008000000000000000264650a323032342d30352d303605000008fe00000200",
        b"client 1 18000007001008000000000000000264650a323032342d30352d3036\n\
        client 1 05000008fe00000200\n",
    ),
    // A close and the next prepare come in one piece. The number 1 is free again. Each server closes its id before the
    // prepare.
    Step::Line(
        b"client 1 050000001901000000140000001673656c656374206c656e677468283f292c203f",
        b"route 1\n\
        link 1 050000001907000000\n\
        link 1 140000001673656c656374206c656e677468283f292c203f\n",
    ),
    Step::Passed {
        line: b"link 1 0c000001000800000002000200000000",
        told: b"client 1 0c000001000100000002000200000000\n",
        packets: LENGTH_PREPARED,
        behind: b"link 2 050000001909000000\n\
        link 2 140000001673656c656374206c656e677468283f292c203f\n",
    },
    // The execute waits for the replica's answer to the prepare.
    Step::Line(
        b"client 1 0d0000001801000000000068656c6c6f200c00000018010000000000776f726c6418000000170100000000010000000101fb000500000000000000f83f",
        b"route 1\n",
    ),
    Step::Silent {
        line: b"link 2 0c000001000a00000002000200000000",
        packets: LENGTH_PREPARED,
        printed: b"link 2 0d000000180a000000000068656c6c6f20\n\
        link 2 0c000000180a0000000000776f726c64\n\
        link 2 18000000170a00000000010000000101fb000500000000000000f83f\n",
    },
    Step::Passed {
        line: b"link 2 ",
        told: b"",
        packets: MYSQLI_LENGTH_HEAD,
        behind: b"",
    },
    Step::Line(
        b"link 2 0e00000500000b000000000000000000f83f05000006fe00000200",
        b"client 1 0e00000500000b000000000000000000f83f\n\
        client 1 05000006fe00000200\n",
    ),
    Step::Line(
        b"client 1 09000000180100000000007878050000001a01000000",
        b"client 1 0700000100000002000000\n",
    ),
    Step::Line(
        b"client 1 0900000018010000000000797914000000170100000000010000000100000000000000f83f",
        b"route 1\n\
        link 2 09000000180a00000000007979\n\
        link 2 18000000170a00000000010000000101fb000500000000000000f83f\n",
    ),
    Step::Passed {
        line: b"link 2 ",
        told: b"",
        packets: MYSQLI_LENGTH_HEAD,
        behind: b"",
    },
    Step::Line(
        b"link 2 0e000005000002000000000000000000f83f05000006fe00000200",
        b"client 1 0e000005000002000000000000000000f83f\n\
        client 1 05000006fe00000200\n",
    ),
    Step::Line(b"", b"end 26\n"),
];

/// PDO of PHP: `select ?,?,?` twice, each time with types. It closes the statement as it leaves, which no server is told.
pub const PDO: &[Step] = &[
    Step::Line(b"observe 0=master:5 1=slave:5", b"observed\n"),
    Step::Line(b"begin 1 0", b""),
    Step::Line(
        b"client 1 0d0000001673656c656374203f2c3f2c3f",
        b"route 1\n\
        link 1 0d0000001673656c656374203f2c3f2c3f\n",
    ),
    Step::Passed {
        line: b"link 1 0c000001000700000003000300000000",
        told: b"client 1 0c000001000100000003000300000000\n",
        packets: THREE_PREPARED,
        behind: b"",
    },
    Step::Line(
        b"client 1 1c0000001701000000000100000004010800fd00060005000000000000000178",
        b"route 1\n\
        open 2 1 1\n",
    ),
    Step::Line(b"ready 2", b"link 2 0d0000001673656c656374203f2c3f2c3f\n"),
    Step::Silent {
        line: b"link 2 0c000001000900000003000300000000",
        packets: THREE_PREPARED,
        printed: b"link 2 1c0000001709000000000100000004010800fd00060005000000000000000178\n",
    },
    Step::Passed {
        line: b"link 2 ",
        told: b"",
        packets: PDO_HEAD,
        behind: b"",
    },
    Step::Line(
        b"link 2 0c00000600100500000000000000017805000007fe00000200",
        b"client 1 0c000006001005000000000000000178\n\
        client 1 05000007fe00000200\n",
    ),
    Step::Line(
        b"client 1 1c0000001701000000000100000004010800fd00060006000000000000000178",
        b"route 1\n\
        link 2 1c0000001709000000000100000004010800fd00060006000000000000000178\n",
    ),
    Step::Passed {
        line: b"link 2 ",
        told: b"",
        packets: PDO_HEAD,
        behind: b"",
    },
    Step::Line(
        b"link 2 0c00000600100600000000000000017805000007fe00000200",
        b"client 1 0c000006001006000000000000000178\n\
        client 1 05000007fe00000200\n",
    ),
    Step::Line(
        b"client 1 0500000019010000000100000001",
        b"close 1 quit\n\
        drop 1 end\n\
        drop 2 end\n",
    ),
    Step::Line(b"", b"end 13\n"),
];

/// MariaDB Connector/C: `select ?,?,?,?` three times, the third time after a reset; then `select length(?), ?` with long data in
/// two pieces. The replica's link is lost with the second execute.
pub const CONNECTOR_C: &[Step] = &[
    Step::Line(b"observe 0=master:5 1=slave:5", b"observed\n"),
    Step::Line(b"begin 1 0", b""),
    Step::Line(
        b"client 1 0f0000001673656c656374203f2c3f2c3f2c3f",
        b"route 1\n\
        link 1 0f0000001673656c656374203f2c3f2c3f2c3f\n",
    ),
    Step::Passed {
        line: b"link 1 0c000001000700000004000400000000",
        told: b"client 1 0c000001000100000004000400000000\n",
        packets: FOUR_PREPARED,
        behind: b"",
    },
    Step::Line(
        b"client 1 210000001701000000000100000004010300fe0006000a00070000000361626304e8070506",
        b"route 1\n\
        open 2 1 1\n",
    ),
    Step::Line(
        b"ready 2",
        b"link 2 0f0000001673656c656374203f2c3f2c3f2c3f\n",
    ),
    Step::Silent {
        line: b"link 2 0c000001000900000004000400000000",
        packets: FOUR_PREPARED,
        printed: b"link 2 210000001709000000000100000004010300fe0006000a00070000000361626304e8070506\n",
    },
    Step::Passed {
        line: b"link 2 ",
        told: b"",
        packets: CONNECTOR_C_HEAD,
        behind: b"",
    },
    Step::Line(
        b"link 2 0f0000070010070000000361626304e807050605000008fe00000200",
        b"client 1 0f0000070010070000000361626304e8070506\n\
        client 1 05000008fe00000200\n",
    ),
    Step::Line(
        b"client 1 19000000170100000000010000000400080000000361626304e8070506",
        b"route 1\n\
        link 2 210000001709000000000100000004010300fe0006000a00080000000361626304e8070506\n",
    ),
    // The execute goes to the primary, under its id and with the types, which its link has never seen.
    Step::Line(
        b"lost 2",
        b"route 1\n\
        link 1 210000001707000000000100000004010300fe0006000a00080000000361626304e8070506\n",
    ),
    Step::Passed {
        line: b"link 1 ",
        told: b"",
        packets: CONNECTOR_C_HEAD,
        behind: b"",
    },
    Step::Line(
        b"link 1 0f0000070010080000000361626304e807050605000008fe00000200",
        b"client 1 0f0000070010080000000361626304e8070506\n\
        client 1 05000008fe00000200\n",
    ),
    Step::Line(
        b"client 1 050000001a01000000",
        b"client 1 0700000100000002000000\n",
    ),
    // The next one goes to the replica again, on a new link with an id of its own.
    Step::Line(
        b"client 1 19000000170100000000010000000400090000000361626304e8070506",
        b"route 1\n\
        open 3 1 1\n",
    ),
    Step::Line(
        b"ready 3",
        b"link 3 0f0000001673656c656374203f2c3f2c3f2c3f\n",
    ),
    Step::Silent {
        line: b"link 3 0c000001000400000004000400000000",
        packets: FOUR_PREPARED,
        printed: b"link 3 210000001704000000000100000004010300fe0006000a00090000000361626304e8070506\n",
    },
    Step::Passed {
        line: b"link 3 ",
        told: b"",
        packets: CONNECTOR_C_HEAD,
        behind: b"",
    },
    Step::Line(
        b"link 3 0f0000070010090000000361626304e807050605000008fe00000200",
        b"client 1 0f0000070010090000000361626304e8070506\n\
        client 1 05000008fe00000200\n",
    ),
    Step::Line(
        b"client 1 050000001901000000140000001673656c656374206c656e677468283f292c203f",
        b"route 1\n\
        link 1 050000001907000000\n\
        link 1 140000001673656c656374206c656e677468283f292c203f\n",
    ),
    Step::Passed {
        line: b"link 1 0c000001000800000002000200000000",
        told: b"client 1 0c000001000100000002000200000000\n",
        packets: LENGTH_PREPARED,
        behind: b"link 3 050000001904000000\n\
        link 3 140000001673656c656374206c656e677468283f292c203f\n",
    },
    Step::Silent {
        line: b"link 3 0c000001000500000002000200000000",
        packets: LENGTH_PREPARED,
        printed: b"",
    },
    Step::Line(
        b"client 1 0d0000001801000000000068656c6c6f200c00000018010000000000776f726c6414000000170100000000010000000101fb00030009000000",
        b"route 1\n\
        link 3 0d0000001805000000000068656c6c6f20\n\
        link 3 0c00000018050000000000776f726c64\n\
        link 3 14000000170500000000010000000101fb00030009000000\n",
    ),
    Step::Passed {
        line: b"link 3 ",
        told: b"",
        packets: CONNECTOR_C_LENGTH_HEAD,
        behind: b"",
    },
    Step::Line(
        b"link 3 0a00000500000b0000000900000005000006fe00000200",
        b"client 1 0a00000500000b00000009000000\n\
        client 1 05000006fe00000200\n",
    ),
    Step::Line(
        b"client 1 050000001a01000000",
        b"client 1 0700000100000002000000\n",
    ),
    Step::Line(b"", b"end 26\n"),
];

/// MariaDB Connector/C as it is with a server that offers MariaDB's own capabilities: the prepare and the first execute come in
/// one piece, which calls the statement 0xFFFFFFFF.
pub const CONNECTOR_C_AT_ONCE: &[Step] = &[
    Step::Line(b"observe 0=master:5 1=slave:5", b"observed\n"),
    Step::Line(b"begin 1 0", b""),
    Step::Line(
        b"client 1 0f0000001673656c656374203f2c3f2c3f2c3f2100000017ffffffff000100000004010300fe0006000a00070000000361626304e8070506",
        b"route 1\n\
        link 1 0f0000001673656c656374203f2c3f2c3f2c3f\n",
    ),
    Step::Passed {
        line: b"link 1 0c000001000700000004000400000000",
        told: b"client 1 0c000001000100000004000400000000\n",
        packets: FOUR_PREPARED,
        behind: b"route 1\n\
        open 2 1 1\n",
    },
    Step::Line(
        b"ready 2",
        b"link 2 0f0000001673656c656374203f2c3f2c3f2c3f\n",
    ),
    Step::Silent {
        line: b"link 2 0c000001000900000004000400000000",
        packets: FOUR_PREPARED,
        printed: b"link 2 210000001709000000000100000004010300fe0006000a00070000000361626304e8070506\n",
    },
    Step::Passed {
        line: b"link 2 ",
        told: b"",
        packets: CONNECTOR_C_HEAD,
        behind: b"",
    },
    Step::Line(
        b"link 2 0f0000070010070000000361626304e807050605000008fe00000200",
        b"client 1 0f0000070010070000000361626304e8070506\n\
        client 1 05000008fe00000200\n",
    ),
    Step::Line(
        b"client 1 19000000170100000000010000000400080000000361626304e8070506",
        b"route 1\n\
        link 2 210000001709000000000100000004010300fe0006000a00080000000361626304e8070506\n",
    ),
    Step::Passed {
        line: b"link 2 ",
        told: b"",
        packets: CONNECTOR_C_HEAD,
        behind: b"",
    },
    Step::Line(
        b"link 2 0f0000070010080000000361626304e807050605000008fe00000200",
        b"client 1 0f0000070010080000000361626304e8070506\n\
        client 1 05000008fe00000200\n",
    ),
    Step::Line(
        b"client 1 050000001a01000000",
        b"client 1 0700000100000002000000\n",
    ),
    Step::Line(
        b"client 1 19000000170100000000010000000400090000000361626304e8070506",
        b"route 1\n\
        link 2 210000001709000000000100000004010300fe0006000a00090000000361626304e8070506\n",
    ),
    Step::Passed {
        line: b"link 2 ",
        told: b"",
        packets: CONNECTOR_C_HEAD,
        behind: b"",
    },
    Step::Line(
        b"link 2 0f0000070010090000000361626304e807050605000008fe00000200",
        b"client 1 0f0000070010090000000361626304e8070506\n\
        client 1 05000008fe00000200\n",
    ),
    Step::Line(b"", b"end 15\n"),
];

/// DBD::MariaDB: `select ?,?,?,?` twice. What it sends at connect keeps the session at the primary, so there is no other link,
/// and nothing is routed.
pub const DBD_MARIADB: &[Step] = &[
    Step::Line(b"observe 0=master:5 1=slave:5", b"observed\n"),
    Step::Line(b"begin 1 0", b""),
    Step::Line(
        b"client 1 2500000003534554206368617261637465725f7365745f736572766572203d2027757466386d623427",
        b"route 1\n\
        link 1 2500000003534554206368617261637465725f7365745f736572766572203d2027757466386d623427\n",
    ),
    Step::Line(
        b"link 1 0700000100000002000000",
        b"client 1 0700000100000002000000\n",
    ),
    Step::Line(
        b"client 1 0f0000001673656c656374203f2c3f2c3f2c3f",
        b"link 1 0f0000001673656c656374203f2c3f2c3f2c3f\n",
    ),
    Step::Passed {
        line: b"link 1 0c000001000700000004000400000000",
        told: b"client 1 0c000001000100000004000400000000\n",
        packets: FOUR_PREPARED,
        behind: b"",
    },
    Step::Line(
        b"client 1 260000001701000000000100000004010300fe000600fe00050000000261620a323032342d30352d3036",
        b"link 1 260000001707000000000100000004010300fe000600fe00050000000261620a323032342d30352d3036\n",
    ),
    Step::Passed {
        line: b"link 1 ",
        told: b"",
        packets: DBD_MARIADB_HEAD,
        behind: b"",
    },
    Step::Line(
        b"link 1 140000070010050000000261620a323032342d30352d303605000008fe00000200",
        b"client 1 140000070010050000000261620a323032342d30352d3036\n\
        client 1 05000008fe00000200\n",
    ),
    Step::Line(
        b"client 1 260000001701000000000100000004010300fe000600fe00060000000261620a323032342d30352d3036",
        b"link 1 260000001707000000000100000004010300fe000600fe00060000000261620a323032342d30352d3036\n",
    ),
    Step::Passed {
        line: b"link 1 ",
        told: b"",
        packets: DBD_MARIADB_HEAD,
        behind: b"",
    },
    Step::Line(
        b"link 1 140000070010060000000261620a323032342d30352d303605000008fe00000200",
        b"client 1 140000070010060000000261620a323032342d30352d3036\n\
        client 1 05000008fe00000200\n",
    ),
    Step::Line(
        b"client 1 0500000019010000000d0000001673656c656374203f2c3f2c3f",
        b"link 1 050000001907000000\n\
        link 1 0d0000001673656c656374203f2c3f2c3f\n",
    ),
    Step::Line(b"", b"end 13\n"),
];

/// DBD::mysql: `select ?,?,?,?` twice, in a transaction, in which the statement is closed too. It leaves when the transaction
/// ends: no other link prepares it, and the primary closes its id then.
pub const DBD_MYSQL: &[Step] = &[
    Step::Line(b"observe 0=master:5 1=slave:5", b"observed\n"),
    Step::Line(b"begin 1 0", b""),
    Step::Line(
        b"client 1 0600000003626567696e",
        b"route 1\n\
        link 1 0600000003626567696e\n",
    ),
    Step::Line(
        b"link 1 0700000100000003000000",
        b"client 1 0700000100000003000000\n",
    ),
    Step::Line(
        b"client 1 0f0000001673656c656374203f2c3f2c3f2c3f",
        b"link 1 0f0000001673656c656374203f2c3f2c3f2c3f\n",
    ),
    Step::Passed {
        line: b"link 1 0c000001000700000004000400000000",
        told: b"client 1 0c000001000100000004000400000000\n",
        packets: FOUR_PREPARED,
        behind: b"",
    },
    Step::Line(
        b"client 1 2a0000001701000000000100000004010800fe00fe00fc0005000000000000000261620a323032342d30352d3036",
        b"link 1 2a0000001707000000000100000004010800fe00fe00fc0005000000000000000261620a323032342d30352d3036\n",
    ),
    Step::Passed {
        line: b"link 1 ",
        told: b"",
        packets: DBD_MYSQL_HEAD,
        behind: b"",
    },
    Step::Line(
        b"link 1 18000007001005000000000000000261620a323032342d30352d303605000008fe00000300",
        b"client 1 18000007001005000000000000000261620a323032342d30352d3036\n\
        client 1 05000008fe00000300\n",
    ),
    Step::Line(
        b"client 1 2200000017010000000001000000040006000000000000000261620a323032342d30352d3036",
        b"link 1 2a0000001707000000000100000004010800fe00fe00fc0006000000000000000261620a323032342d30352d3036\n",
    ),
    Step::Passed {
        line: b"link 1 ",
        told: b"",
        packets: DBD_MYSQL_HEAD,
        behind: b"",
    },
    Step::Line(
        b"link 1 18000007001006000000000000000261620a323032342d30352d303605000008fe00000300",
        b"client 1 18000007001006000000000000000261620a323032342d30352d3036\n\
        client 1 05000008fe00000300\n",
    ),
    Step::Line(
        b"client 1 0500000019010000000700000003636f6d6d6974",
        b"link 1 0700000003636f6d6d6974\n",
    ),
    Step::Line(
        b"link 1 0700000100000002000000",
        b"client 1 0700000100000002000000\n",
    ),
    Step::Line(
        b"client 1 100000000373656c65637420612066726f6d2074",
        b"route 1\n\
        open 2 1 1\n",
    ),
    Step::Line(
        b"ready 2",
        b"link 2 100000000373656c65637420612066726f6d2074\n",
    ),
    Step::Line(
        b"link 2 0700000100000002000000",
        b"client 1 0700000100000002000000\n",
    ),
    Step::Line(
        b"client 1 0e0000000364656c6574652066726f6d2074",
        b"route 1\n\
        link 1 050000001907000000\n\
        link 1 0e0000000364656c6574652066726f6d2074\n",
    ),
    Step::Line(b"", b"end 18\n"),
];

/// mysql2 of Ruby: `select ?,?,?,?,?` twice, the fourth time a date and a time. The replica prepares the statement with other
/// columns than the client was told, and serves no reads of the session any more.
pub const MYSQL2: &[Step] = &[
    Step::Line(b"observe 0=master:5 1=slave:5", b"observed\n"),
    Step::Line(b"begin 1 0", b""),
    Step::Line(
        b"client 1 110000001673656c656374203f2c3f2c3f2c3f2c3f",
        b"route 1\n\
        link 1 110000001673656c656374203f2c3f2c3f2c3f2c3f\n",
    ),
    Step::Passed {
        line: b"link 1 0c000001000700000005000500000000",
        told: b"client 1 0c000001000100000005000500000000\n",
        packets: FIVE_PREPARED,
        behind: b"",
    },
    Step::Line(
        b"client 1 2d0000001701000000000100000004010800fe0006000a0005000100000000000000016104e8070506000000000000f83f",
        b"route 1\n\
        open 2 1 1\n",
    ),
    Step::Line(
        b"ready 2",
        b"link 2 110000001673656c656374203f2c3f2c3f2c3f2c3f\n",
    ),
    Step::Silent {
        line: b"link 2 0c000001000900000004000400000000",
        packets: FOUR_PREPARED,
        printed: b"drop 2 session-differs\n\
        route 1\n\
        link 1 2d0000001707000000000100000004010800fe0006000a0005000100000000000000016104e8070506000000000000f83f\n",
    },
    Step::Passed {
        line: b"link 1 ",
        told: b"",
        packets: MYSQL2_HEAD,
        behind: b"",
    },
    Step::Line(
        b"link 1 1900000800100100000000000000016104e8070506000000000000f83f05000009fe00000200",
        b"client 1 1900000800100100000000000000016104e8070506000000000000f83f\n\
        client 1 05000009fe00000200\n",
    ),
    Step::Line(
        b"client 1 2d0000001701000000000100000004010800fe0006000c0005000200000000000000016204b20701010000000000000440",
        b"route 1\n\
        link 1 2d0000001707000000000100000004010800fe0006000c0005000200000000000000016204b20701010000000000000440\n",
    ),
    Step::Passed {
        line: b"link 1 ",
        told: b"",
        packets: MYSQL2_TIME_HEAD,
        behind: b"",
    },
    Step::Line(
        b"link 1 1900000800100200000000000000016204b2070101000000000000044005000009fe00000200",
        b"client 1 1900000800100200000000000000016204b20701010000000000000440\n\
        client 1 05000009fe00000200\n",
    ),
    Step::Line(b"", b"end 12\n"),
];

/// Go-MySQL-Driver: `select ?,?,?,?,?`, which it closes, and then `select ?,?,?` twice. A third statement is closed before the
/// replica has answered its prepare.
pub const GO: &[Step] = &[
    Step::Line(b"observe 0=master:5 1=slave:5", b"observed\n"),
    Step::Line(b"begin 1 0", b""),
    Step::Line(
        b"client 1 110000001673656c656374203f2c3f2c3f2c3f2c3f",
        b"route 1\n\
        link 1 110000001673656c656374203f2c3f2c3f2c3f2c3f\n",
    ),
    Step::Passed {
        line: b"link 1 0c000001000700000005000500000000",
        told: b"client 1 0c000001000100000005000500000000\n",
        packets: FIVE_PREPARED,
        behind: b"",
    },
    Step::Line(
        b"client 1 3d0000001701000000000100000004010800fe000600fe000500050000000000000002616213323032342d30352d30362030303a30303a3030000000000000f83f",
        b"route 1\n\
        open 2 1 1\n",
    ),
    Step::Line(
        b"ready 2",
        b"link 2 110000001673656c656374203f2c3f2c3f2c3f2c3f\n",
    ),
    Step::Silent {
        line: b"link 2 0c000001000900000005000500000000",
        packets: FIVE_PREPARED,
        printed: b"link 2 3d0000001709000000000100000004010800fe000600fe000500050000000000000002616213323032342d30352d30362030303a30303a3030000000000000f83f\n",
    },
    Step::Passed {
        line: b"link 2 ",
        told: b"",
        packets: GO_HEAD,
        behind: b"",
    },
    Step::Line(
        b"link 2 290000080010050000000000000002616213323032342d30352d30362030303a30303a3030000000000000f83f05000009fe00000200",
        b"client 1 290000080010050000000000000002616213323032342d30352d30362030303a30303a3030000000000000f83f\n\
        client 1 05000009fe00000200\n",
    ),
    Step::Line(b"client 1 050000001901000000", b""),
    Step::Line(
        b"client 1 0d0000001673656c656374203f2c3f2c3f",
        b"route 1\n\
        link 1 050000001907000000\n\
        link 1 0d0000001673656c656374203f2c3f2c3f\n",
    ),
    Step::Passed {
        line: b"link 1 0c000001000800000003000300000000",
        told: b"client 1 0c000001000100000003000300000000\n",
        packets: THREE_PREPARED,
        behind: b"link 2 050000001909000000\n\
        link 2 0d0000001673656c656374203f2c3f2c3f\n",
    },
    Step::Silent {
        line: b"link 2 0c000001000a00000003000300000000",
        packets: THREE_PREPARED,
        printed: b"",
    },
    Step::Line(
        b"client 1 1c0000001701000000000100000004010800fe00060001000000000000000161",
        b"route 1\n\
        link 2 1c000000170a000000000100000004010800fe00060001000000000000000161\n",
    ),
    Step::Passed {
        line: b"link 2 ",
        told: b"",
        packets: GO_SECOND_HEAD,
        behind: b"",
    },
    Step::Line(
        b"link 2 0c00000600100100000000000000016105000007fe00000200",
        b"client 1 0c000006001001000000000000000161\n\
        client 1 05000007fe00000200\n",
    ),
    Step::Line(
        b"client 1 1c0000001701000000000100000004010800fe00060002000000000000000162",
        b"route 1\n\
        link 2 1c000000170a000000000100000004010800fe00060002000000000000000162\n",
    ),
    Step::Passed {
        line: b"link 2 ",
        told: b"",
        packets: GO_SECOND_HEAD,
        behind: b"",
    },
    Step::Line(
        b"link 2 0c00000600100200000000000000016205000007fe00000200",
        b"client 1 0c000006001002000000000000000162\n\
        client 1 05000007fe00000200\n",
    ),
    // The third statement has the number 1, as the others had before it.
    Step::Line(
        b"client 1 050000001901000000110000001673656c656374203f2c3f2c3f2c3f2c3f",
        b"route 1\n\
        link 1 050000001908000000\n\
        link 1 110000001673656c656374203f2c3f2c3f2c3f2c3f\n",
    ),
    Step::Passed {
        line: b"link 1 0c000001000b00000005000500000000",
        told: b"client 1 0c000001000100000005000500000000\n",
        packets: FIVE_PREPARED,
        behind: b"link 2 05000000190a000000\n\
        link 2 110000001673656c656374203f2c3f2c3f2c3f2c3f\n",
    },
    Step::Line(
        b"client 1 050000001901000000100000000373656c65637420612066726f6d2074",
        b"route 1\n",
    ),
    // The id that comes for it is closed as soon as it is known.
    Step::Silent {
        line: b"link 2 0c000001000c00000005000500000000",
        packets: FIVE_PREPARED,
        printed: b"link 2 05000000190c000000\n\
        link 2 100000000373656c65637420612066726f6d2074\n",
    },
    Step::Line(b"", b"end 23\n"),
];

/// MariaDB Connector/J, which keeps its statements: `select ?,?,?,?` twice, `insert into test.t values (?,?,?)` twice, the
/// second time without types, and `select length(?)` with long data. In the capture each had the number 1; here they are the
/// session's 1, 2 and 3.
pub const CONNECTOR_J: &[Step] = &[
    Step::Line(b"observe 0=master:5 1=slave:5", b"observed\n"),
    Step::Line(b"begin 1 0", b""),
    Step::Line(
        b"client 1 0f0000001673656c656374203f2c3f2c3f2c3f",
        b"route 1\n\
        link 1 0f0000001673656c656374203f2c3f2c3f2c3f\n",
    ),
    Step::Passed {
        line: b"link 1 0c000001000700000004000400000000",
        told: b"client 1 0c000001000100000004000400000000\n",
        packets: FOUR_PREPARED,
        behind: b"",
    },
    Step::Line(
        b"client 1 2300000017010000000001000000040103000f0006000a000500000002616207e8070506000000",
        b"route 1\n\
        open 2 1 1\n",
    ),
    Step::Line(
        b"ready 2",
        b"link 2 0f0000001673656c656374203f2c3f2c3f2c3f\n",
    ),
    Step::Silent {
        line: b"link 2 0c000001000900000004000400000000",
        packets: FOUR_PREPARED,
        printed: b"link 2 2300000017090000000001000000040103000f0006000a000500000002616207e8070506000000\n",
    },
    Step::Passed {
        line: b"link 2 ",
        told: b"",
        packets: CONNECTOR_J_HEAD,
        behind: b"",
    },
    Step::Line(
        b"link 2 0e00000700100500000002616204e807050605000008fe00000200",
        b"client 1 0e00000700100500000002616204e8070506\n\
        client 1 05000008fe00000200\n",
    ),
    Step::Line(
        b"client 1 2300000017010000000001000000040103000f0006000a000600000002616207e8070506000000",
        b"route 1\n\
        link 2 2300000017090000000001000000040103000f0006000a000600000002616207e8070506000000\n",
    ),
    Step::Passed {
        line: b"link 2 ",
        told: b"",
        packets: CONNECTOR_J_HEAD,
        behind: b"",
    },
    Step::Line(
        b"link 2 0e00000700100600000002616204e807050605000008fe00000200",
        b"client 1 0e00000700100600000002616204e8070506\n\
        client 1 05000008fe00000200\n",
    ),
    // The insert is prepared on both links, and executed at the primary.
    Step::Line(
        b"client 1 2200000016696e7365727420696e746f20746573742e742076616c75657320283f2c3f2c3f29",
        b"route 1\n\
        link 1 2200000016696e7365727420696e746f20746573742e742076616c75657320283f2c3f2c3f29\n",
    ),
    Step::Passed {
        line: b"link 1 0c000001000800000000000300000000",
        told: b"client 1 0c000001000200000000000300000000\n",
        packets: INSERT_PREPARED,
        behind: b"link 2 2200000016696e7365727420696e746f20746573742e742076616c75657320283f2c3f2c3f29\n",
    },
    Step::Silent {
        line: b"link 2 0c000001000a00000000000300000000",
        packets: INSERT_PREPARED,
        printed: b"",
    },
    Step::Line(
        b"client 1 1c000000170200000000010000000001030003000f002d0100002d0100000178",
        b"route 1\n\
        link 1 1c000000170800000000010000000001030003000f002d0100002d0100000178\n",
    ),
    Step::Line(
        b"link 1 1b0000010001000240000000120010096c6173745f6774696405302d312d37",
        b"record 0 0-1-7\n\
        client 1 0700000100010002000000\n",
    ),
    Step::Line(
        b"client 1 160000001702000000000100000000002e0100002e0100000178",
        b"route 1\n\
        link 1 1c000000170800000000010000000001030003000f002e0100002e0100000178\n",
    ),
    Step::Line(
        b"link 1 0700000100010002000000",
        b"client 1 0700000100010002000000\n",
    ),
    Step::Line(
        b"client 1 110000001673656c656374206c656e677468283f29",
        b"route 1\n\
        link 1 110000001673656c656374206c656e677468283f29\n",
    ),
    Step::Passed {
        line: b"link 1 0c000001000900000001000100000000",
        told: b"client 1 0c000001000300000001000100000000\n",
        packets: ONE_PREPARED,
        behind: b"link 2 110000001673656c656374206c656e677468283f29\n",
    },
    Step::Silent {
        line: b"link 2 0c000001000b00000001000100000000",
        packets: ONE_PREPARED,
        printed: b"",
    },
    // The replica isn't known to have the commit of the insert, and waits for it before each of the reads.
    Step::Line(
        b"client 1 0a000000180300000000004142430e000000170300000000010000000001fc00",
        b"route 1\n\
        link 2 250000000353454c454354204d41535445525f475449445f574149542827302d312d37272c20313029\n",
    ),
    Step::Line(
        b"link 2 010000010117000002036465660000000161000c2d000a000000fd000000000005000003fe0000020002000004013005000005fe00000200",
        b"link 2 0a000000180b0000000000414243\n\
        link 2 0e000000170b00000000010000000001fc00\n",
    ),
    Step::Passed {
        line: b"link 2 ",
        told: b"",
        packets: CONNECTOR_J_LENGTH_HEAD,
        behind: b"",
    },
    Step::Line(
        b"link 2 0600000400000300000005000005fe00000200",
        b"client 1 06000004000003000000\n\
        client 1 05000005fe00000200\n",
    ),
    // Two are closed in another order than they were opened: their ids go in rising order.
    Step::Line(
        b"client 1 050000001903000000050000001901000000100000000373656c65637420612066726f6d2074",
        b"route 1\n\
        link 2 050000001909000000\n\
        link 2 05000000190b000000\n\
        link 2 250000000353454c454354204d41535445525f475449445f574149542827302d312d37272c20313029\n",
    ),
    Step::Line(
        b"link 2 010000010117000002036465660000000161000c2d000a000000fd000000000005000003fe0000020002000004013005000005fe00000200",
        b"link 2 100000000373656c65637420612066726f6d2074\n",
    ),
    Step::Line(b"", b"end 28\n"),
];
