//! Logins as connectors of Debian 12 made them, captured before MariaDB 10.11.19. To the clients its greeting was changed into
//! the one that a front gives: its version, capabilities, character set and status, with the server's scramble.

use super::tests::connect;
use super::*;
use rws_native::{Stage1, stage1_of};
use rws_wire::{CloseReason, Text};
use std::alloc::{AllocError, Global};
use std::test::Fail;

/// A login: the scramble that the client was given, the packets that it sent, and what is kept of it.
struct Row {
    scramble: [u8; 20],
    client: &'static [u8],
    database: Option<&'static [u8]>,
    charset: u8,
    flags: u32,
}

/// Logins of `app`, which has no password, to no database.
const WITHOUT_PASSWORD: [Row; 13] = [
    // MariaDB's command-line client.
    Row {
        scramble: *b"_`Cm}KA@_=Sj;(VV0*#o",
        client: b"\xbb\x00\x00\x01\x85\xa2\xbf\x00\x00\x00\x10\x00!\x00\x00\x00\x00\x00\x00\x00\x00\x00\x00\x00\x00\x00\
            \x00\x00\x00\x00\x00\x00\x00\x00\x00\x00app\x00\x00mysql_native_password\x00\x7f\x03_os\x05Linux\x0c_clie\
            nt_name\x0alibmariadb\x04_pid\x0517112\x0f_client_version\x063.3.20\x09_platform\x06x86_64\x0cprogram_nam\
            e\x05mysql\x0c_server_host\x09127.0.0.1",
        database: None,
        charset: 33,
        flags: 0x003E_A205,
    },
    // PyMySQL.
    Row {
        scramble: *b"eo|E~l#dQJ^zj$r3GJ|T",
        client: b"r\x00\x00\x01\x05\xa2:\x00\xff\xff\xff\x00-\x00\x00\x00\x00\x00\x00\x00\x00\x00\x00\x00\x00\x00\x00\x00\
            \x00\x00\x00\x00\x00\x00\x00\x00app\x00\x00mysql_native_password\x006\x0c_client_name\x07pymysql\x04_pid\
            \x0517064\x0f_client_version\x051.0.2",
        database: None,
        charset: 45,
        flags: 0x003A_A205,
    },
    // mysqlclient.
    Row {
        scramble: *b"yep\"Ug''0\\^Cq3FHu5GG",
        client: b"\xa8\x00\x00\x01\x85\xa2\xbe\x00\x00\x00\x10\x00-\x00\x00\x00\x00\x00\x00\x00\x00\x00\x00\x00\x00\x00\
            \x00\x00\x00\x00\x00\x00\x00\x00\x00\x00app\x00\x00mysql_native_password\x00l\x03_os\x05Linux\x0c_client_\
            name\x0alibmariadb\x04_pid\x0517064\x0f_client_version\x063.3.20\x09_platform\x06x86_64\x0c_server_host\
            \x09127.0.0.1",
        database: None,
        charset: 45,
        flags: 0x003E_A205,
    },
    // mysqli of PHP.
    Row {
        scramble: *b"n,0KiM&t;dgXeq*xAzei",
        client: b"h\x00\x00\x01\x85\xa2\x1a\x00\x00\x00\x00\xc0-\x00\x00\x00\x00\x00\x00\x00\x00\x00\x00\x00\x00\x00\x00\
            \x00\x00\x00\x00\x00\x00\x00\x00\x00app\x00\x00mysql_native_password\x00,\x0c_client_name\x07mysqlnd\x0c_\
            server_host\x09127.0.0.1",
        database: None,
        charset: 45,
        flags: 0x001A_A205,
    },
    // DBD::MariaDB.
    Row {
        scramble: *b"YPg5pV@ycdL.B?UnIb3r",
        client: b"\xa8\x00\x00\x01\x87\xa2\xbe\x80\x00\x00\x10\x00-\x00\x00\x00\x00\x00\x00\x00\x00\x00\x00\x00\x00\x00\
            \x00\x00\x00\x00\x00\x00\x00\x00\x00\x00app\x00\x00mysql_native_password\x00l\x03_os\x05Linux\x0c_client_\
            name\x0alibmariadb\x04_pid\x0512561\x0f_client_version\x063.3.20\x09_platform\x06x86_64\x0c_server_host\
            \x09127.0.0.1",
        database: None,
        charset: 45,
        flags: 0x003E_A207,
    },
    // DBD::mysql.
    Row {
        scramble: *b"nS6T#N@5+s%\\\"3v}1y1$",
        client: b"\xc1\x00\x00\x01\x87\xa2\xbe\x00\x00\x00\x10\x00-\x00\x00\x00\x00\x00\x00\x00\x00\x00\x00\x00\x00\x00\
            \x00\x00\x00\x00\x00\x00\x00\x00\x00\x00app\x00\x00mysql_native_password\x00\x85\x03_os\x05Linux\x0c_clie\
            nt_name\x0alibmariadb\x04_pid\x0512561\x0f_client_version\x063.3.20\x09_platform\x06x86_64\x0cprogram_nam\
            e\x0bfin/perl.pl\x0c_server_host\x09127.0.0.1",
        database: None,
        charset: 45,
        flags: 0x003E_A207,
    },
    // mysql2 of Ruby.
    Row {
        scramble: *b"?0stk?73=tU.\"]3%^+[f",
        client: b"\xbe\x00\x00\x01\x85\xa2\xbe\x80\x00\x00\x10\x00!\x00\x00\x00\x00\x00\x00\x00\x00\x00\x00\x00\x00\x00\
            \x00\x00\x00\x00\x00\x00\x00\x00\x00\x00app\x00\x00mysql_native_password\x00\x82\x03_os\x05Linux\x0c_clie\
            nt_name\x0alibmariadb\x04_pid\x0512617\x0f_client_version\x063.3.20\x09_platform\x06x86_64\x0cprogram_nam\
            e\x08fin/m.rb\x0c_server_host\x09127.0.0.1",
        database: None,
        charset: 33,
        flags: 0x003E_A205,
    },
    // Go-MySQL-Driver.
    Row {
        scramble: *b"6T$SW=ixB~tMa\"\"\"&9)`",
        client: b";\x00\x00\x01\x85\xa2\x0a\x00\x00\x00\x00\x00-\x00\x00\x00\x00\x00\x00\x00\x00\x00\x00\x00\x00\x00\x00\
            \x00\x00\x00\x00\x00\x00\x00\x00\x00app\x00\x00mysql_native_password\x00",
        database: None,
        charset: 45,
        flags: 0x000A_A205,
    },
    // mymysql of Go.
    Row {
        scramble: *b"SIR@)K~X~4&_0n\\bUf~f",
        client: b"%\x00\x00\x01\x05\xa2\x03\x00\xff\xff\xff\x00-\x00\x00\x00\x00\x00\x00\x00\x00\x00\x00\x00\x00\x00\x00\
            \x00\x00\x00\x00\x00\x00\x00\x00\x00app\x00\x00",
        database: None,
        charset: 45,
        flags: 0x0002_A205,
    },
    // mysqljs/mysql, to which no database was named.
    Row {
        scramble: *b"jk]m0CCbGzRkCL6h,<-h",
        client: b"&\x00\x00\x01\xcf\xf3\x06\x00\x00\x00\x00\x00!\x00\x00\x00\x00\x00\x00\x00\x00\x00\x00\x00\x00\x00\x00\
            \x00\x00\x00\x00\x00\x00\x00\x00\x00app\x00\x00\x00",
        database: Some(b""),
        charset: 33,
        flags: 0x0006_A30F,
    },
    // MariaDB Connector/J.
    Row {
        scramble: *b"HGke;6=n3Ov%PEGt4C6$",
        client: b"\xd3\x00\x00\x01\x82\xa3\xbe\x00\x00\x00\x00@-\x00\x00\x00\x00\x00\x00\x00\x00\x00\x00\x00\x00\x00\x00\
            \x00\x00\x00\x00\x00\x00\x00\x00\x00app\x00\x00mysql_native_password\x00\x97\x0c_client_name\x13MariaDB C\
            onnector/J\x0f_client_version\x052.7.6\x0c_server_host\x09127.0.0.1\x03_os\x05Linux\x04_pid\x0515083\x07_\
            thread\x011\x0c_java_vendor\x06Debian\x0d_java_version\x0717.0.15",
        database: None,
        charset: 45,
        flags: 0x003E_A302,
    },
    // MariaDB Connector/C.
    Row {
        scramble: *b"/kO)~aI,<)WZ@n++6j6j",
        client: b"\xa8\x00\x00\x01\x85\xa2\xbe\x00\x00\x00\x10\x00-\x00\x00\x00\x00\x00\x00\x00\x00\x00\x00\x00\x00\x00\
            \x00\x00\x00\x00\x00\x00\x00\x00\x00\x00app\x00\x00mysql_native_password\x00l\x03_os\x05Linux\x0c_client_\
            name\x0alibmariadb\x04_pid\x0517217\x0f_client_version\x063.3.20\x09_platform\x06x86_64\x0c_server_host\
            \x09127.0.0.1",
        database: None,
        charset: 45,
        flags: 0x003E_A205,
    },
    // MariaDB Connector/ODBC.
    Row {
        scramble: *b"gdDfRK^vY;W&V^X}/kR6",
        client: b"\xa7\x00\x00\x01\x85\xa2\xbe\x00\x00\x00\x10\x00-\x00\x00\x00\x00\x00\x00\x00\x00\x00\x00\x00\x00\x00\
            \x00\x00\x00\x00\x00\x00\x00\x00\x00\x00app\x00\x00mysql_native_password\x00k\x03_os\x05Linux\x0c_client_\
            name\x0alibmariadb\x04_pid\x049762\x0f_client_version\x063.3.20\x09_platform\x06x86_64\x0c_server_host\
            \x09127.0.0.1",
        database: None,
        charset: 45,
        flags: 0x003E_A205,
    },
];

/// Logins of `sec` to the database `test`.
const WITH_PASSWORD: [Row; 14] = [
    // MariaDB's command-line client.
    Row {
        scramble: *b"'C],`\"%5vuh-DM8nCBcJ",
        client: b"\xd4\x00\x00\x01\x8d\xa2\xbf\x00\x00\x00\x10\x00!\x00\x00\x00\x00\x00\x00\x00\x00\x00\x00\x00\x00\x00\
            \x00\x00\x00\x00\x00\x00\x00\x00\x00\x00sec\x00\x14\x1f\x99\x13\xd7I\xbf\xddm\x9b(\x8f\x8b\xa7\xca!\x9e\
            \xe7\xac\xbd\x1atest\x00mysql_native_password\x00\x7f\x03_os\x05Linux\x0c_client_name\x0alibmariadb\x04_p\
            id\x0517115\x0f_client_version\x063.3.20\x09_platform\x06x86_64\x0cprogram_name\x05mysql\x0c_server_host\
            \x09127.0.0.1",
        database: Some(b"test"),
        charset: 33,
        flags: 0x003E_A20D,
    },
    // The same, where the user's plugin is named to it.
    Row {
        scramble: *b"[bYxrR$Zzvdp*xB~vW0&",
        client: b"\xb9\x00\x00\x01\x8d\xa2\xbf\x00\x00\x00\x10\x00!\x00\x00\x00\x00\x00\x00\x00\x00\x00\x00\x00\x00\x00\
            \x00\x00\x00\x00\x00\x00\x00\x00\x00\x00sec\x00\x00test\x00client_ed25519\x00\x7f\x03_os\x05Linux\x0c_cli\
            ent_name\x0alibmariadb\x04_pid\x0517121\x0f_client_version\x063.3.20\x09_platform\x06x86_64\x0cprogram_na\
            me\x05mysql\x0c_server_host\x09127.0.0.1\x14\x00\x00\x03\xec\x11\xdb\x89\xfe\x88{7\x95\x8f\xce;I\xa5g\x1b\
            \xa1\xa9\xf6~",
        database: Some(b"test"),
        charset: 33,
        flags: 0x003E_A20D,
    },
    // PyMySQL.
    Row {
        scramble: *b"$'6{,e:/{@k}R_ipu|1|",
        client: b"\x8b\x00\x00\x01\x0d\xa2:\x00\xff\xff\xff\x00-\x00\x00\x00\x00\x00\x00\x00\x00\x00\x00\x00\x00\x00\x00\
            \x00\x00\x00\x00\x00\x00\x00\x00\x00sec\x00\x14\x95\xbf\x87,\xa8L\xaaP)9\x12)\xdc\xe6\xcc\xbe\xd9\x99\x80\
            ytest\x00mysql_native_password\x006\x0c_client_name\x07pymysql\x04_pid\x0517064\x0f_client_version\x051.0\
            .2",
        database: Some(b"test"),
        charset: 45,
        flags: 0x003A_A20D,
    },
    // mysqlclient.
    Row {
        scramble: *b"6wtblx9N_p8es5JTJUKW",
        client: b"\xc1\x00\x00\x01\x8d\xa2\xbe\x00\x00\x00\x10\x00-\x00\x00\x00\x00\x00\x00\x00\x00\x00\x00\x00\x00\x00\
            \x00\x00\x00\x00\x00\x00\x00\x00\x00\x00sec\x00\x14\xc2\x80\x04\x0a\xf6\xc4\xa6\xfbLi\x1d\x1d\x08\xdd\x84\
            3]\"\xb5\xbetest\x00mysql_native_password\x00l\x03_os\x05Linux\x0c_client_name\x0alibmariadb\x04_pid\x051\
            7064\x0f_client_version\x063.3.20\x09_platform\x06x86_64\x0c_server_host\x09127.0.0.1",
        database: Some(b"test"),
        charset: 45,
        flags: 0x003E_A20D,
    },
    // mysqli of PHP.
    Row {
        scramble: *b"xY30:oA835S~E{[8D+Lz",
        client: b"\x81\x00\x00\x01\x8d\xa2\x1a\x00\x00\x00\x00\xc0-\x00\x00\x00\x00\x00\x00\x00\x00\x00\x00\x00\x00\x00\
            \x00\x00\x00\x00\x00\x00\x00\x00\x00\x00sec\x00\x14\xe8\xa8bh\xd9\x9eX\xd9`7#\xc9\xc4\xf8\xf4`T\x7f\xc9\
            \xa5test\x00mysql_native_password\x00,\x0c_client_name\x07mysqlnd\x0c_server_host\x09127.0.0.1",
        database: Some(b"test"),
        charset: 45,
        flags: 0x001A_A20D,
    },
    // PDO of PHP.
    Row {
        scramble: *b"m.<$>J:%I|Z,hK{MMx8L",
        client: b"\x81\x00\x00\x01\x8d\xa2\x1b\x00\x00\x00\x00\xc0-\x00\x00\x00\x00\x00\x00\x00\x00\x00\x00\x00\x00\x00\
            \x00\x00\x00\x00\x00\x00\x00\x00\x00\x00sec\x00\x14$\xd6oG\xd3D\xd61%`\xf3\xf4&\xaa\xe8\x92\xe0\xdc\xa2\
            \x0ctest\x00mysql_native_password\x00,\x0c_client_name\x07mysqlnd\x0c_server_host\x09127.0.0.1",
        database: Some(b"test"),
        charset: 45,
        flags: 0x001A_A20D,
    },
    // DBD::MariaDB.
    Row {
        scramble: *b"934JX[?hpw*c8+me6wxv",
        client: b"\xc1\x00\x00\x01\x8f\xa2\xbe\x80\x00\x00\x10\x00-\x00\x00\x00\x00\x00\x00\x00\x00\x00\x00\x00\x00\x00\
            \x00\x00\x00\x00\x00\x00\x00\x00\x00\x00sec\x00\x14\x00y\x180\x0cy\x02\x99\"\x93Bu\x1brh\xeb\xeb>U\x80tes\
            t\x00mysql_native_password\x00l\x03_os\x05Linux\x0c_client_name\x0alibmariadb\x04_pid\x0512561\x0f_client\
            _version\x063.3.20\x09_platform\x06x86_64\x0c_server_host\x09127.0.0.1",
        database: Some(b"test"),
        charset: 45,
        flags: 0x003E_A20F,
    },
    // DBD::mysql.
    Row {
        scramble: *b"vwqP~H-FZqLgAL;#=H4g",
        client: b"\xda\x00\x00\x01\x8f\xa2\xbe\x00\x00\x00\x10\x00-\x00\x00\x00\x00\x00\x00\x00\x00\x00\x00\x00\x00\x00\
            \x00\x00\x00\x00\x00\x00\x00\x00\x00\x00sec\x00\x14V\xde|b\x84\"\x1a\xb6e\xd3\xff\x85\xcbR,Z\xdd\x97\x82\
            \x17test\x00mysql_native_password\x00\x85\x03_os\x05Linux\x0c_client_name\x0alibmariadb\x04_pid\x0512561\
            \x0f_client_version\x063.3.20\x09_platform\x06x86_64\x0cprogram_name\x0bfin/perl.pl\x0c_server_host\x0912\
            7.0.0.1",
        database: Some(b"test"),
        charset: 45,
        flags: 0x003E_A20F,
    },
    // mysql2 of Ruby.
    Row {
        scramble: *b"Qz8C)DWk4^^=Uth/Mv+n",
        client: b"\xd7\x00\x00\x01\x8d\xa2\xbe\x80\x00\x00\x10\x00!\x00\x00\x00\x00\x00\x00\x00\x00\x00\x00\x00\x00\x00\
            \x00\x00\x00\x00\x00\x00\x00\x00\x00\x00sec\x00\x14\xba\xc4\x19\xe6=l_\xe7Oe/\xcfp\xc3;@\xcbt\xde7test\
            \x00mysql_native_password\x00\x82\x03_os\x05Linux\x0c_client_name\x0alibmariadb\x04_pid\x0512617\x0f_clie\
            nt_version\x063.3.20\x09_platform\x06x86_64\x0cprogram_name\x08fin/m.rb\x0c_server_host\x09127.0.0.1",
        database: Some(b"test"),
        charset: 33,
        flags: 0x003E_A20D,
    },
    // Go-MySQL-Driver.
    Row {
        scramble: *b"H>=Vz%Dib2nU=sK[k&vD",
        client: b"T\x00\x00\x01\x8d\xa2\x0a\x00\x00\x00\x00\x00-\x00\x00\x00\x00\x00\x00\x00\x00\x00\x00\x00\x00\x00\x00\
            \x00\x00\x00\x00\x00\x00\x00\x00\x00sec\x00\x14\xb1V\xbe\xf7d\xff6\xb7\x8b\xf6E\xff/\xb7\x85\xe3Tt7&test\
            \x00mysql_native_password\x00",
        database: Some(b"test"),
        charset: 45,
        flags: 0x000A_A20D,
    },
    // mymysql of Go.
    Row {
        scramble: *b"[hxC%.UC/a{gp}CwM[aT",
        client: b">\x00\x00\x01\x0d\xa2\x03\x00\xff\xff\xff\x00-\x00\x00\x00\x00\x00\x00\x00\x00\x00\x00\x00\x00\x00\x00\
            \x00\x00\x00\x00\x00\x00\x00\x00\x00sec\x00\x14\x82L\xc6\x8b\xd9B\x93\xcf\xe7\x15\x02\xd41\x9bG&>\xb1\xd9\
            Dtest\x00",
        database: Some(b"test"),
        charset: 45,
        flags: 0x0002_A20D,
    },
    // mysqljs/mysql.
    Row {
        scramble: *b"\"ku.~Tj7rZMQ/6_`AdSU",
        client: b">\x00\x00\x01\xcf\xf3\x06\x00\x00\x00\x00\x00!\x00\x00\x00\x00\x00\x00\x00\x00\x00\x00\x00\x00\x00\x00\
            \x00\x00\x00\x00\x00\x00\x00\x00\x00sec\x00\x14\xb3\xd5\x9d[{ol\x19\xc7\xb0\x9aD\x06\xa5+\xcfsS\"\xeftest\
            \x00",
        database: Some(b"test"),
        charset: 33,
        flags: 0x0006_A30F,
    },
    // MariaDB Connector/J.
    Row {
        scramble: *b"N'v@|n5\\OVB)BQR)q$Wm",
        client: b"\xec\x00\x00\x01\x8a\xa3\xbe\x00\x00\x00\x00@-\x00\x00\x00\x00\x00\x00\x00\x00\x00\x00\x00\x00\x00\x00\
            \x00\x00\x00\x00\x00\x00\x00\x00\x00sec\x00\x14T\xb8<\xb5\xaeQ\xe6\xca\xe9\xb3g\x19\x87\x96\xfeA\x1f;\xad\
            \xe5test\x00mysql_native_password\x00\x97\x0c_client_name\x13MariaDB Connector/J\x0f_client_version\x052.\
            7.6\x0c_server_host\x09127.0.0.1\x03_os\x05Linux\x04_pid\x0515083\x07_thread\x011\x0c_java_vendor\x06Debi\
            an\x0d_java_version\x0717.0.15",
        database: Some(b"test"),
        charset: 45,
        flags: 0x003E_A30A,
    },
    // MariaDB Connector/C.
    Row {
        scramble: *b"?QZQg4i6qU9Y7E6|3#Wn",
        client: b"\xc1\x00\x00\x01\x8d\xa2\xbe\x00\x00\x00\x10\x00-\x00\x00\x00\x00\x00\x00\x00\x00\x00\x00\x00\x00\x00\
            \x00\x00\x00\x00\x00\x00\x00\x00\x00\x00sec\x00\x14$\xa1m\x06G\xcayS\xda_=\x8b\x92\x05\xf7\x90\xf68e\xbet\
            est\x00mysql_native_password\x00l\x03_os\x05Linux\x0c_client_name\x0alibmariadb\x04_pid\x0517217\x0f_clie\
            nt_version\x063.3.20\x09_platform\x06x86_64\x0c_server_host\x09127.0.0.1",
        database: Some(b"test"),
        charset: 45,
        flags: 0x003E_A20D,
    },
];

/// The same with the password `wrong`.
const WITH_WRONG_PASSWORD: [Row; 13] = [
    // MariaDB's command-line client.
    Row {
        scramble: *b"wqR'fP<yqLd5y#>OS3D<",
        client: b"\xd4\x00\x00\x01\x8d\xa2\xbf\x00\x00\x00\x10\x00!\x00\x00\x00\x00\x00\x00\x00\x00\x00\x00\x00\x00\x00\
            \x00\x00\x00\x00\x00\x00\x00\x00\x00\x00sec\x00\x14r\xe5bR@\x17?\xd0L\xbe\xc09P\xa1x\x14\xbb\x80\x06\xd0t\
            est\x00mysql_native_password\x00\x7f\x03_os\x05Linux\x0c_client_name\x0alibmariadb\x04_pid\x0517118\x0f_c\
            lient_version\x063.3.20\x09_platform\x06x86_64\x0cprogram_name\x05mysql\x0c_server_host\x09127.0.0.1",
        database: Some(b"test"),
        charset: 33,
        flags: 0x003E_A20D,
    },
    // The same, where the user's plugin is named to it.
    Row {
        scramble: *b">OT6Pqg3cz\\?e`3x&RK^",
        client: b"\xb9\x00\x00\x01\x8d\xa2\xbf\x00\x00\x00\x10\x00!\x00\x00\x00\x00\x00\x00\x00\x00\x00\x00\x00\x00\x00\
            \x00\x00\x00\x00\x00\x00\x00\x00\x00\x00sec\x00\x00test\x00client_ed25519\x00\x7f\x03_os\x05Linux\x0c_cli\
            ent_name\x0alibmariadb\x04_pid\x0517124\x0f_client_version\x063.3.20\x09_platform\x06x86_64\x0cprogram_na\
            me\x05mysql\x0c_server_host\x09127.0.0.1\x14\x00\x00\x03\x9b\x1f\x98eB*\x90\xef4\xe5\x90C\x89i\xec\xed-\
            \xf6\xf6\xb4",
        database: Some(b"test"),
        charset: 33,
        flags: 0x003E_A20D,
    },
    // PyMySQL.
    Row {
        scramble: *b"vW/%h`)Gja(@H+=1~G',",
        client: b"\x8b\x00\x00\x01\x0d\xa2:\x00\xff\xff\xff\x00-\x00\x00\x00\x00\x00\x00\x00\x00\x00\x00\x00\x00\x00\x00\
            \x00\x00\x00\x00\x00\x00\x00\x00\x00sec\x00\x14\xfaS\xde\xf6\xb7\xe8\xab\xca\x8a\xf2\xfe\x19i\x0c\xbbz\
            \xc0\xb5\xd5\x14test\x00mysql_native_password\x006\x0c_client_name\x07pymysql\x04_pid\x0517064\x0f_client\
            _version\x051.0.2",
        database: Some(b"test"),
        charset: 45,
        flags: 0x003A_A20D,
    },
    // mysqlclient.
    Row {
        scramble: *b"2f0ZU{/pi@BjprkCL2W>",
        client: b"\xc1\x00\x00\x01\x8d\xa2\xbe\x00\x00\x00\x10\x00-\x00\x00\x00\x00\x00\x00\x00\x00\x00\x00\x00\x00\x00\
            \x00\x00\x00\x00\x00\x00\x00\x00\x00\x00sec\x00\x14\x0a-\x04\xe9Z\xce\xeb\x10\xf4V\x95\xf2eW\x8a\x8f\x0a\
            \x08\xc31test\x00mysql_native_password\x00l\x03_os\x05Linux\x0c_client_name\x0alibmariadb\x04_pid\x051706\
            4\x0f_client_version\x063.3.20\x09_platform\x06x86_64\x0c_server_host\x09127.0.0.1",
        database: Some(b"test"),
        charset: 45,
        flags: 0x003E_A20D,
    },
    // mysqli of PHP.
    Row {
        scramble: *b"^MJjUNc,M}R^cXm<\"5#N",
        client: b"\x81\x00\x00\x01\x8d\xa2\x1a\x00\x00\x00\x00\xc0-\x00\x00\x00\x00\x00\x00\x00\x00\x00\x00\x00\x00\x00\
            \x00\x00\x00\x00\x00\x00\x00\x00\x00\x00sec\x00\x14(\xae95\x86\xc2h\xf1\x17\x05_6|[-\xdb\xb6\x96\x01\xe8t\
            est\x00mysql_native_password\x00,\x0c_client_name\x07mysqlnd\x0c_server_host\x09127.0.0.1",
        database: Some(b"test"),
        charset: 45,
        flags: 0x001A_A20D,
    },
    // DBD::MariaDB.
    Row {
        scramble: *b"2{7<gr+zF0\\]AimiFb=H",
        client: b"\xc1\x00\x00\x01\x8f\xa2\xbe\x80\x00\x00\x10\x00-\x00\x00\x00\x00\x00\x00\x00\x00\x00\x00\x00\x00\x00\
            \x00\x00\x00\x00\x00\x00\x00\x00\x00\x00sec\x00\x14\xad\x87\xb6\x1a\x03c\x13U\xcd\xde3P\xdd\xbe\xae\x87\
            \xb3\xf6\x7f\\test\x00mysql_native_password\x00l\x03_os\x05Linux\x0c_client_name\x0alibmariadb\x04_pid\
            \x0512561\x0f_client_version\x063.3.20\x09_platform\x06x86_64\x0c_server_host\x09127.0.0.1",
        database: Some(b"test"),
        charset: 45,
        flags: 0x003E_A20F,
    },
    // DBD::mysql.
    Row {
        scramble: *b"jGdBY{\"0kN\"]2~G)2_iq",
        client: b"\xda\x00\x00\x01\x8f\xa2\xbe\x00\x00\x00\x10\x00-\x00\x00\x00\x00\x00\x00\x00\x00\x00\x00\x00\x00\x00\
            \x00\x00\x00\x00\x00\x00\x00\x00\x00\x00sec\x00\x149\xe1L\x0dPwIwG@\xe7a\xa1\xcc\xf5\x85\xad*\xb89test\
            \x00mysql_native_password\x00\x85\x03_os\x05Linux\x0c_client_name\x0alibmariadb\x04_pid\x0512561\x0f_clie\
            nt_version\x063.3.20\x09_platform\x06x86_64\x0cprogram_name\x0bfin/perl.pl\x0c_server_host\x09127.0.0.1",
        database: Some(b"test"),
        charset: 45,
        flags: 0x003E_A20F,
    },
    // mysql2 of Ruby.
    Row {
        scramble: *b"p?'D_5)lg>?cT[JBM='I",
        client: b"\xd7\x00\x00\x01\x8d\xa2\xbe\x80\x00\x00\x10\x00!\x00\x00\x00\x00\x00\x00\x00\x00\x00\x00\x00\x00\x00\
            \x00\x00\x00\x00\x00\x00\x00\x00\x00\x00sec\x00\x14\"a\xf4\xcc\xdb|\xeb\xc3\x0c\x8eP\x84a*\xe9W\x01F\xce\
            \xa3test\x00mysql_native_password\x00\x82\x03_os\x05Linux\x0c_client_name\x0alibmariadb\x04_pid\x0512617\
            \x0f_client_version\x063.3.20\x09_platform\x06x86_64\x0cprogram_name\x08fin/m.rb\x0c_server_host\x09127.0\
            .0.1",
        database: Some(b"test"),
        charset: 33,
        flags: 0x003E_A20D,
    },
    // Go-MySQL-Driver.
    Row {
        scramble: *b"{Sj=/qlN}OP%eP@1spZP",
        client: b"T\x00\x00\x01\x8d\xa2\x0a\x00\x00\x00\x00\x00-\x00\x00\x00\x00\x00\x00\x00\x00\x00\x00\x00\x00\x00\x00\
            \x00\x00\x00\x00\x00\x00\x00\x00\x00sec\x00\x14i\xe1\x96\xfc\xc2+\x0ewK\xd9\xad%~}Yr\xa6`\xc9\xa1test\x00\
            mysql_native_password\x00",
        database: Some(b"test"),
        charset: 45,
        flags: 0x000A_A20D,
    },
    // mymysql of Go.
    Row {
        scramble: *b"tscxPf2e%(9'TQy2*w@t",
        client: b">\x00\x00\x01\x0d\xa2\x03\x00\xff\xff\xff\x00-\x00\x00\x00\x00\x00\x00\x00\x00\x00\x00\x00\x00\x00\x00\
            \x00\x00\x00\x00\x00\x00\x00\x00\x00sec\x00\x14\x80\x00/6\xa6\x9fy\x90V\xdbM\xb3{k~T\x07\xbe\x03\xcatest\
            \x00",
        database: Some(b"test"),
        charset: 45,
        flags: 0x0002_A20D,
    },
    // mysqljs/mysql.
    Row {
        scramble: *b"HIv7KUIL#f[u]Q^e`2v!",
        client: b">\x00\x00\x01\xcf\xf3\x06\x00\x00\x00\x00\x00!\x00\x00\x00\x00\x00\x00\x00\x00\x00\x00\x00\x00\x00\x00\
            \x00\x00\x00\x00\x00\x00\x00\x00\x00sec\x00\x14Z\x0e\xf7n\xff;\xdcq\xe2u/Q\xd7e\xd3^\x9c\x13T^test\x00",
        database: Some(b"test"),
        charset: 33,
        flags: 0x0006_A30F,
    },
    // MariaDB Connector/J.
    Row {
        scramble: *b"(eFkhK|PXJHka&6}8:X1",
        client: b"\xec\x00\x00\x01\x8a\xa3\xbe\x00\x00\x00\x00@-\x00\x00\x00\x00\x00\x00\x00\x00\x00\x00\x00\x00\x00\x00\
            \x00\x00\x00\x00\x00\x00\x00\x00\x00sec\x00\x14\x90\"\xe3\x92\xe9<\xceS\x9e\xccZ\x1d\x11w;X\xc6\xf7e\xc5t\
            est\x00mysql_native_password\x00\x97\x0c_client_name\x13MariaDB Connector/J\x0f_client_version\x052.7.6\
            \x0c_server_host\x09127.0.0.1\x03_os\x05Linux\x04_pid\x0515083\x07_thread\x011\x0c_java_vendor\x06Debian\
            \x0d_java_version\x0717.0.15",
        database: Some(b"test"),
        charset: 45,
        flags: 0x003E_A30A,
    },
    // MariaDB Connector/C.
    Row {
        scramble: *b"+c3oYOay]G)6sd|`K8uf",
        client: b"\xc1\x00\x00\x01\x8d\xa2\xbe\x00\x00\x00\x10\x00-\x00\x00\x00\x00\x00\x00\x00\x00\x00\x00\x00\x00\x00\
            \x00\x00\x00\x00\x00\x00\x00\x00\x00\x00sec\x00\x14U\xe5\x0a0V\x88\x0e\x04\xa5\x0a\x97j\x82\xba\xfef\x06 \
            \x07atest\x00mysql_native_password\x00l\x03_os\x05Linux\x0c_client_name\x0alibmariadb\x04_pid\x0517217\
            \x0f_client_version\x063.3.20\x09_platform\x06x86_64\x0c_server_host\x09127.0.0.1",
        database: Some(b"test"),
        charset: 45,
        flags: 0x003E_A20D,
    },
];

/// The end of the error that a wrong password is answered.
const ACCESS_DENIED: &[u8] = b"\xff\x15\x04#28000access denied";

/// What is to be kept of the login of a user with this first stage.
fn login_of(
    alloc: Global,
    row: &Row,
    user: &[u8],
    stage1: Option<Stage1>,
) -> Result<Login, AllocError> {
    let database = match row.database {
        Some(name) => Some(Text::from_slice(alloc, name)?),
        None => None,
    };
    Ok(Login {
        user: Text::from_slice(alloc, user)?,
        stage1,
        database,
        charset: row.charset,
        flags: row.flags,
    })
}

/// Whether the row's client logs in, and what is kept is the row's.
fn logs_in(
    alloc: Global,
    row: &Row,
    user: &[u8],
    stage1: Option<Stage1>,
) -> Result<bool, AllocError> {
    let connection = connect(alloc, row.scramble, row.client, 4096)?;
    let login = login_of(alloc, row, user, stage1)?;
    Ok(connection.login == Some(login) && connection.closed.is_none())
}

#[test]
fn clients_log_in_without_a_password(rt: HostRuntime) -> Result<(), Fail> {
    for row in &WITHOUT_PASSWORD {
        assert!(rt; logs_in(rt.alloc(), row, b"app", None)?);
    }
    Ok(())
}

#[test]
fn clients_log_in_with_their_password(rt: HostRuntime) -> Result<(), Fail> {
    let stage1 = stage1_of(b"secret");
    for row in &WITH_PASSWORD {
        assert!(rt; logs_in(rt.alloc(), row, b"sec", Some(stage1))?);
    }
    Ok(())
}

#[test]
fn a_wrong_password_is_denied(rt: HostRuntime) -> Result<(), Fail> {
    for row in &WITH_WRONG_PASSWORD {
        let connection = connect(rt.alloc(), row.scramble, row.client, 4096)?;
        assert!(rt; connection.login.is_none());
        assert_eq!(rt; connection.closed, Some(CloseReason::Access));
        assert!(rt; connection.sent.as_slice().ends_with(ACCESS_DENIED));
    }
    Ok(())
}
