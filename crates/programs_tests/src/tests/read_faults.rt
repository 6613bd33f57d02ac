//! `cogread`: the lines of its faults, where there is no server.
use super::{FaultRow, expect_faults};
use std::test::Fail;

#[rattlefmt::skip]
const FAULTS: [FaultRow<'static>; 50] = [
    // Nobody listens there.
    ("cogread info 127.0.0.1:1 a", "cogread: no report\n", 4),
    ("cogread window 127.0.0.1:1 a 4294967295 0 1 1 --requests 2", "cogread: no report\n", 4),
    ("cogread window 127.0.0.1:1 a 4294967296 x 1 1", "cogread: not a number: 4294967296\n", 2),
    ("cogread window 127.0.0.1:1 a 0 '' 1 1", "cogread: not a number: \n", 2),
    ("cogread window 127.0.0.1:1 a 0 0 1 1x --level x", "cogread: not a number: 1x\n", 2),
    ("cogread window h? a 0 0 1 1 --level - --blocks x", "cogread: not a number: -\n", 2),
    ("cogread window h a 0 0 1 1 --columns 00000000001", "cogread: not a number: 00000000001\n", 2),
    ("cogread info h a --blocks 1 --requests 0", "cogread: not a number: 0\n", 2),
    ("cogread info h a --requests 65537", "cogread: not a number: 65537\n", 2),
    ("cogread info h? a --blocks 65", "cogread: not a number: 65\n", 2),
    ("cogread info h a --blocks 4097", "cogread: not a number: 4097\n", 2),
    ("cogread info h a --ahead 65", "cogread: not a number: 65\n", 2),
    ("cogread describe h a --blocks 4097 --json", "cogread: not a number: 4097\n", 2),
    ("cogread describe 127.0.0.1:1 a --json", "cogread: no report\n", 4),
    ("cogread info h?:1 a?", "cogread: refused 1\n", 2),
    ("cogread info 127.0.0.1:1 a?", "cogread: refused 2\n", 2),
    // No address has that name.
    ("cogread info 127.0.0.1 a --requests 1", "cogread: no report\n", 4),
    // A URL instead of a server and a name.
    ("cogread info http://127.0.0.1:1/a", "cogread: no report: no connection: Connection refused (os error 111)\n", 4),
    ("cogread window http://127.0.0.1:1/a/b.tif 0 0 1 x", "cogread: not a number: x. Give H a number from 0 to 4294967295\n", 2),
    ("cogread info http://127.0.0.1:1/year=2020/a%20b+~.tif?v=1&w", "cogread: no report: no connection: Connection refused (os error 111)\n", 4),
    ("cogread info http://[::1]:1/a", "cogread: no report: no connection: Connection refused (os error 111)\n", 4),
    ("cogread describe http://127.0.0.1:1/a", "cogread: no report: no connection: Connection refused (os error 111)\n", 4),
    ("cogread info http://h/a#b", "cogread: can't read http://h/a#b: path and query can't be asked for as they are typed: write other characters as %XX, and leave out .. and #\n", 2),
    ("cogread info http://h/a/../b", "cogread: can't read http://h/a/../b: path and query can't be asked for as they are typed: write other characters as %XX, and leave out .. and #\n", 2),
    ("cogread info http://h/a%2", "cogread: can't read http://h/a%2: not a path with its query\n", 2),
    ("cogread info http://h", "cogread: can't read http://h: no path after the host: give http://HOST/PATH\n", 2),
    // Field lines: each has a colon, and a name and a value that requests may have. Values aren't printed.
    ("cogread info h a --header Bearer", "cogread: no field line: it has no colon. Give --header 'NAME: VALUE'\n", 2),
    ("cogread info http://h/a --header X:1 --header Host:h", "cogread: no field line: Host: a field that the client writes itself, or that changes the connection or the answer\n", 2),
    ("cogread info h a --header=X*Y(:1", "cogread: no field line: X*Y(: not a name of a field\n", 2),
    ("cogread info 127.0.0.1:1 a --header X:1 --header x:", "cogread: no report\n", 4),
    ("cogread info HTTP://127.0.0.1:1/A.tif", "cogread: no report: no connection: Connection refused (os error 111)\n", 4),
    (
        "cogread info HttpS://h/a",
        "cogread: can't read HttpS://h/a: https isn't spoken: use the Python package, or a reverse proxy (as nginx with proxy_pass https://..)\n",
        2,
    ),
    ("cogread info http://me@h/a", "cogread: can't read http://me@h/a: a user's name and a password aren't sent: use --header 'Authorization: Basic ..'\n", 2),
    // Rectangles: each number is finite, and the sides aren't exchanged.
    ("cogread window h a --bounds 1 x 2 3", "cogread: not a number: x. Give --bounds W S E N: four numbers in the file's own coordinates\n", 2),
    ("cogread window h a --bounds 1 2 nan 3", "cogread: not a number: nan. Give --bounds W S E N: four numbers in the file's own coordinates\n", 2),
    ("cogread window h a --bounds -inf 2 3 4", "cogread: not a number: -inf. Give --bounds W S E N: four numbers in the file's own coordinates\n", 2),
    ("cogread window h a --bounds 1 2 3 1e999", "cogread: not a number: 1e999. Give --bounds W S E N: four numbers in the file's own coordinates\n", 2),
    ("cogread window h a --bounds 2 1 1 2 --level x", "cogread: no rectangle: W is greater than E, or S than N. Give --bounds W S E N\n", 2),
    ("cogread window h a --bounds 1 -1 2 -2", "cogread: no rectangle: W is greater than E, or S than N. Give --bounds W S E N\n", 2),
    ("cogread window 127.0.0.1:1 a --bounds -2 -2 -1.5 -1e-5 --level x", "cogread: not a number: x\n", 2),
    ("cogread window http://127.0.0.1:1/a --bounds -2 -2 -1.5 -1e-5", "cogread: no report: no connection: Connection refused (os error 111)\n", 4),
    // The fault of a number names its option and range, where a URL, a path or files alone stand.
    ("cogread info http://h/a --blocks 65", "cogread: not a number: 65. Give --blocks a number from 66 to 4096\n", 2),
    ("cogread window http://h/a 0 -1 1 1", "cogread: not a number: -1. Give numbers without a sign\n", 2),
    ("cogread window http://h/a 0 0 1 1 --level -2", "cogread: not a number: -2. Give numbers without a sign\n", 2),
    ("cogserve a --patience 0", "cogserve: not a number: 0. Give --patience a number from 1 to 3600\n", 2),
    // Words that name no file, and an address at which no server can listen.
    ("cogread info ftp://h/a", "cogread: can't read ftp://h/a: it isn't a URL of http. Give http://HOST/PATH, the path of a file, or SERVER NAME\n", 2),
    (
        "cogread info programs_tests_none",
        "cogread: can't read programs_tests_none: No such file or directory (os error 2). Give http://HOST/PATH, the path of a file, or SERVER NAME\n",
        2,
    ),
    ("cogread info .", "cogread: can't read .: it isn't a plain file. Give http://HOST/PATH, the path of a file, or SERVER NAME\n", 2),
    ("cogserve --listen nowhere a", "cogserve: can't listen at nowhere: invalid socket address. Give --listen HOST:PORT, as 127.0.0.1:0 for any free port\n", 1),
    // A server and a name, as it was before there were URLs.
    ("cogread info http://h/a b", "cogread: refused 1\n", 2),
];

#[test]
fn tells_why_nothing_is_read(rt: HostRuntime) -> Result<(), Fail> {
    Ok(expect_faults(&rt, &FAULTS)?)
}
