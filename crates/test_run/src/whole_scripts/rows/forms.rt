// The forms that lines and words may have, and how bytes are printed.
use crate::whole_scripts::tables::{NOTHING, Table};

// Words are decoded when they are read, and encoded when they are printed.
pub(crate) static WORDS: Table = Table {
    before: NOTHING,
    after: NOTHING,
    rows: &[
        // spaces count for nothing
        (
            "  put   f a  \r\n\n#\n mkdir  d\n commit \r\ncheckout  1\n show\n",
            "\
committed 1
ok
. dir 1 .
d dir 1 d
f file 1 f a
",
        ),
        // one carriage return is dropped before a line feed
        (
            "put f a\r\r\nput g a\rb\r\ncommit\r\ncheckout 1\r\nshow\r\n",
            "\
committed 1
ok
. dir 1 .
f file 1 f a%0D
g file 1 g a%0Db
",
        ),
        // texts are decoded when they are read, and encoded when they are printed
        (
            "\
put a \"\"
put b \"\"\"
put c \"
put d a\"\"
put e %61%4a%4A
put f %20%21%22%23%24%25%26%7d%7E%7F%80%ff%00%09%0A
put g #
put h %25%32%35
put i \u{0}\u{1}\t~\u{7f}\u{80}
put j ab%63d%25%20e%41
commit
checkout 1
show
",
            "\
committed 1
ok
. dir 1 .
a file 1 a \"\"
b file 1 b %22%22%22
c file 1 c %22
d file 1 d a%22%22
e file 1 e aJJ
f file 1 f %20!%22#$%25&}~%7F%80%FF%00%09%0A
g file 1 g #
h file 1 h %2525
i file 1 i %00%01%09~%7F%C2%80
j file 1 j abcd%25%20eA
",
        ),
        // so are paths. They come name by name, names by their bytes, so that a directory is directly before what is below it
        (
            "\
mkdir %61
put a%2Fx 1
put a%20b 2
put a-b 3
put a.b 4
put B 5
put \u{e9} 6
put %E2%82%AC 7
put # 8
put ... 9
commit
checkout 1
show
",
            "\
committed 1
ok
. dir 1 .
# file 1 # 8
... file 1 ... 9
B file 1 B 5
a dir 1 a
a/x file 1 a/x 1
a%20b file 1 a%20b 2
a-b file 1 a-b 3
a.b file 1 a.b 4
%C3%A9 file 1 %C3%A9 6
%E2%82%AC file 1 %E2%82%AC 7
",
        ),
        // numbers may begin with zeros
        (
            "commit\ncheckout 00000000000000000001\nupdate 000\nshow\n",
            "committed 1\nok\nclosed 4\n. dir 0 .\n",
        ),
        // names and values are decoded when they are read, and encoded when they are printed
        // in the order of their bytes: capitals, then the underscore, then small letters
        (
            "\
put f a
prop f %70 %25%20%0a
prop f svn:eol-style \"\"
prop f B #
prop f _ %c3%a9
commit
checkout 1
show
",
            "\
committed 1
ok
. dir 1 .
f file 1 f a
f prop B #
f prop _ %C3%A9
f prop p %25%20%0A
f prop svn:eol-style \"\"
",
        ),
    ],
};

// The last line may have no line feed.
pub(crate) static LAST_LINES: Table = Table {
    before: NOTHING,
    after: NOTHING,
    rows: &[
        ("commit", "committed 1\n"),
        ("commit\n", "committed 1\n"),
        ("commit\ncommit", "committed 1\ncommitted 2\n"),
        ("commit\n#", "committed 1\n"),
    ],
};

// Lines that do nothing.
pub(crate) static SILENT: Table = Table {
    before: NOTHING,
    after: NOTHING,
    rows: &[
        ("", ""),
        ("\n", ""),
        ("\n\n", ""),
        (" ", ""),
        ("  \n", ""),
        ("\r\n", ""),
        (" \r\n", ""),
        ("#", ""),
        ("#x", ""),
        ("# commit\n", ""),
        ("#commit\r\n", ""),
        ("#%\r\n", ""),
    ],
};
