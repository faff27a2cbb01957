//! What the program does with its arguments, its input and a tree, one row a line.
//!
//! A row is WORDS|INPUT|STATUS|OUTPUT|ERRORS, with one blank between words, and `∅` for no words. A row with only WORDS
//! is a usage fault. `⏎` is a line feed, `␦` the byte 255, and at `✗` a stream fails. A line `+ KEYS` has the tree for
//! the rows after it, as paths below the root, which is the current directory: directories end in `/`, and directories
//! that cannot be listed end in `#`. Rows before the first such line have an empty tree. `tests/programs.py` replays
//! the rows on the built program, except for those with `∅`, `✗`, `#` or an absolute path.

/// The rows.
pub static ROWS: &str = "
# lines
match *.rs|a.rs⏎b.c⏎|0|a.rs⏎|
match a?|ab|0|ab⏎|
match *||1||
match *|␦⏎a⏎|0|a⏎|
match |⏎|0|⏎|
match -- -*|-x⏎|0|-x⏎|
match a[b-d]|ac⏎ae⏎|0|ac⏎|
match -i A*|ab⏎|0|ab⏎|
match -s a*|a/b⏎ab⏎|0|ab⏎|
match -d -d *|.x⏎y⏎|0|y⏎|
match -i É|é⏎|1||
match abc[def|abc⏎|2||Pattern syntax error near position 3: invalid range pattern⏎
match -d -- *|.x⏎y⏎|0|y⏎|
# escaped texts
escape a*||0|a[*]⏎|
escape ||0|⏎|
escape -- -?||0|-[?]⏎|
escape -- --help||0|--help⏎|
escape -?
escape
escape a b
escape _[_]_?_*_!_||0|_[[]_[]]_[?]_[*]_!_⏎|
# usage faults
∅
match
match -*
match -n 3 *
match -is *
match -
match a b
match a --
match --
match -- a b
catch *
-- match *
-- --help
--help
-h
-help
help
help match
--version
-v
-V
match --help
match -h
match -0
match -0 *
match -00 *
match --null *
match -i --help
match -- --help x
escape --help
escape -0 a
find --help
find --version
find -0 *
find
find -n
find -n 5
find -n  *
find -n x *
find -n +5 *
find -n -5 *
find -n5 *
find -n 18446744073709551616 *
find -n 99999999999999999999 *
find -n 000000000000000000005 *
find -*
find a b
explain a b
# a fault of the pattern comes before the limit, and the last limit counts
find abc[def||2||Pattern syntax error near position 3: invalid range pattern⏎
find -n 0 abc[def||2||Pattern syntax error near position 3: invalid range pattern⏎
find a/**b||2||Pattern syntax error near position 4: recursive wildcards must form a single path component⏎
find -n 0 *||2||attempting to read `.` resulted in an error: walk limit reached⏎
find -n 5 -n 0 *||2||attempting to read `.` resulted in an error: walk limit reached⏎
find -n 00000000000000000000 -- *||2||attempting to read `.` resulted in an error: walk limit reached⏎
# two files below a directory: five units find both
+ d/ d/a d/b
find d/*||0|d/a⏎d/b⏎|
find -n 5 d/*||0|d/a⏎d/b⏎|
find -n 4 d/*||2||attempting to read `d` resulted in an error: walk limit reached⏎
find -n 18446744073709551615 d/*||0|d/a⏎d/b⏎|
find d/zz*||1||
find d/A||1||
find -- ||1||
find -- .||0|.⏎|
# two files: a unit for the start, one for the listing, and one for each entry
+ x y
find -n 4 *||0|x⏎y⏎|
find -n 3 *||2||attempting to read `.` resulted in an error: walk limit reached⏎
+ d/ d/x
find -n 5 **||0|d⏎|
find -n 4 **||2|d⏎|attempting to read `d` resulted in an error: walk limit reached⏎
+ A .a
find -s *a||0|.a⏎|
find -i -n 9999999 *a||0|.a⏎A⏎|
find -d -i -- *a||0|A⏎|
find -d *a||1||
+ aaa/ aaa/apple/ aaa/green_apple aaa/kazusa aaa/orange/ aaa/tomato/
find -- aaa/*||0|aaa/apple⏎aaa/green_apple⏎aaa/kazusa⏎aaa/orange⏎aaa/tomato⏎|
# two files below an absolute path: a unit for the start, one for each name, and three for the listing
+ t/ t/u/ t/u/a t/u/b
find /t/u/*||0|/t/u/a⏎/t/u/b⏎|
find -n 6 /t/u/*||0|/t/u/a⏎/t/u/b⏎|
find -n 5 /t/u/*||2||attempting to read `/t/u` resulted in an error: walk limit reached⏎
find /t/u/zz*||1||
# streams that fail
match *|✗|2||reading failed⏎
match *|a⏎✗|2||reading failed⏎
match abc[def|✗|2||Pattern syntax error near position 3: invalid range pattern⏎
match *|ab⏎c⏎|2|ab✗|writing failed⏎
match *|ab⏎c⏎|2|✗|writing failed⏎
match *|✗|2||✗
match b|a⏎|1|✗|
escape a||2|✗|writing failed⏎
escape a||2|✗|✗
escape||2||✗
# a path that cannot be written ends a walk, and a line that cannot be written is dropped
+ a/ a/x b# c/ c/x
find *||2|✗|writing failed⏎
find */?||2|a/x⏎c/x⏎|attempting to read `b` resulted in an error: permission denied⏎
find */?||2|a/x⏎c/x⏎|✗
find */?||2|a/x⏎✗|attempting to read `b` resulted in an error: permission denied⏎writing failed⏎
";
