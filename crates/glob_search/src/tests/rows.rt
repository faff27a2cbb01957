//! Rows of searches.

/// The keys of rows that begin with `SOURCE`.
pub const SOURCE: &str =
    "src/ src/a.c src/b.h src/sub/ src/sub/c.c lib/ lib/d.h doc/ doc/e.txt .git/ .git/f.c";

/// Keys, patterns, letters, rules, names of files with rules, their texts, what is found, listings, lookups.
pub static ROWS: [&str; 40] = [
    "SOURCE|src/*.c lib/*.h|||||lib/d.h src/a.c|2|2",
    "SOURCE|src/*.c lib/*.h|i||||lib/d.h src/a.c|3|2",
    "SOURCE|**/*.c|||||.git/f.c src/a.c src/sub/c.c|6|0",
    "SOURCE|**/*.c|d||||src/a.c src/sub/c.c|5|0",
    "SOURCE|src/a.c src/x doc|||||doc src/a.c|0|4",
    "SOURCE|src/*.c lib/*.h|L||||lib/d.h !limit|1|2",
    "SOURCE|src/*|R||||src/a.c src/b.h src/sub|1|1",
    "a/ a/b b|**||||a:-|b|1|0",
    "SOURCE|**|1||||.git doc lib src|1|0",
    "SOURCE|**|2F||||.git/f.c doc/e.txt lib/d.h src/a.c src/b.h|5|6",
    "SOURCE|**|D||||.git doc lib src src/sub|6|0",
    "SOURCE|**/sub/** src/*|||||src/a.c src/b.h src/sub src/sub/c.c|6|0",
    "SOURCE|*|||||.git doc lib src|1|0",
    "SOURCE|[|||||refused|0|0",
    "SOURCE|src/*||*.c|||src/b.h src/sub|1|1",
    "SOURCE|src/*||sub/|||src/a.c src/b.h|1|2",
    "SOURCE|**/*.[ch]||src/sub .git|||lib/d.h src/a.c src/b.h|4|0",
    "a/ a/b A|a A/b A|i||||A a a/b|2|2",
    "a/! a/b|a/* */b|||||!a|2|0",
    "a/! a/b|a/b|||||a/b|0|2",
    "a/! b/ b/c|**|||||a !a b b/c|3|0",
    "a b a-/ a-/c|* a-/|||||a a- b|1|1",
    "a/ a/.ignore a/b a/c b .ignore|**/[abc]|||.ignore|.ignore:b c;a/.ignore:!b|a a/b|2|0",
    "a/ a/.ignore a/b b .ignore|**/[abc]||!b|.ignore|.ignore:b|a a/b b|2|0",
    "a/ a/.ignore a/b|a/b|||.ignore|a/.ignore:b||0|2",
    "a/ a/.ignore a/b|**/b|||.ignore|a/.ignore:!!|!a/.ignore a/b|2|0",
    "a/ a/.ignore a/b|**/b|||.ignore|a/.ignore:[é]|!a/.ignore a/b|2|0",
    "a/ a/.ignore a/b a/c|**/[bc]|||.ignore|a/.ignore:[é] b|!a/.ignore a/c|2|0",
    "a/ a/.i a/.j a/b a/c|**/[bc]|||.i .j|a/.i:b [é] c [é];a/.j:!b|!a/.i a/b|2|0",
    "a/ a/b .i .j b|**/b|||.i .j|.i:[é];.j:[[:x:]] a/|!.i !.j b|1|0",
    "a/ a/.ignore a/b/ a/b/x b/ b/y .ignore|**/[xy]|||.ignore|.ignore:b/;a/.ignore:!b|a/b/x|3|0",
    "a b c/ c/a|**||;:a|||b c|2|0",
    "a b c/ c/a|**||;x/y:x/y/a /b|||b c c/a|2|0",
    "a b c/ c/a|**||;x/y:y/a y/b/;y:y/a|||b c c/a|2|0",
    "a b c/ c/a|**||;y:y/a;:/b|||c c/a|2|0",
    "a b c/ c/a|**||;x/y:a b;y:!/y/a;:!b|||a b c|2|0",
    "a b c/ c/a .i|**/[abc]||;x:/x/*;y:!c|.i|.i:!b|b c c/a|2|0",
    "a b c/ c/a|**||!a;x:a y/b|||a b c c/a|2|0",
    "1a/ 1a/f 2b/ 2b/f 2b/g 13/ 13/f y/ y/f|0* 1*/f 2*/g 3* 4* 5* 6* 7* 8* 9* *3/f *b/f y*/**|||||13/f 1a/f 2b/f 2b/g y/f|2|4",
    "x/ x/A x/B3 x/b y7 c|**/*0 **/*1 **/*2 **/*3 **/*4 **/*5 **/*6 **/*7 **/*8 **/*9 **/*a **/*b|i||||x/A x/B3 x/b y7|2|0",
];
