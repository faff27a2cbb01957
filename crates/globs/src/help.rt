//! What `--help`, `help` and `--version` write. From the layout of these pages `bin/help_as` makes the completions and
//! the options in the man page.
ghost use Rattle.std.specs.Prelude.{◌≡◌};
ghost use Rattle.globs.specs.Help.{page_of};

use crate::name::Name;

/// The version: the one at the top of the changelog.
pub const VERSION: &str = "globs 0.4.0\n";

/// The page of a command, or of the whole program.
pub fn page_of(name: Option<Name>) -> &'static str
    ensures { result.now ≡ page_of name }
{
    match name {
        None => HELP,
        Some(Name::Find) => FIND,
        Some(Name::Match) => MATCH,
        Some(Name::Ignore) => IGNORE,
        Some(Name::Explain) => EXPLAIN,
        Some(Name::Escape) => ESCAPE,
    }
}

/// The page of the whole program.
const HELP: &str = "\
globs: shell patterns, ignore lists and directory walks

  globs find [OPTION].. PATTERN..    write the matching paths below a directory
  globs match [OPTION].. PATTERN..   copy the matching lines of standard input
  globs ignore [OPTION].. FILE..     copy the paths of standard input that no rule ignores
  globs explain [OPTION].. PATTERN TEXT
                                     show why a pattern matches a text, or does not
  globs escape [OPTION].. TEXT..     write patterns that match exactly these texts
  globs help [COMMAND]               write this page, or that of one command
  globs --version                    write the version

Quote a pattern: globs find '**/*.rs'. Otherwise the shell expands it.

Patterns:
  ?         any one character
  *         any characters, or none. In find no ?, * or bracket matches a /; elsewhere -s forbids it
  **        any number of whole components: **, **/a, a/** and a/**/b
  [abc]     a, b or c; [a-c] a character from a to c; [!a-c] any other character
  [*]       a literal *. The same goes for [?], [[], []], [{] and [}]
  a.{c,h}   a.c and a.h. Alternatives may be empty, or have braces of their own

Options come first, before the patterns, files or texts. Letters without a value may be joined:
-is is -i -s. A value is the next word, as in -t f, or follows =, as in --max-depth=2. -- ends the
options, so the next word may begin with -. -h or --help writes the page of a command.

Status:
  0         something was found, copied or matched; for escape and help, all was written
  1         nothing was found, copied or matched
  2         a fault, which is reported on standard error
  141       the reader closed the output, as in globs find '**' | head. This is not reported
";

/// The page of `find`.
const FIND: &str = "\
globs find: the paths below a directory that patterns match and no rule ignores

  globs find [OPTION].. PATTERN..

globs help shows what a PATTERN may have: ?, *, **, brackets and braces.

  -0             each path ends in a NUL instead of a line feed, so that names may have line feeds.
                 To count them: globs find -0 '**' | tr -dc '\\0' | wc -c. Paths may begin with -,
                 so put -- before them: globs find -0 '**/*~' | xargs -0r rm --
  -i             case-insensitive, for ASCII letters
  -d             no wildcard or bracket matches a . at the start of a name
  -C DIR         search below DIR: patterns, rules and paths are relative to it, but FILE is not
  --directory DIR
                 the same as -C DIR
  -L             treat a symbolic link to a directory as that directory, and enter it. A link that
                 leads back, to a directory on the way down to it, is reported, and not entered.
                 Without -L nothing is below a link: link/a is not found
  -n LIMIT       the search spends at most LIMIT units: one for each lookup, listing, entry and file
                 of rules. If it would take more, paths may be missing, and a line says so
  -t KIND        write only paths of this kind: f is a regular file, d a directory, and l a symbolic
                 link. -t f -t l writes both. Pipes, sockets and devices have none of these kinds.
                 With -L a link has the kind of what it leads to, and l is one that leads nowhere
  -x RULE        ignore what RULE names, as a line of an ignore file: -x target -x '*.o' -x '!a.o'.
                 In a rule braces are literal, [^a] means [!a], and case counts even with -i. Put a
                 \\ in front of a name that begins with ! or #: -x '\\!a'
  --ignore FILE  ignore by the rules of FILE, relative to the start directory: --ignore rules.
                 See globs help ignore. Rules of -x override those of files
  --ignore-files NAME
                 ignore by the rules of each file called NAME, for the paths below its directory:
                 --ignore-files .gitignore --ignore-files .ignore. Deeper files override others,
                 and in one directory a later NAME overrides an earlier one
  --git          ignore what git ignores: by each .gitignore, also those above the start up to the
                 top of its repository; by .git/info/exclude of the top after all others; and .git
                 itself. If these rules ignore the start, nothing is found, and a line names the
                 file. --ignore-files reads no file above the start
  --max-depth N  write no path of more than N names. A directory at depth N is not listed
  --utf8-only    skip names that are not UTF-8: they are not reported, and do not change the status
  --             ends the options. A pattern that begins with - needs it

A pattern matches a whole path, such as src/main.rs. No ?, * or bracket matches a /: '*.rs' finds
names here, and '**/*.rs' also those below. A / at the end, a bracket with a / in it and, except at
the start, components that are empty, . or .. are refused. A line says what to write instead.

A pattern that begins with /, ./ or ../ is searched for from that place, and its paths begin like
it: '/usr/*' writes /usr/bin, and '../*.c' writes ../x.c, where .. is the directory above DIR.
Rules, NAME and N are then relative to that place. Several places are searched one after another,
in the order of their first patterns.

Nothing is skipped by default: names with a leading . (see -d), what .gitignore names (see --git)
and .git (see -x) are found, too. Rules of -x and --ignore override those of --ignore-files and
--git: -x '!a.o' finds a.o. If a file of the last two cannot be read, or a line of it is refused,
a line says so, and the search goes on with all other rules.

From each place, a path that a pattern matches is written once, in ascending byte order of names.
A directory is listed only where something in it may still be found: 'src/*.c' 'lib/**' lists src,
lib and what is below lib, and src/main.c lists no directory. What is ignored is never listed.

Hints on standard error say where a word was perhaps meant otherwise, as in another tool. They do
not change the status. There are hints about

  * a bracket [^a], words such as !a or :!a that exclude nothing, a typographic dash in place of -,
    a second kind after one -t, as in -t f d, and a name with a bracket that does not match itself
    as a pattern
  * a rule of -x that ignores nothing, or all that a pattern matches, or is a regular expression,
    a path from the root on, or the name of a program such as rm
  * a NAME of --ignore-files that is a pattern, an option or several names
  * braces such as {c, h}, and words such as and, |, > or /s that were meant for another program
  * directories as the first or last words, if nothing else was found
  * a last word that is only the beginning of a path, as src/main is of src/main.rs
  * if nothing was found: ~/, part of a name, quotes, spaces and \\ in a pattern, upper-case
    extensions, patterns that match no names below the start, a beginning such as src in src/*.rs
    that is not there, differs in case or is a symbolic link, a path that -t or --max-depth leaves
    out, a word such as src/a.c, or b/src/a.c that only has a path in it, and the word help

Status:
  0         a path was written
  1         no path was found
  2         a fault, or one of these, although the rest is written: a directory that could not be
            listed, a path that could not be looked up, a name that is not UTF-8 (also an ignored
            one, unless --utf8-only is given), a link that leads back, a file of rules that could
            not be read or has a refused line, or a search that would take more than LIMIT units
";

/// The page of `match`.
const MATCH: &str = "\
globs match: the lines of standard input that patterns match

  globs match [OPTION].. PATTERN..

globs help shows what a PATTERN may have: ?, *, **, brackets and braces.

  -0  records end in a NUL instead of a line feed, in the input and in the output
  -i  case-insensitive, for ASCII letters
  -s  no ?, * or bracket matches a /
  -d  no wildcard or bracket matches a . at the start of a component
  -v  copy the lines that no pattern matches
  --  end of options: a pattern after it may begin with -

A line that one of the patterns matches completely is copied, before more input is read. A line
feed ends a line; the last line may lack it. A carriage return belongs to its line. No pattern
matches a line that is not UTF-8. No file is opened: write globs match '*.rs' <FILE.

Hints on standard error do not change the status. There are hints about

  * if a single pattern matches nothing: a form of another tool, such as ~/ or [^a], quotes,
    several patterns in one word, upper-case extensions, a ./ at the start of the first line or a
    carriage return at its end, and the word help
  * braces such as {c, h}, and a dash that is not -
  * standard input, if it is a terminal, or if no line came and the last of several patterns may be
    a FILE
  * -0, if the first line has a NUL

Status:
  0         a line was copied
  1         no line was copied
  2         a fault
";

/// The page of `ignore`.
const IGNORE: &str = "\
globs ignore: the paths of standard input that ignore files do not ignore

  globs ignore [OPTION].. FILE..
  globs ignore --git [OPTION].. [FILE]..

  -0     records end in a NUL instead of a line feed, in the input and in the output: for names with
         line feeds, as from git ls-files -z, and for xargs -0
  -v     write the rule that decides about each path, and the path: FILE:LINE:RULE, a tab and PATH,
         as git check-ignore -v does, or with -0 FILE, LINE, RULE and PATH, each with a NUL. LINE
         counts from 1 in FILE. A rule with a ! decides, too. Paths that no rule names are not
         written
  --git  ignore what git ignores in the current directory: by the .gitignore of each directory on
         the way to a path, also of those above, up to the top of the repository; by
         .git/info/exclude of the top after all others; and .git itself, for which -v writes
         --git:1:.git. Rules of a FILE override these. Tracked files are ignored, too
  --     end of options: a FILE after it may begin with -

FILE has rules as in gitignore(5), one a line, for the paths below one directory. If several rules
name a path, the last one decides, also across files. A wildcard matches a character where git
takes a byte, and case counts. A line is refused if a bracket has an unknown class, such as
[[:word:]], or a character beyond ASCII, or if ** before a / is not a whole component: src/a**/b.

A path has the names below that directory, with a / between them, as git ls-files -z writes them.
A / at its end marks a directory. A ./ at its start is skipped; . and the empty path are copied.
Other paths are matched as they are written: the rule a/b does not ignore a//b. A path that is not
UTF-8 is left out, and a line on standard error says how many were. On the disk, only files of
rules are read.

With --git, paths begin in the current directory, and one with an empty name or .. is copied. If a
rule ignores that directory, it ignores . and all paths in it, and a line names the file of the
rule. If a file of git cannot be read, or a line of it is refused, a line says so, and all other
rules count. Paths in the order of find are fastest, since those of one directory come together.

A path is written before more input is read. A line feed ends a line; the last line may lack it. A
carriage return belongs to its line.

Hints on standard error do not change the status. There are hints about

  * standard input, if it is a terminal
  * a FILE that cannot be read, or that looks like a path while no path came: paths come from
    standard input, not as operands
  * -0, if the first path has a NUL

Status:
  0         a path was copied or, with -v, written
  1         no path was copied or written
  2         a fault, such as a refused line of FILE, which is reported with its number, a path that
            is not UTF-8, or with --git a file of rules that could not be read or has a refused line
";

/// The page of `explain`.
const EXPLAIN: &str = "\
globs explain: why a pattern matches a text, or does not

  globs explain [OPTION].. PATTERN TEXT

globs help shows what a PATTERN may have: ?, *, **, brackets and braces.

  -i  case-insensitive, for ASCII letters
  -s  no ?, * or bracket matches a /, as in find
  -d  no wildcard or bracket matches a . at the start of a component
  --  end of options: a PATTERN or TEXT after it may begin with -

The first line says whether globs match would copy TEXT as a line, under these options, and whether
globs find would find it as a path, where no ?, * or bracket matches a /. Both expand braces. Of
several alternatives the first that matches is explained, or else the first that gets farthest.

If it matches, there is a line for each wildcard, bracket and character of the pattern: how it is
written, a tab, and the piece of TEXT that it takes, as short as the later ones allow.

Otherwise a caret is under the character of TEXT where the match stops. The lines below it say

  * what is wanted there
  * whether TEXT or the pattern ends in white space
  * which brackets list nothing, and which forms of shells and other tools mean nothing here
  * whether the two may be swapped: TEXT, as a pattern, matches PATTERN
  * which single change gives a match
  * what to write instead of a form of another tool or a regular expression; if that does not match
    TEXT, the line says so

A control character is written as \\r or \\u{1b}. A piece can be part of a new name: with -s
globs explain -s 'a*.JPG' a1.JPG | sed -n 's/^\\*\\t//p' writes 1.

If find does not find TEXT, the last line may suggest a pattern that does: **/*.rs for *.rs and
a/b.rs.

Status:
  0         the pattern matches TEXT, as globs match would
  1         it does not match
  2         a fault. For a refused pattern, its fault is followed by the pattern, a caret and what
            to write instead. It is also a fault if the number of wildcards, brackets and characters
            of the pattern, times the bytes of TEXT, exceeds 67,108,864
";

/// The page of `escape`.
const ESCAPE: &str = "\
globs escape: patterns that match exactly the given texts

  globs escape [OPTION].. TEXT..

  -0  each pattern ends in a NUL in place of a line feed
  --  ends the options. A TEXT that begins with - needs it

For each TEXT it writes a line with the pattern that matches only that text, under every option
except -i. So *.rs is written as [*].rs, and {a} as [{]a[}], which find and match do not
expand. For a rule of an ignore file or of find -x, a ! or # at its start also needs a \\ in front.

Status:
  0         the lines were written
  2         a fault
";
