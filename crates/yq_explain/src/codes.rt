//! What each code means: the rows of the manual's tables on what is refused, which tools/codes.py
//! writes here.

/// Each line is a row: a code, its words, what causes it, and what to do, with tabs between them.
// The rows of the manual: begin.
pub const ROWS: &str = "\
U1\tusage\tThe words don't fit: a flag that isn't there, no FILE, two files, '-' as FILE, the journal named as the file, an N that is no number. The next line says which word, and what to do.\t'yq --help'. For standard input name '/dev/stdin', in reads. After '--' are names that begin with '-'.
E1\tsyntax\tThe expression is not valid.\tLook for a quote that isn't closed, a path that doesn't begin with a dot ('.[0]', not '[0]'), a pipe on a left side without parentheses. It may also be a key twice in a literal, or an index that is no whole number.
E1\tsyntax\tSelected places are updated without parentheses.\t(.c[] | select(.n == \"a\") | .v) = 2
E2\tnot in profile\tA word or operator of yq version 4 that isn't here.\tFROM-YQ-V4.md says what to use.
E2\tnot in profile\tA text without quotes.\t.a = \"web\"
E2\tnot in profile\tA path without its dot; or a command's name that is misspelt, 'yq undoo f.yaml'.\t'.a.b'; 'yq --help' lists the commands.
E3\tpattern\t'*' or '?' in a key or in what is compared with.\tName each key; there are no patterns.
S1\tnot there\tThere is no such file.\tLook at the name. A file is never made: 'touch' it.
S2\tread failed\tThe file or its journal can't be read, or is a folder, a device, an open file below '/proc' or, for an edit, a pipe. Or the journal belongs to a user that may not write the file, or such a user may write it. Or the file system has no locks, or another run kept the file's lock for 60 seconds. Or the file's name is longer than 245 bytes, so that the journal's is too long; the journal has more than 96 MiB; or the file is too long for 'undo', 'redo' or 'squash'.\tLook at the rights of both, and at the journal's owner: see \"A journal that is refused\" of MANUAL.md. Where each command waits for a minute, 'fuser f.yaml' names the run that has the lock: end it. Without locks, 'YQ_NO_LOCK=1'. '--journal' gives the journal a shorter name, and 'YQ_JOURNAL_LIMIT=N' reads one of N MiB.
S3\twrite failed\tThe file, its journal or their folder can't be written: rights, a full disk, a read-only disk, a file that is mounted on its own, a journal's name that is a link to nothing. Or the journal would have more than 64 MiB, or another program saved the file while the command ran.\tMend that. Where 'yq history f.yaml' lists the edit as done, it was made: don't repeat it. Of a journal that is too large, see \"The journal\" of MANUAL.md.
S4\tout failed\tStandard output took nothing, as on a full disk. Where the reader of a pipe has gone, as 'head' does, there is no line, and the status is 141, as of other filters.\tLook at the disk after it. No file was changed, but by '-i --diff'.
J1\tnothing to undo\tNo edit is recorded, or all were undone.\t'yq history f.yaml'. With '--journal' at the edit, name it here too; of a link, use the name by which it was edited.
J2\tnothing to redo\tNothing was undone, or an edit came after it.\t
J3\tdoes not stand\tSomething else changed the file's length, or the bytes that the edit wrote: an editor, 'git checkout'.\tPut these bytes back, or let the edit be: a new edit goes on from the file as it is. After a 'git checkout' the journal can be removed, too.
J4\tbad journal\tThe journal is not valid.\tRestore it, or remove it: the file stays, its history is lost.
J5\tunsettled\tA run was cut, and something else changed the file since.\tSee \"When a run is cut\" of MANUAL.md.
J6\tjournal full\t4,096 edits are recorded.\t'yq squash 4096 f.yaml' joins them all, a smaller number the last ones; or put the journal away.
J7\tbad count\tN isn't in 1 to the number of edits that are done, or something else changed the file's length between them.\t'yq history f.yaml'; a smaller N.
N1\tno matches found\tWith '-e': nothing but null and false was read.\t
N1\tno matches found\tWith '--expect-change': the update changes no byte.\t
M1\tout of memory\tThe system gave no more memory.\tThe file is whole. Where 'yq history f.yaml' lists the edit as done, it was made: don't repeat it.
X1\tnot a map\tA key is asked of a sequence, or of a scalar other than null.\t'.a = {\"b\": 2}' exchanges the scalar.
X2\tnot a sequence\tAn index is asked of a mapping, or an index or '[]' of a scalar other than null.\tA key that is a number is in quotes: '.a[\"0\"]'.
X3\tindex out of range\tAn index before the first item; or a value is put after the last one.\t'.a += 2' adds an item.
X4\tthrough alias\tThe value is, or holds, an alias, or a step leads through one.\tName the place of the anchor: '.a'. An alias itself can be exchanged: '.b = 2'.
X5\tanchor in use\tWhat would go holds an anchor that an alias names.\tExchange or delete the aliases first.
X6\tnot one value\tA term on the right side finds no value, or more than one.\tName one: '.a[0]'; or a whole collection: '.a'.
X7\tkind mismatch\tThere is no sum of these two kinds.\tA text in quotes is added to a text: '. + \"1\"'.
X8\tinteger range\tA number or the sum isn't one of 64 bits.\t
X9\tfloat arithmetic\tFloats aren't added.\tSet the value: '.n = 2.5'.
X10\tno place for comment\tA comment can't be there: in a flow collection, at the root, at what is missing, above what begins after a dash, after an item whose collection begins on its line.\tComment the entry around it: '.a line_comment = \"z\"'.
X11\tbad comment text\tA line comment has one line; a comment holds printable characters only.\t'head_comment' takes several lines.
X12\troot delete\tThe whole document would go.\t
X13\ttoo deep\tMore than 64 collections would be nested.\t
X14\ttoo large\tThe text would pass 16,777,216 bytes.\t
X15\tnot an update\tA read can't be done in place.\tLeave '-i' out, or add '= ..'.
X16\tkey too long\tA key would be written with more than 1,024 characters.\t
Y1\tnot utf8\tA byte that is no UTF-8.\t'iconv -t UTF-8'.
Y2\tcontrol character\tA character that isn't printable, or a byte order mark.\tRemove it; in a text in double quotes it can be written as an escape.
Y3\ttab indent\tA tab in the indentation.\tSpaces.
Y4\tdirective\tA line with '%' before a document.\tRemove it: the texts are read as YAML 1.2.
Y5\ttag\tA tag, anywhere in the file.\tThe file is refused whole, as a tag changes what a text means. Edit it by another program; it can't be undone here.
Y6\texplicit key\tA key after '?'.\t'a: 1'.
Y7\tmerge key\tA plain key '<<'.\tAn edit would change keys that the text doesn't show. The text '\"<<\"' can be a key.
Y8\tbad key\tA key is missing, is a collection or alias, or has more than 1,024 characters.\tThe empty key is '\"\":'.
Y8\tbad key\tA line without a key beside keys: no ':', or no space after it.\tb: 2
Y8\tbad key\tA template: '{' begins a flow mapping, whose key can't be one.\tEdit what the template makes, or put the value in quotes: 'a: \"{{ x }}\"'.
Y9\tbad indent\tA line in a column in which none may be.\tLine it up with its neighbours.
Y9\tbad indent\tA line one space too far to the right.\tb: 2
Y9\tbad indent\tNo YAML: an inventory or other file of INI.\tAnother program.
Y10\tbad scalar\tA text that isn't closed, an unknown escape, two values for one key, or anything else that is no scalar.\t
Y10\tbad scalar\tA line that is indented too far: entries under a key that has a value.\tRemove the value, or line the entries up with the key.
Y10\tbad scalar\tA text with a colon and a space in it.\ta: \"note: b\"
Y10\tbad scalar\tNo YAML at all: settings with '=', a page, a script.\tAnother program.
Y11\tbad flow\tA flow collection that isn't closed; '{a:1}' without a space; '[a: b]'.\t'{a: 1}', '[{a: b}]'.
Y12\tbad block header\tSomething after '|' or '>'; a block scalar at the root.\t
Y13\tduplicate key\tA key twice in one mapping, whatever its quotes.\tRemove one.
Y14\tunknown alias\tNo anchor of that name comes before the alias in its document.\t
Y15\tanchor on key\tAn anchor before a key.\t'a: &x 1' is one of the value.
Y16\tcontent on marker line\tSomething after '---' on its line; content after '...'.\tA new line.
Y17\ttoo deep\tMore than 64 collections are nested.\t
Y18\ttoo large\tMore than 16,777,216 bytes.\tSplit the file.
Y19\tno final break\tThe text ends, without a break, in a block scalar.\tEnd the last line.
Y20\tcarriage return\tA carriage return without a line feed after it.\tLines end in LF or CR LF.
";
// The rows of the manual: end.
