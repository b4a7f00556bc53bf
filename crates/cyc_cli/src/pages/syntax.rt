//! The pages of the codes of tokens and of the grammar.
//! They are made of `docs/codes.txt` by `python3 tests/runners/codes.py --write`.

pub(super) const UNKNOWN_BYTE: &str = "\
fault 1: unexpected character

No token, space or comment begins with this byte. Its place: the byte.

A token is a name, a number, a character in quotes or a sign, in ASCII; white
space and comments stand between tokens. There are no strings, no
preprocessor, no fractions and no letters beyond ASCII.

Refused, at 2:13:

    int main() {
        putchar(\"A\");
        return 0;
    }

Mended, and accepted:

    int main() {
        putchar('A');
        return 0;
    }
";

pub(super) const UNCLOSED_COMMENT: &str = "\
fault 2: unterminated comment

A comment is not closed before the text ends. Its place: the comment's first
byte.

A comment begins with /* and ends at the next */, or begins with // and ends
with its line. Comments do not nest.

Refused, at 2:15:

    int main() {
        return 0; /* the end
    }

Mended, and accepted:

    int main() {
        return 0; /* the end */
    }
";

pub(super) const NUMBER_TOO_LARGE: &str = "\
fault 3: integer constant too large: at most 2147483647

A number is above 2147483647. Its place: the number's first byte.

An int has 32 bits and a sign. So the numbers of C from 0x80000000 on are
negative here: 0xffffffff is -1, and the least is -2147483647 - 1.

Refused, at 2:12:

    int main() {
        return 0x80000000 < 0;
    }

Mended, and accepted:

    int main() {
        return -2147483647 - 1 < 0;
    }
";

pub(super) const TEXT_TOO_LONG: &str = "\
fault 4: source file too large: at most 1048576 bytes

The text is longer than 1,048,576 bytes. Its place: 1:1.

A program is one source file. Comments and white space count too.

A line below that ends with (N times) stands N times, with the number of the
copy in place of #.

Refused, at 1:1:

    // each of these lines has sixty-four bytes with its line feed.   (16384 times)
    int main() { return 0; }

Mended, and accepted:

    // each of these lines has sixty-four bytes with its line feed.   (1000 times)
    int main() { return 0; }
";

pub(super) const MEMORY: &str = "\
fault 5: out of memory

An allocation was refused. Its place: 0:0, which is no place of the text.

No source file is refused so: the program ran out of memory, ends with `no
memory` and the status 8, and writes no file. A compilation needs memory in
proportion to the text: some tens of megabytes for the longest.
";

pub(super) const TOO_MANY_TOKENS: &str = "\
fault 6: too many tokens: at most 60000

The text has more than 60,000 tokens. Its place: the first token too many.

A token is a name, a number, a character in quotes, a keyword or a sign; white
space and comments are none.

A line below that ends with (N times) stands N times, with the number of the
copy in place of #.

Refused, at 59997:5:

    int main() {
        ;                                  (60000 times)
        return 0;
    }

Mended, and accepted:

    int main() {
        ;                                  (1000 times)
        return 0;
    }
";

pub(super) const UNEXPECTED_TOKEN: &str = "\
fault 10: unexpected token

The tokens up to this one begin no program. Its place: the token.

No program begins with the tokens up to this one. The mistake is at this token
or before it; most often something is missing just before it. The message
lists what could stand there.

Refused, at 3:5:

    int main() {
        int x = 3
        return x;
    }

Mended, and accepted:

    int main() {
        int x = 3;
        return x;
    }
";

pub(super) const UNEXPECTED_END: &str = "\
fault 11: unexpected end of file

The text ends where its tokens are not yet a program. Its place: just past the
last byte.

A parenthesis, a brace or a comment above has no end, or the last statement
has no semicolon.

Refused, at 6:1:

    int main() {
        if (getchar() == 'x') {
            return 3;
        return 0;
    }

Mended, and accepted:

    int main() {
        if (getchar() == 'x') {
            return 3;
        }
        return 0;
    }
";

pub(super) const NESTING_TOO_DEEP: &str = "\
fault 12: nesting too deep: at most 200 levels

More than 200 open brackets, prefix operators, initial values and statements
stand round a token. Its place: the token.

Each bracket, each sign before a value, each initial value and each statement
around a token is a level. A chain of signs at one level, such as a + b + c,
is one of them; fault 13 limits its length.

A line below that ends with (N times) stands N times, with the number of the
copy in place of #.

Refused, at 203:5:

    int main() {
        return
        (                                  (200 times)
        1
        )                                  (200 times)
        ;
    }

Mended, and accepted:

    int main() {
        return
        (                                  (190 times)
        1
        )                                  (190 times)
        ;
    }
";

pub(super) const LIST_TOO_LONG: &str = "\
fault 13: too many items in a list or a chain: at most 64

A list has more than 64 items, a chain at one level more than 64 operators, or
a type more than 64 marks. Its place: the first token of the one too many.

The limit of 64 holds for fields of a struct, parameters, arguments, values,
regions and constraints, for the signs of a chain such as a + b + c, and for
the marks of a type.

A line below that ends with (N times) stands N times, with the number of the
copy in place of #.

Refused, at 67:9:

    int main() {
        int sum = 0
            + 1                            (65 times)
            ;
        return sum;
    }

Mended, and accepted:

    int main() {
        int sum = 0
            + 1                            (64 times)
            ;
        sum = sum + 1;
        return sum;
    }
";
