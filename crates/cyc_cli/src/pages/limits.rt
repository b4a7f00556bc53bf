//! The pages of the codes by which `compile` alone refuses.
//! They are made of `docs/codes.txt` by `python3 tests/runners/codes.py --write`.

pub(super) const TOO_MANY_FUNCTIONS: &str = "\
fault 50: too many functions: at most 4096

The program has more than 4,096 functions. Its place: the name of the first
function too many.

All functions of the source file count, called or not.

A line below that ends with (N times) stands N times, with the number of the
copy in place of #.

Accepted by check, and refused by compile with fault 50, at 4097:5:

    void f#() { }                          (4096 times)
    int main() { return 0; }

Mended, and accepted:

    void f#() { }                          (1000 times)
    int main() { return 0; }
";

pub(super) const FRAME_TOO_LARGE: &str = "\
fault 51: stack frame too large: at most 256 words

A function's frame needs more than 256 words. Its place: the function's name.

A frame has 24 words of its own, one for each parameter and local (three for a
? pointer), and one for each value that the longest expression needs at once.
docs/LANGUAGE.md says how they are counted.

A line below that ends with (N times) stands N times, with the number of the
copy in place of #.

Accepted by check, and refused by compile with fault 51, at 1:5:

    int main() {
        int x# = 3;                        (300 times)
        return x1;
    }

Mended, and accepted:

    int half() {
        int x# = 3;                        (150 times)
        return x1;
    }
    int main() {
        int x# = 3;                        (150 times)
        return half();
    }
";
