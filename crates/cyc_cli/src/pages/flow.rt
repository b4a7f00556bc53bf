//! The pages of the codes of the flow rules.
//! They are made of `docs/codes.txt` by `python3 tests/runners/codes.py --write`.

pub(super) const EMPTY_VARIABLE: &str = "\
fault 40: variable may be uninitialized

A variable is used that may be empty: it was never given a value, or its
unique value was consumed. Its place: the name.

A variable needs a value on each path to its use; conditions are not
evaluated. A unique pointer or a key has no value after it is moved, and a
variable that the body of a try moves or assigns may have none in its clauses.

Refused, at 4:12:

    int main() {
        int x;
        if (getchar() == 'a') x = 1;
        return x;
    }

Mended, and accepted:

    int main() {
        int x;
        if (getchar() == 'a') x = 1;
        else x = 2;
        return x;
    }
";

pub(super) const LOCKED_VARIABLE: &str = "\
fault 41: variable in use

A variable is used or assigned while it is locked, or while an expression that
peeks at it is evaluated. Its place: the name.

While let alias lends an owner, or open opens a key, the variable is not used
itself, to the end of the block. The same holds for a unique pointer that the
left side of an assignment reads, while the right side is evaluated.

Refused, at 9:15:

    void show(int *`a p) {
        putchar(*p);
    }
    int main() {
        int @`U u = rnew(unique_region) 65;
        {
            let alias <`a> int @`a x = u;
            show(x);
            ufree(u);
        }
        return 0;
    }

Mended, and accepted:

    void show(int *`a p) {
        putchar(*p);
    }
    int main() {
        int @`U u = rnew(unique_region) 65;
        {
            let alias <`a> int @`a x = u;
            show(x);
        }
        ufree(u);
        return 0;
    }
";

pub(super) const LOOP_EMPTIES_VARIABLE: &str = "\
fault 42: loop may leave a variable uninitialized

A loop's body leaves a variable less full than at its head. Its place: `while`
or `for`.

A variable that has a value before a loop needs one at the end of its body
too: each turn is checked as the first one is.

Refused, at 4:5:

    int main() {
        int @`U u = rnew(unique_region) 65;
        int n = 3;
        while (n > 0) {
            n = n - 1;
            ufree(u);
        }
        return 0;
    }

Mended, and accepted:

    int main() {
        int @`U u = rnew(unique_region) 65;
        int n = 3;
        while (n > 0) {
            n = n - 1;
        }
        ufree(u);
        return 0;
    }
";

pub(super) const MISSING_RETURN: &str = "\
fault 43: function may end without returning a value

A path through a function with a result reaches its end. Its place: the
function's last `}`.

A function with a result ends with a return or a throw on each path.
Conditions are not evaluated, so the end is reached after while (1) too.

Refused, at 4:1:

    int sign(int n) {
        if (n < 0) return -1;
        if (n > 0) return 1;
    }
    int main() {
        return sign(3);
    }

Mended, and accepted:

    int sign(int n) {
        if (n < 0) return -1;
        if (n > 0) return 1;
        return 0;
    }
    int main() {
        return sign(3);
    }
";
