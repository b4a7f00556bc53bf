//! The pages of the codes of the typing rules.
//! They are made of `docs/codes.txt` by `python3 tests/runners/codes.py --write`.

pub(super) const UNKNOWN_NAME: &str = "\
fault 20: undeclared name

A name is used that nothing declares. Its place: the name.

A variable is known from its declaration to the end of its block. Structs,
exceptions, globals and functions are known in the whole program, and a region
to the end of its block or function.

Refused, at 3:12:

    int main() {
        int count = 1;
        return coutn;
    }

Mended, and accepted:

    int main() {
        int count = 1;
        return count;
    }
";

pub(super) const DECLARED_TWICE: &str = "\
fault 21: name already declared

A name is declared a second time in one scope, or a function is named `H` or
`U`, which are regions already. Its place: the second declaration's name, or
the function's.

A block declares a name once; a block inside it may declare the name again,
and hides the first. Parameters belong to the block of the body. A function
declares the name of a region once.

Refused, at 3:9:

    int main() {
        int n = 1;
        int n = n + 1;
        return n;
    }

Mended, and accepted:

    int main() {
        int n = 1;
        n = n + 1;
        return n;
    }
";

pub(super) const TYPE_MISMATCH: &str = "\
fault 22: type mismatch

Two types differ that have to agree, or a type is not well formed. Its place:
the first token of the expression or type, unless the rule that is broken
names another.

A char converts to an int and an int to a char, NULL to each pointer that may
be null, and a pointer to another one with the same target, if its kind and
region allow it. Nothing else converts, and there are no casts.

Refused, at 3:14:

    int main() {
        int x = 3;
        int *p = x;
        return *p;
    }

Mended, and accepted:

    int main() {
        int x = 3;
        int *p = &x;
        return *p;
    }
";

pub(super) const NULL_FOR_NON_NULL: &str = "\
fault 23: NULL for a pointer that is never null

NULL stands where a pointer is never null (`@`). Its place: as for 22.

A pointer with @ is never null, so using it costs no test. A pointer with * or
? may be null; using it while it is null throws Null_Exception.

Refused, at 2:14:

    int main() {
        int @p = NULL;
        p = new 3;
        return *p;
    }

Mended, and accepted:

    int main() {
        int *p = NULL;
        p = new 3;
        return *p;
    }
";

pub(super) const REGION_NOT_LIVE: &str = "\
fault 24: region not live

A region is used that is not live there. Its place: the first token of the
pointer, region handle or operand.

A pointer is used where its region is live: the heap always, a block and a
region item to the end of the block, a dynamic region while its key is open,
and a region of the parameters if the function's effect has it. An effect that
is left out has all of these.

Refused, at 2:13:

    int first(int *`a p; {}) {
        return *p;
    }
    int main() {
        return first(new 3);
    }

Mended, and accepted:

    int first(int *`a p; {`a}) {
        return *p;
    }
    int main() {
        return first(new 3);
    }
";

pub(super) const NOT_OUTLIVED: &str = "\
fault 25: pointer may outlive its region

A pointer is converted to a region that its own does not outlive, or a
callee's constraint does not hold. Its place: the first token of the
expression converted, or for a constraint the callee's name.

A pointer converts to a pointer into a region that lives no longer: the heap
outlives all regions, a block outlives the blocks inside it, and a constraint
says which of two regions of the parameters outlives the other. So no pointer
is left when its target is gone.

Refused, at 5:13:

    int main() {
        int *`main p = NULL;
        {
            int y = 2;
            p = &y;
        }
        return *p;
    }

Mended, and accepted:

    int main() {
        int *`main p = NULL;
        {
            int y = 2;
            p = new y;
        }
        return *p;
    }
";

pub(super) const EFFECT_NOT_COVERED: &str = "\
fault 26: call may use a region that is not live

The caller may not touch a region that the callee's effect names. Its place:
the callee's name.

Each region of the effect of a function must be live at the call. An effect
that is left out has all regions of the parameters and the result.

Refused, at 5:5:

    void show(int *`a p) {
        putchar(*p);
    }
    void twice(int *`a p; {}) {
        show(p);
        show(p);
    }
    int main() {
        twice(new 65);
        return 0;
    }

Mended, and accepted:

    void show(int *`a p) {
        putchar(*p);
    }
    void twice(int *`a p; {`a}) {
        show(p);
        show(p);
    }
    int main() {
        twice(new 65);
        return 0;
    }
";

pub(super) const UNIQUE_SHARED: &str = "\
fault 27: unique pointer copied

A unique value is read in a place that others share, or `&` is taken of a
place that has one or into a unique object. Its place: the first token of the
place that is read or taken.

A unique object has one owner. Using a local that owns it moves it. A field,
an element or a global may be reached by others too: swap it with a local by
:=: first. No address is taken by which an owner could be reached.

Refused, at 4:21:

    struct Box { int *`U content; };
    int main() {
        struct Box @box = new Box{rnew(unique_region) 3};
        int *`U owner = box->content;
        ufree(owner);
        return 0;
    }

Mended, and accepted:

    struct Box { int *`U content; };
    int main() {
        struct Box @box = new Box{rnew(unique_region) 3};
        int *`U owner = NULL;
        owner :=: box->content;
        ufree(owner);
        return 0;
    }
";

pub(super) const NOT_A_PLACE: &str = "\
fault 28: expected an lvalue

An expression stands where a place (an lvalue) is needed. Its place: the first
token of the expression.

An lvalue stands on the left of =, on both sides of :=: and after &: a
variable, *p, p->f or a[i].

Refused, at 3:5:

    int main() {
        int x = 1;
        x + 1 = 3;
        return x;
    }

Mended, and accepted:

    int main() {
        int x = 1;
        x = 3 - 1;
        return x;
    }
";

pub(super) const REGION_OR_KEY_MISUSED: &str = "\
fault 29: region or key misused

A region or a key is used in a way that its kind does not allow. Its place:
the region name, the key or the expression.

ufree takes the owner of a unique object and let alias lends it, open and
free_ukey take the key of a dynamic region, and rnew a handle. A key is a
variable, a parameter or a result, and never a field, an element or a global.

Refused, at 3:11:

    int main() {
        int *p = new 3;
        ufree(p);
        return 0;
    }

Mended, and accepted:

    int main() {
        int @`U p = rnew(unique_region) 3;
        ufree(p);
        return 0;
    }
";

pub(super) const BAD_MAIN: &str = "\
fault 30: `main` is missing, or is not `int main()`

`main` is missing, or is neither `int main()` nor `int main(void)`. Its place:
1:1, or the name `main`.

A program starts at its function main, which has no parameters, no effect and
no constraints, and returns an int.

Refused, at 1:6:

    void main() {
        putchar('A');
    }

Mended, and accepted:

    int main() {
        putchar('A');
        return 0;
    }
";

pub(super) const OUTSIDE_LOOP: &str = "\
fault 31: `break` or `continue` outside a loop

`break` or `continue` stands outside a loop. Its place: the keyword.

`break` leaves the innermost loop of its function, and `continue` begins its
next turn. There is no `switch` to leave.

Refused, at 3:17:

    int main() {
        int n = 0;
        if (n == 0) break;
        return n;
    }

Mended, and accepted:

    int main() {
        int n = 0;
        if (n == 0) return 0;
        return n;
    }
";
