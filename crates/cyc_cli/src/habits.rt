//! This file finds usual mistakes of programmers (habits) at a fault. In each row of a table of habits, the first group of words
//! precedes the position of the fault, and the second group begins at this position. In each row of a table of habits, the third
//! group of words names a token that the parser would accept at the position of the fault.
use crate::advice::hint;
use crate::excerpt::line_at;
use cyc_words::Code;

const UNKNOWN_BYTE: &str = "\
scanf ..~fscanf .. ~~ \" ~~ any ~~ read the next number by next_int(&x), and a word by read_word(s), and compile --with lib/*.cyc
fgets ..~gets .. ~~ \" ~~ any ~~ read a line by read_line(s), and compile --with lib/text.cyc
==~!= ~~ \" ~~ any ~~ there are no strings: compare one byte with 'x', two texts by same_texts(s, t), and a text with the words that cyclone pack no gives by text_is_1(s, 0x6e6f0000), and compile --with lib/text.cyc
= ~~ \" ~~ any ~~ there are no strings: write char ?s = text_1(heap_region, 0x6e6f0000); with the words that cyclone pack no gives, and compile --with lib/text.cyc
any ~~ \" ~~ any ~~ there are no strings: print a text by the call that cyclone pack 'Hi\\n' gives, and a number by print_int(x), and compile --with lib/*.cyc
any ~~ #include ~~ any ~~ delete the line: there are no headers, and putchar and getchar are built in
any ~~ #define ~~ any ~~ there is no preprocessor: write a global for a constant, as int N = 10;, and a function for a macro with arguments
any ~~ #if~#ifdef~#ifndef~#else~#elif~#endif~#undef~#pragma~#error~#line~# 1 ~~ any ~~ delete the line: there is no preprocessor
catch (~catch( ~~ ... ~~ any ~~ write the clauses in braces: catch { case &E: ..; default: ..; }
any ~~ ... ~~ any ~~ declare each parameter: a function takes as many arguments as it declares, and a ? pointer passes many values
any ~~ .. ~~ any ~~ there are no ranges: write i = 0; while (i < 10) { ..; i = i + 1; }
include ..~import ..~package ..~using .. ~~ . ~~ any ~~ delete the line: a program is one file, and putchar and getchar are built in
System~Console~console~sys ~~ . ~~ any ~~ print a number by print_int(x), and a text by the call that cyclone pack 'Hi\\n' gives, and compile --with lib/*.cyc
any ~~ .length~.len~.size~.count ~~ any ~~ write numelts(a) for the number of elements of a ? pointer
any ~~ method ~~ any ~~ there are no methods: pass the object as an argument, as in f(x)
{~, ~~ . ~~ any ~~ leave out the names: write one value for each field in order, as in new P{1, 2}
any ~~ .0~.1~.2~.3~.4~.5~.6~.7~.8~.9 ~~ any ~~ there are no fractions: int and char are the only number types
any ~~ . ~~ any ~~ write -> after a pointer to a struct: struct P @p = new P{1, 2}; p->x = 3;
*~@~?~region<~region_t<~uregion_key_t<~alias<~alias < ~~ ' ~~ any ~~ begin the name of a region with a backquote: `r
any ~~ ‘~’~“~”~„ ~~ any ~~ write the ASCII quote ' on both sides of a character: there are no strings
any ~~ \u{feff} ~~ any ~~ save the file as UTF-8 without a byte-order mark
any ~~ wide ~~ any ~~ write names in ASCII letters, digits and _: other letters stand only in comments
any ~~ $ ~~ any ~~ write names in letters, digits and _
any ~~ ' ~~ any ~~ write one byte between the quotes, or \\n \\t \\r \\0 \\\\ \\': write any other byte as a number, as 0x1b";

const NUMBER_TOO_LARGE: &str = "\
any ~~ 0xffffffff~0xFFFFFFFF ~~ any ~~ an int has 32 bits and a sign: write -1
- ~~ 2147483648 ~~ any ~~ an int has 32 bits: write -2147483647 - 1";

const UNEXPECTED_TOKEN: &str = "\
malloc ..~calloc ..~realloc .. ~~ any ~~ any ~~ allocate by new: new S{1, 2}, new 5 or new {for i < 10 : 0}
memcpy ..~memset ..~memmove .. ~~ any ~~ any ~~ write a loop, or copy an array by new {for k < n : a[k]}
(unsigned)~(unsigned int)~(uint32_t)~(u32) ~~ any ~~ any ~~ there are no unsigned numbers: write x >> n & (1 << 32 - n) - 1 to shift, and (a ^ least) < (b ^ least) to compare, with least = -2147483647 - 1; docs/FROM_C.md has / and %
: ~~ = ~~ any ~~ write x = 3; to assign, and a :=: b; to swap
elif ..~elsif ..~elseif .. ~~ any ~~ any ~~ write else if
any ~~ and ~~ any ~~ write && for and
any ~~ or ~~ any ~~ write || for or
not ~~ any ~~ any ~~ write !x for not x
==~!= ~~ = ~~ any ~~ write == or !=: there is no === and no !==
< ~~ > ~~ an expression ~~ write != for <>
>> ~~ > ~~ any ~~ there is no >>>: write x >> n & mask, whose mask has 32 - n ones, as 0x7fffffff for n of 1
= ~~ <~> ~~ any ~~ write <= or >=, with the = last
finally ~~ { ~~ any ~~ there is no finally: repeat its statements after the try
int~char~void~int *~int ?~int @~char ?~char * ~~ datatype~exn~region~region_t~uregion_key_t~open~let~alias~NewDynamicRegion~new_ukey~new~rnew~for~if~else~while~return~break~continue~throw~try~catch~case~default~NULL~numelts~ufree~free_ukey~unique_region~heap_region~struct~int~char~void ~~ any ~~ choose another name: this is a keyword
if (~if(~while (~while( ~~ int~char~struct ~~ any ~~ declare the variable before the if or the while
if~while ~~ any ~~ `(` ~~ put parentheses around the condition: if (x > 3) y = 1;
any ~~ +~-~*~/~%~<<~>>~|~&~^~(~==~<~> ~~ `;` ~~ begin a global with one constant, and assign other values in main
any ~~ any ~~ a constant ~~ begin a global with one constant, and assign other values in main
delete~delete[ ~~ any ~~ any ~~ write ufree(p) for a unique pointer: each other object ends with its region
let~let mut~auto~var~val ~~ any ~~ any ~~ write the type before the name: int x = 3;
any ~~ let~auto~var~val ~~ a declaration ~~ write the type before the name: int x = 3;
any ~~ fn~def~func~fun~function~sub~proc ~~ a declaration ~~ write the return type first: int f(int n) { .. }
fn~def~func~fun~function ~~ any ~~ any ~~ write the return type first: int f(int n) { .. }
any ~~ class~interface~impl~trait ~~ a declaration ~~ write a struct and functions that take it: struct P { int x; int y; }; int f(struct P *p) { .. }
class~interface~impl~trait ~~ any ~~ any ~~ write a struct and functions that take it: struct P { int x; int y; }; int f(struct P *p) { .. }
any ~~ using~namespace~import~package~use~mod~module ~~ a declaration ~~ delete the line: a program is one file, and its functions know each other
any ~~ public~private~protected~pub~final~abstract~virtual~export ~~ a declaration ~~ delete the word: a name declared outside of functions is known in the whole program
any ~~ template ~~ a declaration ~~ there are no templates: write one function for each type
< ~~ int~char~struct ~~ an expression ~~ there are no templates: call the function by its name only
any ~~ = ~~ `)`, `,` or `;` ~~ there are no default arguments: pass a value in each call
; ~~ int~char~struct ~~ `{` ~~ separate the parameters by commas: int f(int a, int b)
template~template<~template < ~~ any ~~ any ~~ there are no templates: write one function for each type
int~char ~~ & ~~ any ~~ there are no references: write int *x for the parameter, and &x for the argument
( ~~ any ~~ `int` ~~ declare an exception with one int or none: datatype exn { Done; Broken(int); };
new {~new{ ~~ any ~~ `for` ~~ make the array of one value, and then assign its elements: new {for i < 3 : 0}, and a[0] = 1; a[1] = 2;
any ~~ any ~~ `case` or `default` ~~ begin each clause with case &E: or case &E(n):, and the last one, if you like, with default:
case ~~ name ~~ any ~~ write & before the exception: case &E: or case &E(n):
any ~~ case~default ~~ a statement, a type or `}` ~~ there is no switch, and case and default stand only in a catch: write if (c == 1) f(); else if (c == 2) g(); else h();
throw ~~ any ~~ any ~~ throw a new exception: throw new Done; or throw new Broken(3);
throw new .. ~~ ) ~~ any ~~ write the int of the exception in parentheses, or no parentheses: throw new Broken(3); or throw new Done;
raise ~~ any ~~ any ~~ throw a new exception: throw new Done; or throw new Broken(3);
any ~~ throws ~~ any ~~ delete the word and the names after it: each function may throw
loop~forever~repeat ~~ { ~~ any ~~ write while (1) { .. }, and break; to leave it
unless ..~until .. ~~ any ~~ any ~~ write if (!(x)) or while (!(x))
then ~~ any ~~ any ~~ delete the word then: if (x > 0) x = 2;
foreach .. ~~ any ~~ any ~~ there is no loop over elements: write i = 0; while (i < numelts(a)) { ..; i = i + 1; }
Return~RETURN~If ..~While ..~For ..~Int~INT~Char~Void~Struct~Else ~~ any ~~ any ~~ write keywords in small letters: int, if, while, return
any ~~ Int~INT~Char~Void~VOID~Struct~STRUCT ~~ a declaration ~~ write keywords in small letters: int, if, while, return
any ~~ : ~~ `,`, an operator or `}` ~~ leave out the names: write one value for each field in order, as in new P{1, 2}
any ~~ :: ~~ any ~~ there is no ::: write the plain name, and allocate by new 5
vec ~~ ! ~~ any ~~ allocate an array by new: int ?a = new {for i < 10 : 0};
&mut~& mut ~~ any ~~ any ~~ write &x: each pointer may change its target
NewDynamicRegion ~~ any ~~ any ~~ declare a dynamic region by let NewDynamicRegion{<`k> key} = new_ukey();
region ~~ any ~~ `<` ~~ name the region and its handle: region<`r> h;
rnew~open~numelts~ufree~free_ukey ~~ any ~~ `(` ~~ put parentheses around the operand, as in rnew(h) 3, open(key), numelts(a) and ufree(p)
rnew( ..~rnew ( .. ~~ , ~~ any ~~ write the value after the parentheses: rnew(h) 3
region< .. ~~ ( ~~ any ~~ declare the region without parentheses: region<`r> h;
main(~main ( ~~ name ~~ any ~~ declare main without parameters, and read the input by getchar: int main() { .. }
main .. ~~ [ ~~ any ~~ declare main without parameters, and read the input by getchar: int main() { .. }
(u8)~(u16)~(u32)~(u64)~(i8)~(i16)~(i32)~(i64)~(byte)~(BYTE)~(DWORD)~(uint)~(uchar)~(size_t)~(ssize_t)~(int8_t)~(int16_t)~(int32_t)~(int64_t)~(uint8_t)~(uint16_t)~(uint32_t)~(uint64_t) ~~ any ~~ any ~~ there are no casts: delete it, or write char(x) for the low byte of x
any ~~ for ~~ any ~~ there is no for statement: write i = 0; while (i < n) { ..; i = i + 1; }
+ ~~ + ~~ any ~~ there is no ++: write i = i + 1
any ~~ ++ ~~ any ~~ there is no ++: write i = i + 1
any ~~ + ~~ an expression~a constant ~~ delete the +, and write x = x + 5 for x += 5
-- ~~ any ~~ any ~~ there is no --: write i = i - 1
- ~~ -> ~~ any ~~ there is no --: write i = i - 1
+~-~*~/~%~&~|~^~<<~>> ~~ = ~~ any ~~ there is no += and the like: write s = s + 5
any ~~ ? ~~ any ~~ there is no ?: operator: write if (a > b) y = a; else y = b;
sizeof~sizeof(~sizeof (~sizeof(char~sizeof (char ~~ any ~~ any ~~ there is no sizeof: write numelts(a) for the number of elements of a ? pointer
( ~~ int~struct~void ~~ any ~~ there are no casts: delete it, since an int needs none and NULL is the null pointer
(short)~(long)~(float)~(double)~(bool) ~~ any ~~ any ~~ there are no casts: delete it, since an int needs none and NULL is the null pointer
(unsigned *~(unsigned* ~~ ) ~~ any ~~ there are no casts: delete it, since an int needs none and NULL is the null pointer
(char ~~ ) ~~ any ~~ there are no casts: write char(x) for the low byte of x
(char ~~ * ~~ any ~~ there are no casts: delete it, since an int needs none and NULL is the null pointer
any ~~ short~long~signed~unsigned~float~double~bool~_Bool~size_t~int8_t~uint8_t~int32_t~uint32_t~int64_t~uint64_t~i8~u8~i16~u16~i32~u32~i64~u64~usize~isize~boolean~byte~Integer~ssize_t~ptrdiff_t~intptr_t~uintptr_t~int16_t~uint16_t~uint~uchar~ulong~ushort ~~ any ~~ write int, or char for 0 to 255: these are the only number types
short~long~signed~unsigned~float~double~bool~_Bool~size_t~int8_t~uint8_t~int32_t~uint32_t~int64_t~uint64_t~i8~u8~i16~u16~i32~u32~i64~u64~usize~isize~boolean~byte~Integer~ssize_t~ptrdiff_t~intptr_t~uintptr_t~int16_t~uint16_t~uint~uchar~ulong~ushort ~~ any ~~ any ~~ write int, or char for 0 to 255: these are the only number types
final ~~ any ~~ any ~~ delete the word: there is no final
any ~~ const~static~extern~inline~register~volatile~restrict~unsafe ~~ any ~~ delete the word: there is no const, static, extern, inline, register, volatile or restrict
static ~~ any ~~ any ~~ delete the word static, and keep the value in a global
const~static~extern~inline~register~volatile~restrict~unsafe ~~ any ~~ any ~~ delete the word: there is no const, static, extern, inline, register, volatile or restrict
any ~~ string~String~str ~~ a declaration ~~ there are no strings: write an array of chars: char ?s = new {for i < 3 : char(0)};
string~String~str ~~ any ~~ any ~~ there are no strings: write an array of chars: char ?s = new {for i < 3 : char(0)};
any ~~ typedef ~~ any ~~ there is no typedef: write the type itself, as struct P after struct P { .. };
typedef ~~ any ~~ any ~~ there is no typedef: write the type itself, as struct P after struct P { .. };
any ~~ enum ~~ any ~~ there is no enum: write int RED = 0; int GREEN = 1;
enum ~~ any ~~ any ~~ there is no enum: write int RED = 0; int GREEN = 1;
any ~~ union ~~ any ~~ there is no union: write a struct with a field for each, and one that tells which is set
union ~~ any ~~ any ~~ there is no union: write a struct with a field for each, and one that tells which is set
switch ..~match ..~match~when .. ~~ any ~~ any ~~ there is no switch: write if (c == 1) f(); else if (c == 2) g(); else h();
do ~~ any ~~ any ~~ there is no do: write while (1) { ..; if (!(i < n)) break; }
goto ~~ any ~~ any ~~ there is no goto: leave loops by break, a function by return, and several blocks by throw
: ~~ : ~~ any ~~ there is no ::: write putchar(c) for std::cout << c
: ~~ any ~~ any ~~ there is no goto: write a label only before a block
new ~~ struct ~~ any ~~ delete the word struct: new P{1, 2}
new ~~ int ~~ any ~~ write a value after new, as new 5, or make an array: new {for i < 10 : 0}
new char ~~ any ~~ any ~~ write a value after new, as new char(65), or make an array: new {for i < 10 : char(0)}
) ~~ ; ~~ any ~~ delete the line, or the ; before a body: there are no prototypes, and functions know each other
} ~~ ; ~~ any ~~ delete the semicolon after the function
any ~~ [ ~~ any ~~ allocate an array by new: int ?a = new {for i < 10 : 0};
; ~~ else ~~ any ~~ put the statements of the if into { }, with no semicolon before else
)~else ~~ int~struct ~~ any ~~ put { } around the declaration, or end what stands before it with ;
) char~else char ~~ any ~~ any ~~ put { } around the declaration, or end what stands before it with ;
(int ~~ any ~~ `)` ~~ declare an exception with one int or none: datatype exn { Done; Broken(int); };
int~char ~~ ,~) ~~ any ~~ name each parameter: int max(int a, int b)
int~void ~~ ( ~~ any ~~ there are no pointers to functions: pass an int, and choose the function by if
catch ~~ ( ~~ any ~~ write the clauses in braces: catch { case &E: ..; default: ..; }
) ~~ -> ~~ `{` ~~ write the return type first: int f(int n) { .. }
) ~~ { ~~ any ~~ write a block by itself, or after if, else, while, try, catch or the head of a function
any ~~ ( ~~ any ~~ move the function out of this one, or write the } that is missing above: only a name can be called
void ~~ * ~~ any ~~ there is no void *: write the type that it points to, as int *p
any ~~ void *~void* ~~ any ~~ there is no void *: write the type that it points to, as int *p
any ~~ void ~~ a statement, a type or `}` ~~ write int, char or a pointer type: no variable is void
struct ~~ { ~~ any ~~ name the struct: struct P { int x; int y; };
any ~~ { ~~ a name or `<` ~~ declare the struct outside of functions, beside main
= ~~ { ~~ any ~~ make a struct by new P{1, 2}, and an array by new {for i < 10 : 0}
any ~~ @ ~~ any ~~ write struct before its name: struct P @p = new P{1, 2};
number ~~ ,0~,1~,2~,3~,4~,5~,6~,7~,8~,9 ~~ `;` .. ~~ write the number without commas: 1000 for 1,000
any ~~ , ~~ any ~~ write one declaration or assignment for each variable: int a; int b;, or a = 1; b = 2;
=0~= 0~(0~[0~, 0~+ 0~return 0 ~~ 0~1~2~3~4~5~6~7~8~9 ~~ any ~~ there are no octal numbers: write 8 for 010
number ~~ u~U~l~L~ul~uL~Ul~UL~lu~LU~ll~LL~ull~uLL~Ull~ULL~llu ~~ any ~~ delete the suffix of the number
number ~~ b0~b1~B0~B1 ~~ any ~~ there are no binary numbers: write 0x5 for 0b101
number ~~ _0~_1~_2~_3~_4~_5~_6~_7~_8~_9 ~~ any ~~ write the number without _: 1000000 for 1_000_000
number ~~ e0~e1~e2~e3~e4~e5~e6~e7~e8~e9~e-~e+~f ~~ any ~~ there are no fractions and no powers of ten: int and char are the only number types
number ~~ name ~~ `;` ..~`)` .. ~~ write an operator between them: 2 * x for 2x
any ~~ call ~~ a declaration ~~ write the return type first, as int main() { .. }, or delete a } too many above this call
any ~~ name ~~ a type, `)` or `;`~a type ~~ write the type of each parameter: int add(int a, int b)
any ~~ { ~~ `;`, `=` or `(` ~~ put parentheses after the name of the function: int main() { .. }
any ~~ name ~~ a type or `}` ~~ write the type of each field: struct P *next;
any ~~ name ~~ a region ~~ begin the name of a region with a backquote: `r
marked ~~ name ~~ `;`, `=` or `(`~`)`, `,` or `;`~`;` or `=` ~~ begin the name of a region with a backquote: int *`r p
} ~~ any ~~ a declaration ~~ delete one } before it: only structs, exceptions, globals and functions stand outside of functions
any ~~ any ~~ a declaration ~~ put it into main: only structs, exceptions, globals and functions stand outside of functions
any ~~ } ~~ `;` .. ~~ write ; before it, or return a value: return e;
retrun ..~reutrn ..~retunr ..~retrn ..~retun ..~rturn .. ~~ any ~~ `;` .. ~~ did you mean `return`?
whlie ..~wihle ..~whiel ..~whille .. ~~ any ~~ `;` .. ~~ did you mean `while`?
any ~~ = ~~ `;` ~~ delete the value: a new object gives each field one, as new P{1, 2}
any ~~ name ~~ `;`, an operator or `:` ~~ begin a declaration with int, char or struct P, as struct P @p = new P{1, 2};, or put parentheses after a function: f(x)
any ~~ 0~1~2~3~4~5~6~7~8~9~' ~~ `;` .. ~~ write an operator before it, or put parentheses around the argument: f(3)
any ~~ any ~~ `;` .. ~~ write ; before it: each statement, declaration and struct ends with one
any ~~ ;~{~}~return~if~while~for~else ~~ `)` .. ~~ write ) before it to close the (
any ~~ any ~~ `)`, `,` .. ~~ write , or ) before it: commas separate arguments and parameters
any ~~ any ~~ `)` .. ~~ write ) before it to close the (
any ~~ any ~~ `]` .. ~~ write ] before it to close the [
any ~~ any ~~ `,`, an operator or `}` ~~ write , or } before it to close the {
any ~~ any ~~ `catch` ~~ write the clauses after the try: try .. catch { case &E: ..; default: ..; }
* ~~ / ~~ any ~~ delete the inner comment: the first */ ends it
any ~~ if ~~ an expression .. ~~ an if has no value: write if (a > b) y = a; else y = b;
any ~~ any ~~ an expression .. ~~ write an expression before it: a variable, a number, a call or an expression in parentheses";

const UNEXPECTED_END: &str = "\
any ~~ any ~~ a declaration ~~ write int main() { return 0; }: the file has no program
any ~~ any ~~ a statement ..~a statement, a type or `}` ~~ write } after the last statement of its block";

const UNKNOWN_NAME: &str = "\
malloc ..~calloc ..~realloc .. ~~ any ~~ any ~~ allocate by new: new S{1, 2}, new 5 or new {for i < 10 : 0}
setjmp(~longjmp( ~~ any ~~ any ~~ write try f(x); catch { case &Broken(n): g(n); }, and throw new Broken(3); for longjmp
new ~~ call ~~ any ~~ write the values in braces: new P{3}
any ~~ malloc~calloc~realloc ~~ any ~~ allocate by new: new 5, new P{1, 2} or new {for i < 10 : 0}
any ~~ free ~~ any ~~ write ufree(p) for a unique pointer, allocated by rnew(unique_region): each other object ends with its region
any ~~ exit~abort~panic~_exit ~~ any ~~ return from main to end the program, or throw an exception that main catches
any ~~ EOF ~~ any ~~ write -1: getchar returns it at the end of the input
any ~~ true~false~TRUE~FALSE~True~False~YES~NO ~~ any ~~ write 1 for true, and 0 for false
any ~~ null~nullptr~None~nil~Null~Nil ~~ any ~~ write NULL
any ~~ printf~print~println~cout~write~echo ~~ any ~~ print a number by print_int(x), and a text by the call that cyclone pack 'Hi\\n' gives, and compile --with lib/*.cyc
any ~~ puts~fputs ~~ any ~~ write print_line(s), and compile --with lib/text.cyc
any ~~ putc~fputc ~~ any ~~ write putchar(c)
any ~~ scanf~fscanf~input~cin~read~fread ~~ any ~~ read the next number by next_int(&x), and a word by read_word(s), and compile --with lib/*.cyc
any ~~ gets~fgets~getline~readline ~~ any ~~ write read_line(s), and compile --with lib/text.cyc
any ~~ getc~fgetc ~~ any ~~ write getchar()
any ~~ strlen ~~ any ~~ write text_length(s), and compile --with lib/text.cyc
any ~~ strcmp~strncmp ~~ any ~~ write compare_texts(a, b), and compile --with lib/text.cyc
any ~~ strcpy~strncpy ~~ any ~~ write copy_text(to, from), and compile --with lib/text.cyc
any ~~ strdup ~~ any ~~ write new_text(heap_region, s), and compile --with lib/text.cyc
any ~~ strchr ~~ any ~~ write find_char(s, c, 0), and compile --with lib/text.cyc
any ~~ strstr ~~ any ~~ write find_text(s, part, 0), and compile --with lib/text.cyc
any ~~ strtok ~~ any ~~ write split_words(s, starts), and compile --with lib/text.cyc
any ~~ isdigit ~~ any ~~ write is_digit(c), and compile --with lib/text.cyc
any ~~ isalpha ~~ any ~~ write is_letter(c), and compile --with lib/text.cyc
any ~~ isspace ~~ any ~~ write is_space(c), and compile --with lib/text.cyc
any ~~ toupper ~~ any ~~ write to_upper(c), and compile --with lib/text.cyc
any ~~ tolower ~~ any ~~ write to_lower(c), and compile --with lib/text.cyc
any ~~ atoi~atol~strtol ~~ any ~~ write number_of(s), and compile --with lib/numbers.cyc
any ~~ itoa ~~ any ~~ write print_int(n), and compile --with lib/numbers.cyc
any ~~ abs~labs ~~ any ~~ write absolute_of(n), and compile --with lib/numbers.cyc
any ~~ max~min ~~ any ~~ write greater_of(a, b) or smaller_of(a, b), and compile --with lib/numbers.cyc
any ~~ rand~srand~random ~~ any ~~ write random_below(r, n) after struct Random_state @r = new Random_state{1};, and compile --with lib/random.cyc
any ~~ qsort~sort ~~ any ~~ write sort_ints(a, count), and compile --with lib/sorted.cyc
any ~~ swap ~~ any ~~ write a :=: b;
any ~~ strcat~memcpy~memset~memmove~memcmp~pow~sqrt~time~fabs ~~ any ~~ write the function: the library has none like it
any ~~ Int_buffer~new_int_buffer~need_int_row~add_int~int_at~set_int_at~take_int~Char_buffer~new_char_buffer~need_char_row~add_char~add_text~add_line~char_at~buffer_text~print_buffer~clear_chars ~~ any ~~ compile --with lib/buffer.cyc, which declares it
any ~~ No_root~fixed_of~fixed_floor~fixed_product~fixed_quotient~fixed_root~print_fixed ~~ any ~~ compile --with lib/fixed.cyc, which declares it
any ~~ tell_word~tell_1~tell_2~tell_3~tell_4~tell_5~tell_6~tell_7~tell_8 ~~ any ~~ compile --with lib/form.cyc, which declares it
any ~~ Int_list~push_int~count_ints~reverse_ints~Queue_empty~Int_queue~new_int_queue~add_last~take_first ~~ any ~~ compile --with lib/list.cyc, which declares it
any ~~ Bad_number~Large_number~print_digit~count_digits~print_number~print_int~print_int_line~print_width~print_hex~with_digit~with_sign~read_int~next_int~number_of~absolute_of~smaller_of~greater_of ~~ any ~~ compile --with lib/numbers.cyc, which declares it
any ~~ Random_state~next_random~random_below ~~ any ~~ compile --with lib/random.cyc, which declares it
any ~~ Ring_full~Ring_empty~Int_ring~new_int_ring~ring_put~ring_take ~~ any ~~ compile --with lib/ring.cyc, which declares it
any ~~ sort_ints~sort_texts~sort_order~place_sorted~find_sorted~insert_sorted~remove_sorted ~~ any ~~ compile --with lib/sorted.cyc, which declares it
any ~~ Stack_empty~Stack_cell~Int_stack~push_stack~pop_stack~top_of_stack~free_stack ~~ any ~~ compile --with lib/stack.cyc, which declares it
any ~~ Table_full~Int_table~new_int_table~first_slot~slot_of~has_int~get_int~put_int~drop_int ~~ any ~~ compile --with lib/table.cyc, which declares it
any ~~ is_digit~is_letter~is_space~to_lower~to_upper~text_length~print_text~print_line~print_left~print_right~print_part~print_many~say_1~say_2~say_3~say_4~say_5~say_6~say_7~say_8~put_word~text_1~text_2~text_3~text_4~text_8~new_text~new_part~copy_text~compare_texts~same_texts~word_at~text_is_1~text_is_2~text_is_4~find_char~has_text_at~find_text~starts_with~ends_with~read_line~read_word~split_text~split_words ~~ any ~~ compile --with lib/text.cyc, which declares it
any ~~ Text_entry~Text_table~new_text_table~row_of~entry_of~need_entry~get_text~put_text~count_text ~~ any ~~ compile --with lib/text_table.cyc, which declares it
any ~~ unsigned_less~unsigned_shift~rotate_word~unsigned_divide~unsigned_remainder~print_unsigned ~~ any ~~ compile --with lib/unsigned.cyc, which declares it
any ~~ Wide_int~high_product~set_wide~set_product~set_unsigned_product~add_wide~subtract_wide~multiply_wide~compare_wide~negate_words~divide_words~divide_wide~print_wide ~~ any ~~ compile --with lib/wide.cyc, which declares it
any ~~ assert ~~ any ~~ write if (!(x > 0)) throw new Broken;, and declare datatype exn { Broken; };
any ~~ sizeof ~~ any ~~ there is no sizeof: write numelts(a) for the number of elements of a ? pointer
any ~~ len~length~size~count ~~ any ~~ write numelts(a) for the number of elements of a ? pointer
any ~~ INT_MAX ~~ any ~~ write 2147483647
any ~~ INT_MIN ~~ any ~~ write -2147483647 - 1
any ~~ short~long~signed~unsigned~float~double~bool~_Bool~size_t~int8_t~uint8_t~int32_t~uint32_t~int64_t~uint64_t~i8~u8~i16~u16~i32~u32~i64~u64~usize~isize~boolean~byte~Integer~ssize_t~ptrdiff_t~intptr_t~uintptr_t~int16_t~uint16_t~uint~uchar~ulong~ushort ~~ any ~~ write int, or char for 0 to 255: these are the only number types
any ~~ UINT_MAX ~~ any ~~ an int has 32 bits and a sign: write -1
any ~~ this~self ~~ any ~~ there is no this: pass the object as a parameter
any ~~ Break~Continue~Return~Ufree~Getchar~Putchar~Numelts ~~ any ~~ write the name as it is declared: break, continue, getchar, putchar
throw new~case & ~~ any ~~ any ~~ declare the exception: datatype exn { Failed; };, or Failed(int); if it carries an int
struct ~~ any ~~ any ~~ declare the struct: struct P { int x; int y; };
any ~~ call ~~ any ~~ declare the function: int f(int n) { return n; }, or compile --with lib/*.cyc if the library has it";

/// A position in a source text, with the text around it and the tokens that the parser would accept at this position.
#[derive(Clone, Copy)]
struct Place<'a> {
    /// The text before the position on its line.
    left: &'a [u8],
    /// The text before the position without trailing white space, or the line above if only white space precedes the position.
    before: &'a [u8],
    /// The text from the position on.
    at: &'a [u8],
    /// The tokens that the parser would have accepted at the position of the fault.
    expected: &'a [u8],
}

/// Returns true if the first or last byte of a word and the byte next to the word in the text could be in one longer name.
fn is_joined(edge: Option<&u8>, beside: Option<&u8>) -> bool {
    match (edge, beside) {
        (Some(edge), Some(beside)) => {
            (edge.is_ascii_alphabetic() || *edge == b'_') && is_in_name(*beside)
        }
        _ => false,
    }
}

/// Returns true if a byte may occur in a name after its first byte.
pub fn is_in_name(byte: u8) -> bool {
    byte.is_ascii_alphanumeric() || byte == b'_'
}

// ---- the text at a position

/// Returns true if a text begins with a word.
fn begins_with_word(text: &[u8], word: &[u8]) -> bool {
    text.starts_with(word) && !is_joined(word.last(), text[word.len()..].first())
}

/// Returns true if a text begins with a letter or an underscore.
fn begins_with_name(text: &[u8]) -> bool {
    match text.first() {
        Some(byte) => byte.is_ascii_alphabetic() || *byte == b'_',
        None => false,
    }
}

/// Returns true if a text begins with a name and an opening parenthesis.
fn begins_with_call(text: &[u8]) -> bool {
    for byte in text {
        if !is_in_name(*byte) {
            return *byte == b'(' && begins_with_name(text);
        }
    }
    false
}

/// Returns true if a text begins with the call of a method.
fn begins_with_method(text: &[u8]) -> bool {
    match text.split_first() {
        Some((byte, rest)) => *byte == b'.' && begins_with_call(rest),
        None => false,
    }
}

/// Returns true if a text begins with one of the given words, or with the form that `words` names, such as a call.
fn begins_with(text: &[u8], words: &str) -> bool {
    match words {
        "any" => true,
        "name" => begins_with_name(text),
        "call" => begins_with_call(text),
        "method" => begins_with_method(text),
        "wide" => text.first().is_some_and(|byte| !byte.is_ascii()),
        _ => {
            for word in words.split('~') {
                if begins_with_word(text, word.as_bytes()) {
                    return true;
                }
            }
            false
        }
    }
}

// ---- the text before a position

/// Returns the trailing name of a text, possibly empty.
fn last_name(text: &[u8]) -> &[u8] {
    let mut last = text;
    for part in text.split(|byte| !is_in_name(*byte)) {
        last = part;
    }
    last
}

/// Returns true if a text ends with a name after the sign of a pointer type.
fn ends_marked(text: &[u8]) -> bool {
    match text.strip_suffix(last_name(text)) {
        Some(left) => match left.trim_ascii_end().last() {
            Some(byte) => matches!(*byte, b'*' | b'@' | b'?') && left.len() < text.len(),
            None => false,
        },
        None => false,
    }
}

/// Returns the part of a statement or a declaration before a position on its line: the text after the last semicolon or brace.
fn begun(text: &[u8]) -> &[u8] {
    let mut last = text;
    for part in text.split(|byte| matches!(*byte, b';' | b'{' | b'}')) {
        last = part;
    }
    last
}

/// The number of bytes at the beginning of a text among which a word is searched for.
const MOST_BEGUN: usize = 160;

/// Returns true if a word occurs among the first `MOST_BEGUN` bytes of a text.
fn has_word(text: &[u8], word: &[u8]) -> bool {
    for n in 0..text.len().min(MOST_BEGUN) {
        let (before, rest) = text.split_at(n);
        if begins_with_word(rest, word) && !is_joined(word.first(), before.last()) {
            return true;
        }
    }
    false
}

/// Returns true if a text ends with a word.
fn ends_with_word(text: &[u8], word: &[u8]) -> bool {
    let start = text.len().saturating_sub(word.len());
    text.ends_with(word) && !is_joined(word.first(), text[..start].last())
}

/// Returns true if one of the given words, or the form that `words` names, precedes a position of the text.
fn stands_before(place: Place<'_>, words: &str) -> bool {
    let text = place.before;
    match words {
        "any" => true,
        "number" => last_name(place.left)
            .first()
            .is_some_and(|byte| byte.is_ascii_digit()),
        "marked" => ends_marked(text),
        _ => {
            for word in words.split('~') {
                let is_found = match word.strip_suffix(" ..") {
                    Some(word) => has_word(begun(text), word.as_bytes()),
                    None => ends_with_word(text, word.as_bytes()),
                };
                if is_found {
                    return true;
                }
            }
            false
        }
    }
}

/// Returns the text before a position: the text `left` on the position's line or, if `left` is white space, the line above.
fn text_before<'a>(text: &'a [u8], line: u32, left: &'a [u8]) -> &'a [u8] {
    let left = left.trim_ascii_end();
    if left.is_empty() && line > 1 {
        line_at(text, line - 1).trim_ascii_end()
    } else {
        left
    }
}

// ---- the tokens that could stand at a position

/// Returns true if one of the tokens that could be at a position is one of the words, or begins with one of them.
fn is_expected(expected: &[u8], words: &str) -> bool {
    for word in words.split('~') {
        let is_found = match word.strip_suffix(" ..") {
            Some(word) => expected.starts_with(word.as_bytes()),
            None => expected == word.as_bytes(),
        };
        if is_found {
            return true;
        }
    }
    words == "any"
}

// ---- the table of habits

/// Returns the lines of the table of habits (usual mistakes of programmers) that may explain a fault with this code.
fn habits_of(code: Code) -> &'static str {
    match code {
        Code::UnknownByte => UNKNOWN_BYTE,
        Code::NumberTooLarge => NUMBER_TOO_LARGE,
        Code::UnexpectedToken => UNEXPECTED_TOKEN,
        Code::UnexpectedEnd => UNEXPECTED_END,
        Code::UnknownName => UNKNOWN_NAME,
        _ => "",
    }
}

/// Returns the advice on a habit (a usual mistake of programmers), if the text around a position shows this habit.
fn advice_of(habit: &'static str, place: Place<'_>) -> Option<&'static str> {
    let (ends, rest) = habit.split_once(" ~~ ")?;
    let (beginnings, rest) = rest.split_once(" ~~ ")?;
    let (wanted, advice) = rest.split_once(" ~~ ")?;
    if begins_with(place.at, beginnings)
        && is_expected(place.expected, wanted)
        && stands_before(place, ends)
    {
        Some(advice)
    } else {
        None
    }
}

/// Returns the advice on a fault at a source position where the parser would accept the tokens `expected`. The result is the
/// advice on a habit (a usual mistake) if the text around the fault matches one, otherwise the advice on the fault code.
pub fn hint_at(code: Code, text: &[u8], line: u32, column: u32, expected: &[u8]) -> &'static str {
    let whole = line_at(text, line);
    let (left, at) = whole.split_at(whole.len().min(column.saturating_sub(1) as usize));
    let place = Place {
        left,
        before: text_before(text, line, left),
        at,
        expected,
    };
    for habit in habits_of(code).lines() {
        if let Some(advice) = advice_of(habit, place) {
            return advice;
        }
    }
    hint(code)
}
