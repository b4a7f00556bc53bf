//! The messages that explain faults: the text of each message. A message that begins an explanation also has the code of its fault.
//!
//! In the text of a message, a `%` and a letter form a placeholder, which is replaced by the value last recorded for it (`Notes`):
//!
//! | Placeholder | Content |
//! |---|---|
//! | `%n`, `%o` | the current name, and another one |
//! | `%f` | the name of the current function |
//! | `%p` | a place |
//! | `%t`, `%w` | the type found, with its variable, and the wanted type |
//! | `%g` | the type found, as a pointer of the wanted kind |
//! | `%m` | the struct to be made, with its regions |
//! | `%h`, `%i` | the types found and wanted, with `` `r `` as each region |
//! | `%j`, `%k` | the type found, with `` `H `` or `` `a `` as each region |
//! | `%v` | the variable found, or `p` |
//! | `%r`, `%s` | a region of the current function, and another one |
//! | `%a`, `%b` | a region of the called function, as its own signature names it, and another one |
//! | `%c`, `%d` | the number wanted and the one found; `%e` is an s if more than one is wanted |
//! | `%/` | the end of a line |
//! | `%.` | nothing, after a space that ends a text |
use cyc_words::Code;

#[derive(Clone, Copy)]
pub enum Message {
    // The messages about faults with code 20.
    NearName,
    NearPutchar,
    NearGetchar,
    StructAsValue,
    UnknownInHead,
    UnknownInStruct,
    UnknownInGlobal,
    KeyNoGlobal,
    HandleNoGlobal,
    UnknownInBody,
    NoName,
    NoFunction,
    NoStruct,
    NoException,
    NoField,
    // The messages about faults with code 21.
    FirstDeclared,
    RegionFirstDeclared,
    RegionOfEach,
    RegionOfFunction,
    InEachProgram,
    ClauseBefore,
    // The messages about faults with code 22.
    NoContent,
    NoInt,
    NotTested,
    NotMoved,
    NoPointer,
    NotFat,
    NoMembers,
    NotFreed,
    NoHandleFound,
    StructRead,
    NotCompared,
    FunctionRead,
    VariableCalled,
    ArgumentCount,
    ValueCount,
    RegionCount,
    PointerToKey,
    StructAlone,
    GlobalType,
    IntWithout,
    IntTooMany,
    ValueMissing,
    ValueTooMany,
    SwappedTypes,
    AliasType,
    // The messages about faults with code 27.
    UniqueStays,
    FieldStays,
    GlobalStays,
    GlobalLent,
    AddressKept,
    // The messages about faults with code 28.
    HandleAssigned,
    CounterAssigned,
    FunctionAssigned,
    ResultAssigned,
    OperationAssigned,
    NoAddress,
    // The messages about faults with code 29.
    UniqueRegionAlone,
    NoKey,
    KeyAddress,
    KeyInField,
    KeyInObject,
    KeyOfAnother,
    FreedNotUnique,
    FreedAlias,
    LentNotUnique,
    LentNoPointer,
    SharedNotUnique,
    NoArgument,
    NoHandle,
    AlwaysOpen,
    NoConstraint,
    NoEffect,
    // The messages about faults with code 30.
    MainMissing,
    MainNear,
    MainVariable,
    MainParameters,
    MainEffect,
    MainVoid,
    MainType,

    // Messages that follow another message of the same explanation; the first of these messages are about operands.
    VoidUsed,
    NullAsContent,
    NullTested,
    ElementsOfFat,
    NoStar,
    NoArrow,
    NoElements,
    NoSign,
    NoSum,
    OpenKey,
    FatMoves,
    NoOrder,
    TargetWanted,
    PointerMade,
    ElementFirst,
    FatCompared,
    NullCompared,
    NoComparison,
    HeadOf,
    PassSo,
    ValuesOf,
    FieldsOf,
    // Messages on conversions.
    OtherType,
    LocalType,
    VariableType,
    FieldAssigned,
    ElementAssigned,
    TargetAssigned,
    ArgumentType,
    FieldType,
    ResultType,
    OtherRegions,
    RegionsOfVariable,
    RegionsOfParameter,
    RegionsOfResult,
    RegionsOfNew,
    OneTooFar,
    TargetNamed,
    OtherTarget,
    TargetOfVariable,
    TargetOfNew,
    TargetOfParameter,
    TargetOfResult,
    BytesWanted,
    IntsWanted,
    NewBytes,
    NullWanted,
    ZeroWanted,
    AddressWanted,
    ThroughWanted,
    GlobalWanted,
    FoundNoValue,
    FoundInt,
    FoundNull,
    MayOutlive,
    // Messages about regions that are not live.
    ClosedRegion,
    NotInEffect,
    AddToEffect,
    NameForEffect,
    NotOpen,
    OpenBefore,
    OpenAgain,
    NotLive,
    // Messages about a region that must outlive another region but does not.
    NotOutlived,
    FirstBeginning,
    NextBeginning,
    FromCaller,
    BeginsAt,
    DynamicAt,
    HeapLives,
    UniqueApart,
    MakeUnique,
    LendUnique,
    CallerToHeap,
    CallerToResult,
    LocalToHeap,
    RegionToHeap,
    DynamicEnds,
    NamedByCaller,
    LeftOutByCaller,
    LocalToRegion,
    RegionToRegion,
    // Messages on calls.
    HasConstraint,
    HereOfSameName,
    Here,
    Effect,
    EffectFirst,
    EffectNext,
    EffectEnd,
    LineEnd,

    /// The message with an empty text.
    Nothing,
}

/// The texts of the messages, in order, one on each line.
pub const TEXTS: &str = "\
%/hint: did you mean `%n`?
%/hint: did you mean `putchar`?
%/hint: did you mean `getchar`?
`%n` is a struct, not a value%/hint: make a struct by new, and keep a pointer to it: struct %n @p = new %n{..};
undeclared region `%n%/hint: name it in the type of a parameter: int *`%n p
undeclared region `%n%/hint: declare it after the name of the struct: struct P<`%n> { int *`%n p; };
undeclared region `%n: a global has only `H and `U%/hint: leave out the region, which is then `H
a global cannot be a key%/hint: declare the key in a function: let NewDynamicRegion{<`%n> key} = new_ukey();
a global cannot be a region handle%/hint: make it a parameter: region_t<`%n> h
undeclared region `%n%/hint: name it in the type of a parameter, or open it in a block around this: region<`%n> h;
undeclared name `%n`
undeclared function `%n`
undeclared struct `%n`
undeclared exception `%n`
struct %o has no field `%n`
`%n` is already declared at %p
region `%n is already declared at %p%/hint: rename one of the two: a function declares each region name once
region `%n is built in%/hint: rename this one
`%n is already the region of the variables of `%f`%/hint: rename this region
`%n` is built in%/hint: rename this one
`%n` already has a clause in this catch%/hint: delete one of the two clauses
expected a value with a type, found %t
expected int, found %t
expected int or a pointer, found %t
expected int or a ? pointer, found %t
expected a pointer, found %t
expected a ? pointer, found %t
expected a * or @ pointer to a struct, found %t
expected a unique pointer (`U), found %t
expected a region handle, found %t
expected a value, found %t%/hint: read one of its fields: p->x
cannot compare %t with %w
`%n` is a function, not a value%/hint: call it: %n(..)
`%n` is a variable, not a function%/hint: call a function by its name: there are no function pointers
`%o` takes %c argument%e, found %d
struct %n takes %c value%e, found %d
struct %n takes %c region%e, found %d%/hint: write %c region%e after its name, or none for `H
a pointer cannot point to a key%/hint: pass the key itself, which moves it
struct %n cannot be stored by value%/hint: make it by new, and keep a * or @ pointer to it: struct %n @p = new %n{..};
a global must be an int, a char or a pointer%/hint: make it a parameter of the functions that need it
exception `%n` carries an int%/hint: write throw new %n(1), or case &%n(n)
exception `%n` carries no int%/hint: write throw new %n, or case &%n
`%f` returns %w, found no value%/hint: return a value: return e;
`%f` returns no value%/hint: write return; or give the function a return type: int %f(..)
cannot swap %t and %w%/hint: swap two places of the same type, with the same regions
expected %w, found %t%/hint: declare the alias with its source's type, and its own region in place of `U
cannot copy a unique pointer out of its place: found %t
cannot copy the unique pointer `%n`, which is %t
cannot copy the unique pointer `%n` out of a global
cannot lend `%n`, which is a global%/hint: swap it into a local with :=: first
cannot take an address through the unique pointer `%n`%/hint: lend it first: let alias <`a> int *`a x = %n; with its own type, and take \
the address through x
cannot assign to the region handle `%n`, or take its address%/hint: copy it into a variable: region_t<`r> copy = %n;
cannot assign to the counter `%n`, or take its address%/hint: copy it into a variable: int copy = %n;
cannot assign to the function `%n`, or take its address
cannot assign to the value that `%n` returns, or take its address%/hint: store it in a variable first
cannot assign to the value of an operator, or take its address%/hint: store it in a variable first
hint: assign to a variable, *p, p->f or p[i]
`unique_region` stands only in rnew(unique_region)%/hint: write rnew(unique_region) and the value of the object: rnew(unique_region) 3
`%n` is %t, not a region key%/hint: declare a key: let NewDynamicRegion{<`k> key} = new_ukey();
cannot take the address of a key%/hint: pass the key itself, which moves it
a key cannot be a field of a struct%/hint: pass the key as a parameter of its own
cannot store a key in an object: found %t%/hint: keep the key in a variable, a parameter or a result
`%o` is not the key of region `%n%/hint: open the region by its own key
ufree takes a unique pointer (`U), found %t%/hint: allocate the object by rnew(unique_region) to free it
ufree takes the owner of an object, found an alias, %t%/hint: free the owner after the block of the alias
cannot lend `%n`: %t is not a unique pointer%/hint: use %n itself, without let alias
cannot lend `%n`, which is not a unique pointer%/hint: use %n itself, without let alias
cannot pass a unique pointer to `%o`, whose parameter points into %a%/hint: lend it by let alias, or write `U in the parameter's type
`%n cannot be a region argument of a struct%/hint: name another region, or leave the regions out for `H
region `%n has no handle%/hint: allocate in it by rnew(unique_region)
region `%n has no key: it is always open%/hint: name a dynamic region
a constraint cannot name `%n%/hint: delete the constraint
an effect cannot name `%n, which is `U or has its key among the parameters%/hint: delete it from the effect
the program has no function `main`
the program has no function `main`%/hint: rename `%n` to main
`main` is a variable, not a function
`main` cannot have parameters
`main` cannot have an effect
`main` must return int, found void
`main` must return int, found another type
%/hint: call the function in a statement of its own: it returns no value
%/hint: store NULL in a variable of the pointer type first
%/hint: compare the pointer with NULL by == or !=
%/hint: declare it with ? to index it, or write *%v for what `%v` points to
%/hint: write * only before a pointer: there is no power operator **
%/hint: write -> after a * or @ pointer to a struct: struct P @p = new P{1, 2}; p->x = 3;
%/hint: index a ? pointer: int ?a = new {for i < 10 : 0}; a[0] = 1;
%/hint: a pointer cannot be negated, and there is no --: write %v = %v - 1
%/hint: write the pointer on the left of + and an int on its right: p + 1
%/hint: open the key first: region<%r> h = open(%v); and then rnew(h)
%/hint: pointer arithmetic needs a fat, non-unique pointer: declare it with ?
%/hint: pointers cannot be subtracted or ordered: keep indices in ints, and compare or subtract those
%/hint: write *%v for what `%v` points to
%/hint: new returns a pointer: declare %t %n
%/hint: take an element first: %v[0]->f
%/hint: ? pointers cannot be compared: convert both to * pointers of one type first
%/hint: compare what the pointer points to, as *p, or compare the pointer with NULL
%/hint: compare two ints, two * or @ pointers to one type, or a pointer with NULL
%/hint: call it as %.
%/hint: pass %c argument%e
%/hint: give one value for each field, in order: %.
%/hint: its fields are %.
expected %w, found %t
expected %w for `%n`, found %t
expected %w for `%n`, found %t
expected %w for `%n`, found %t
expected %w for an element of `%n`, found %t
expected %w for `*%n`, found %t
expected %w for `%n` of `%o`, found %t
expected %w for `%n` of struct %o, found %t
`%f` returns %w, found %t
, with other regions inside%/hint: name the same regions on both sides: %h %v
, with other regions inside%/hint: declare %g %n: a region left out inside a type is `H
, with other regions inside%/hint: write %i %n in the head of `%o`: a region left out inside a type is `H
, with other regions inside%/hint: let `%f` return %g: a region left out inside a type is `H
, with other regions inside%/hint: write %m{..}: a region left out after the name of a new struct is `H
%/hint: delete the & before it, or write * there: it points to a pointer
%/hint: name the region that the parameter leaves out, as `r, on both sides: the target of a pointer is not converted
%/hint: use a value of exactly that type: the target of a pointer is not converted
%/hint: declare %g %n, or use a value of exactly that type: the target of a pointer is not converted
%/hint: declare %t %n, or use a value of exactly that type: the target of a pointer is not converted
%/hint: write %h %n in the head of `%o`, or use a value of exactly that type: the target of a pointer is not converted
%/hint: let `%f` return %g, or use a value of exactly that type: the target of a pointer is not converted
%/hint: copy the elements one by one, each by char(x): arrays of int and char differ
%/hint: copy the elements one by one: arrays of int and char differ
%/hint: write char(0) for a byte: a new object has the type of its value
%/hint: write NULL for a null pointer, or allocate an object: new 5
%/hint: write 0 for the number: NULL is a pointer
%/hint: write &%v for its address, or NULL for a null pointer
%/hint: write *%n = .. to change what `%n` points to, or NULL for a null pointer
expected %.
 for `%n`, found no value, which is NULL
 for `%n`, found int%/hint: begin a global pointer with NULL, and give it an object in main
 for `%n`, found NULL%/hint: write 0 for the number: NULL is a pointer
this pointer may outlive its region: %.
cannot use %t: its region is not live%/
%r is not in the effect of `%f`
%/hint: add it to the effect, after the parameters: ; {%r}
%/hint: name the region in the type of the parameter, and in the effect: int *`r p; {`r}
%r, the dynamic region declared at %p, is not open here
: the block that opened it ended at %p
%/hint: open its key around this: region<%r> h = open(key);
%r is not live here
%/%r does not outlive %s
: %.
, %.
%r comes from the caller
%r begins at %p
%r is a dynamic region, declared at %p
%r lives for the whole run
%r is apart from all regions
%/hint: make a unique pointer by rnew: rnew(unique_region) 3
%/hint: move it to a unique pointer, or lend it: let alias <`a> %k x = %v;
%/hint: write %j %v to take only heap pointers, or name one region on both sides: %h same(%h %v)
%/hint: let `%f` take %h %v and return %h
%/hint: a variable ends with its block: allocate the object by new
%/hint: an object in %r ends with the region: allocate it by new, or write the region into the type
%/hint: a dynamic region ends when its key is freed: only the heap outlives it
%/hint: declare the constraint after the parameters, if it holds in each call: %r > %s
%/hint: name one region in both types: %h %v; or name two, with a constraint: `a > `b
%/hint: a variable ends with its block: allocate the object by new, or by rnew in the other region
%/hint: an object in %r ends with its block: allocate it in %s
the constraint %a > %b of `%n` does not hold
, and %a of `%n` is %r of `%f` here
, and %a is %r here
`%n` may use a region that is not live: its effect is {
%a
, %a
}
%/
";

/// Returns the code of the fault that a message describes, if the message begins an explanation.
pub fn code_of(message: Message) -> Code {
    match message {
        Message::NearName
        | Message::NearPutchar
        | Message::NearGetchar
        | Message::StructAsValue
        | Message::UnknownInHead
        | Message::UnknownInStruct
        | Message::UnknownInGlobal
        | Message::KeyNoGlobal
        | Message::HandleNoGlobal
        | Message::UnknownInBody
        | Message::NoName
        | Message::NoFunction
        | Message::NoStruct
        | Message::NoException
        | Message::NoField => Code::UnknownName,
        Message::FirstDeclared
        | Message::RegionFirstDeclared
        | Message::RegionOfEach
        | Message::RegionOfFunction
        | Message::InEachProgram
        | Message::ClauseBefore => Code::DeclaredTwice,
        Message::UniqueStays
        | Message::FieldStays
        | Message::GlobalStays
        | Message::GlobalLent
        | Message::AddressKept => Code::UniqueShared,
        Message::HandleAssigned
        | Message::CounterAssigned
        | Message::FunctionAssigned
        | Message::ResultAssigned
        | Message::OperationAssigned
        | Message::NoAddress => Code::NotAPlace,
        Message::UniqueRegionAlone
        | Message::NoKey
        | Message::KeyAddress
        | Message::KeyInField
        | Message::KeyInObject
        | Message::KeyOfAnother
        | Message::FreedNotUnique
        | Message::FreedAlias
        | Message::LentNotUnique
        | Message::LentNoPointer
        | Message::SharedNotUnique
        | Message::NoArgument
        | Message::NoHandle
        | Message::AlwaysOpen
        | Message::NoConstraint
        | Message::NoEffect => Code::RegionOrKeyMisused,
        Message::MainMissing
        | Message::MainNear
        | Message::MainVariable
        | Message::MainParameters
        | Message::MainEffect
        | Message::MainVoid
        | Message::MainType => Code::BadMain,
        _ => Code::TypeMismatch,
    }
}
