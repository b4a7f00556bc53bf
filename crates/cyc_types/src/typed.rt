//! The typed tree. The type checker builds the typed tree from an abstract syntax tree, and every later pass reads it.
//!
//! In a typed tree, each name is resolved to a number. A local is identified by its index in its function: parameters first, then
//! declarations in order. A struct, an exception, a global and a function are identified by their numbers in the program. The nodes of a
//! typed tree distinguish the uses of a variable's value and the kinds of an operator's operands. In a typed tree each conversion is
//! explicit, and parentheses are removed. The meaning of a typed tree needs neither an environment of names nor the types of operands.
//! Consecutive operators of one precedence level are a list, so a typed tree is no deeper than its syntax tree. Rare and large fields of
//! nodes are stored in boxes, so that a node is small.
//!
//! A node of a typed tree stores a source position if a later pass may report a fault there, or if the node's code can end the execution.

use crate::{Region, Ty};
use cyc_syntax::Name;
use cyc_words::Span;
use smallvec::SmallVec;

/// The representation kind (int, char, pointer, ..) of a value in a memory cell, as the source or target of a conversion.
#[derive(Clone, Copy)]
pub enum Kind {
    Int,
    /// A byte, 0 to 255.
    Char,
    /// A thin pointer that can be null.
    Nullable,
    /// A thin pointer that is never null.
    NonNull,
    Fat,
    Handle,
    Key,
}

/// The function that a call expression calls.
#[derive(Clone, Copy)]
pub enum Callee {
    Putchar,
    Getchar,
    /// The function of the program that has this number.
    Function { number: usize },
}

/// The unary operators that compute a number from a number.
#[derive(Clone, Copy)]
pub enum UnaryOperator {
    Negate,
    Not,
    Complement,
    /// The conversion of a char to an int, which no token spells.
    Widen,
    /// The conversion `char(..)`: the low byte of an int.
    LowByte,
}

/// The binary operators on two ints that evaluate both operands.
#[derive(Clone, Copy)]
pub enum Operator {
    Or,
    Xor,
    And,
    Equal,
    NotEqual,
    Less,
    LessOrEqual,
    Greater,
    GreaterOrEqual,
    ShiftLeft,
    ShiftRight,
    Add,
    Subtract,
    Multiply,
    Divide,
    Remainder,
}

/// The logical operators, which may skip their right operand.
#[derive(Clone, Copy)]
pub enum LogicalOperator {
    /// `&&`
    AndThen,
    /// `||`
    OrElse,
}

/// The operators whose left operand is a pointer or `NULL`. The name of each operator on pointers states its operation and the kinds
/// of its operands.
#[derive(Clone, Copy)]
pub enum PointerOperator {
    /// Operators on a fat pointer and an int.
    AddFat,
    SubtractFat,
    /// Two thin pointers.
    EqualThin,
    NotEqualThin,
    /// Operators on a pointer and `NULL`.
    ThinIsNull,
    ThinIsNotNull,
    FatIsNull,
    FatIsNotNull,
    /// Operators on `NULL` and a pointer.
    NullIs,
    NullIsNot,
}

/// The type of an expression, with a case for an expression without a value and a case for the null pointer.
#[derive(Drop)]
pub enum ValueType {
    /// The expression has no value.
    Void,
    /// The expression is the null pointer, whose type comes from the context.
    Null,
    Value { of_type: Ty },
}

/// A variable.
#[derive(Clone, Copy)]
pub enum Lvalue {
    /// The local with this number, with the source position of its name.
    Local { span: Span, number: usize },
    /// The global variable with this number.
    Global { number: usize },
}

/// A typed expression: names are resolved, and types and moves are explicit.
#[cycle(expression)]
#[derive(Drop)]
pub enum Expr {
    /// An integer or character constant.
    Number {
        value: u32,
    },
    /// `NULL`
    NullPointer,
    /// `heap_region`
    HeapRegion,
    /// The counter variable of an array `for`, numbered by the number of enclosing `for`s; a counter is not assignable.
    Counter {
        level: usize,
    },
    /// Reads a variable and leaves its value in place.
    Copy {
        source: Lvalue,
        of_type: Ty,
    },
    /// Reads a local that is a unique pointer or a key; the read leaves the local empty.
    Move {
        span: Span,
        number: usize,
        of_type: Ty,
    },
    /// Reads a unique pointer in a local only to dereference or compare it; the local keeps the pointer.
    Peek {
        span: Span,
        number: usize,
        of_type: Ty,
    },
    /// Reads a memory cell through a pointer.
    Load {
        source: Box<Dereference>,
    },
    /// The address of a variable, with the type of the resulting pointer.
    AddressOf {
        place: Lvalue,
        of_type: Ty,
    },
    /// The address of a memory cell reached through a pointer, with the type of the resulting pointer.
    AddressOfCell {
        place: Box<Dereference>,
        of_type: Ty,
    },
    /// `numelts`
    NumberOfElements {
        pointer: Box<Expr>,
    },
    /// `ufree`
    FreeUnique {
        pointer: Box<Expr>,
    },
    /// `free_ukey`
    FreeKey {
        key: Box<Expr>,
    },
    /// A call, with the source position of the function's name, and the type of the result if the function has one.
    Call {
        span: Span,
        callee: Callee,
        arguments: Vec<Converted>,
        result: ValueType,
    },
    Unary {
        operator: UnaryOperator,
        operand: Box<Expr>,
    },
    /// A chain of operands joined by at least one operator; the operators associate to the left. The node stores the
    /// type of each intermediate result.
    Binary {
        first: Box<Expr>,
        rest: Vec<Operation>,
        of_type: Ty,
    },
    /// The assignment to a variable, with the type of the assignment's value. An assignment of a unique pointer or a key has no value.
    Assign {
        target: Lvalue,
        value: Box<Converted>,
        result: ValueType,
    },
    /// The assignment to a memory cell reached through a pointer.
    Store {
        target: Box<Dereference>,
        value: Box<Converted>,
        result: ValueType,
    },
    /// `new` or `rnew`: allocates a new object; the node stores the source position and the type of the pointer to the object.
    New {
        span: Span,
        placement: Placement,
        initial: Box<Initial>,
        of_type: Ty,
    },
}

/// A memory cell reached through a pointer, with the type of the value stored in the cell.
#[cycle(expression)]
#[derive(Drop)]
pub enum Dereference {
    /// `*e`, where e is a pointer of the given representation kind; the source position is that of e.
    Target {
        span: Span,
        kind: Kind,
        pointer: Expr,
        of_type: Ty,
    },
    /// `e->f`, with the index of the struct, the index of the field, and the source position of f.
    Member {
        span: Span,
        kind: Kind,
        pointer: Expr,
        number: usize,
        field: usize,
        of_type: Ty,
    },
    /// `e[i]`, with the source position of i.
    Element {
        span: Span,
        pointer: Expr,
        index: Expr,
        of_type: Ty,
    },
}

/// The region in which a new object is allocated.
#[cycle(expression)]
#[derive(Drop)]
pub enum Placement {
    /// `new`
    OnHeap,
    /// `rnew(unique_region)`
    AsUnique,
    /// The region of a handle, chosen by `rnew(e)`.
    ByHandle { handle: Box<Expr> },
}

/// The initial value or values of a new object.
#[cycle(expression)]
#[derive(Drop)]
pub enum Initial {
    /// An initial value that is a single value of the given representation kind (int, char, pointer, ..).
    Plain {
        kind: Kind,
        value: Expr,
    },
    /// The initial values of all fields of a new struct, in order.
    Fields {
        values: Vec<Converted>,
    },
    /// `{for i < length : element}`: the loop counter's nesting level, the representation kind of the elements, and the source position
    /// of `for`.
    Array {
        span: Span,
        level: usize,
        length: Expr,
        kind: Kind,
        element: Expr,
    },
}

/// An expression whose value is converted after its evaluation; the target's representation kind may equal the source's.
#[cycle(expression)]
#[derive(Drop)]
pub struct Converted {
    pub from: Kind,
    pub to: Kind,
    pub value: Expr,
}

/// One of the left-associative operators of an expression, with its right operand.
#[cycle(expression)]
#[derive(Drop)]
pub enum Operation {
    /// An operator that computes with two ints. The source position is that of the right operand.
    Compute {
        span: Span,
        operator: Operator,
        operand: Expr,
    },
    /// `&&` or `||`: if the left operand's value decides the result, the right operand is not evaluated.
    Test {
        operator: LogicalOperator,
        operand: Expr,
    },
    /// One of the left-associative operators of an expression, with a left operand that is a pointer or `NULL`.
    Pointer {
        operator: PointerOperator,
        operand: Expr,
    },
    /// An operator whose left operand is a unique pointer that stays in its local; the local must not change while the
    /// right operand is evaluated.
    PointerPeek {
        number: usize,
        operator: PointerOperator,
        operand: Expr,
    },
}

/// The left or right operand of a swap: a variable with its type, or a memory cell reached through a pointer.
#[derive(Drop)]
pub enum Side {
    Variable { place: Lvalue, of_type: Ty },
    Cell { place: Box<Dereference> },
}

/// A typed statement: names are resolved and types are explicit.
#[cycle(statement)]
#[derive(Drop)]
pub enum Stmt {
    /// A block, with the index of its region among the function's regions; a label is not stored.
    Block {
        region: usize,
        items: Vec<Item>,
    },
    Empty,
    /// An expression statement, with the source position of its first token. A swap statement (`:=:`) stores the source position
    /// of its first token, like an expression statement.
    Evaluate {
        span: Span,
        value: Expr,
    },
    Swap {
        span: Span,
        left: Side,
        right: Side,
    },
    /// An `if` statement, with the source position of `if`. If no `else` is written, the `otherwise` statement is empty.
    If {
        span: Span,
        condition: Expr,
        then: Box<Stmt>,
        otherwise: Box<Stmt>,
    },
    /// A `while` loop, with the source position of `while`.
    While {
        span: Span,
        condition: Expr,
        body: Box<Stmt>,
    },
    /// A `return` statement, with the source position of `return`.
    Return {
        span: Span,
        value: Option<Converted>,
    },
    Break,
    Continue,
    /// Throws the exception with this number, and an int if the exception has one. The source position is that of `throw`.
    Throw {
        span: Span,
        tag: usize,
        value: Option<Expr>,
    },
    /// A `try` statement with the clauses of its `catch` and the default clause, if there is one. The source position is that of `try`.
    Try {
        span: Span,
        body: Box<Stmt>,
        clauses: Vec<Clause>,
        default: Option<Body>,
    },
}

/// The declarations and statements of a `catch` clause, with the index of their region among the function's regions.
#[cycle(statement)]
#[derive(Drop)]
pub struct Body {
    pub region: usize,
    pub items: Vec<Item>,
}

/// A `catch` clause for the exception with this number, with the local that receives the exception's int, if any.
#[cycle(statement)]
#[derive(Drop)]
pub struct Clause {
    pub tag: usize,
    pub number: Option<usize>,
    pub region: usize,
    pub items: Vec<Item>,
}

/// An element of a block: a statement or a declaration.
#[cycle(statement)]
#[derive(Drop)]
pub enum Item {
    Execute {
        statement: Stmt,
    },
    /// The declaration of the local with this number, with the source position of its name.
    Local {
        span: Span,
        number: usize,
        of_type: Ty,
        value: Option<Converted>,
    },
    /// Declares a lexical region to the end of the block, by its index in its function, with the source position of its name. The local
    /// `number` is the region's handle.
    Region {
        span: Span,
        region: usize,
        number: usize,
    },
    /// Opens the region of a key to the end of the block; the source position is that of the key's name. The local `number` is the
    /// handle of the opened region.
    Open {
        region: usize,
        number: usize,
        span: Span,
        key: usize,
    },
    /// Declares a local that shares another local's unique object to the end of the block; the source position is that of the other
    /// local's name.
    Alias {
        region: usize,
        number: usize,
        of_type: Ty,
        span: Span,
        source: usize,
    },
    /// Declares a dynamic region, with the source position of its name, and the local that holds its key.
    DynamicRegion {
        span: Span,
        region: usize,
        number: usize,
    },
}

/// The initial value of a global: a 32-bit word or the null pointer.
#[derive(Clone, Copy)]
pub enum Constant {
    Word { value: u32 },
    Null,
}

/// A global, with its initial value.
#[derive(Drop)]
pub struct Global {
    pub name: Name,
    pub of_type: Ty,
    pub value: Constant,
}

/// A struct: the number of its region parameters, and the types of its fields.
#[derive(Drop)]
pub struct StructType {
    /// The number of region parameters of the struct.
    pub parameters: usize,
    /// The types of the struct's fields, in order. In these types, region parameter n is region variable n.
    pub fields: Vec<Ty>,
}

/// A function with its body. A function's locals are numbered from 0: first its parameters, then the declarations of its body, in order. A
/// function's regions are numbered in this order: the function's own region, the regions that its parameters name, the regions that its
/// body declares.
#[derive(Drop)]
pub struct Function {
    pub name: Name,
    pub span: Span,
    pub parameters: Vec<Ty>,
    /// The result type of the function; `None` for `void`.
    pub result: Option<Ty>,
    /// The number of regions that the function's parameters name.
    pub variables: usize,
    /// The regions that must be live at a call of the function.
    pub effect: SmallVec<Region, 4>,
    /// Pairs of regions, of which the first must outlive the second at a call.
    pub constraints: SmallVec<(Region, Region), 4>,
    /// The types of the locals that the function's body declares.
    pub locals: Vec<Ty>,
    /// The number that identifies the function's own region, which contains its parameters and the outermost variables of its body.
    pub region: usize,
    /// The total number of regions of the function.
    pub regions: usize,
    pub body: Vec<Item>,
    /// The source position of the function's closing brace.
    pub end: Span,
}

/// A typed program, in which all names are resolved and all types agree. Structs, globals and functions are numbered by their indices in
/// the lists of this record.
#[derive(Drop)]
pub struct TypedTree {
    pub structs: Vec<StructType>,
    /// For each exception that the program declares, true if the exception carries an int.
    pub exceptions: Vec<bool>,
    pub globals: Vec<Global>,
    pub functions: Vec<Function>,
    /// The number that identifies the function named `main`.
    pub main: usize,
}
