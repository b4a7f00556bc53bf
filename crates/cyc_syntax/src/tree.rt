//! Abstract syntax trees, as the parser builds them from a list of tokens.
//!
//! Consecutive operators of one precedence level are one node with a list, and so are consecutive postfix operators. The depth of a tree is
//! at most the nesting of its text times the levels of the grammar, whatever the number of its tokens. Brackets are kept in the tree. A
//! node stores the source position of each token that a fault may name; the position of an expression is that of its leftmost token.

use crate::{Name, Names};
use cyc_words::Span;

/// A name with its source position: an identifier, or a region name without its backquote.
#[derive(Clone, Copy, Debug, PartialEq, Eq)]
pub struct Ident {
    pub name: Name,
    pub span: Span,
}

/// The kinds of pointers: `*` may be null, `@` is never null, `?` is fat.
#[derive(Clone, Copy, Debug, PartialEq, Eq)]
pub enum PointerKind {
    Nullable,
    NonNull,
    Fat,
}

/// A pointer sign of a type, and the region that is written after it.
#[derive(Clone, Copy, Debug, PartialEq, Eq)]
pub struct Pointer {
    pub kind: PointerKind,
    pub region: Option<Ident>,
}

/// A type without the pointer signs that follow it.
#[derive(Drop)]
pub enum BaseType {
    Int,
    Char,
    /// A struct type with its region arguments; if they are omitted, the list is empty.
    Struct { name: Ident, regions: Vec<Ident> },
    /// `region_t<..>`
    Handle { region: Ident },
    /// `uregion_key_t<..>`
    Key { region: Ident },
}

/// A type as written: its pointer signs apply from left to right, and the last sign is that of the outermost pointer.
#[derive(Drop)]
pub struct WrittenType {
    pub span: Span,
    pub base: BaseType,
    pub marks: Vec<Pointer>,
}

/// The prefix operators `-`, `!`, `~`, `*` and `&`.
#[derive(Clone, Copy, Debug, PartialEq, Eq)]
pub enum PrefixOperator {
    Negate,
    Not,
    Complement,
    Dereference,
    AddressOf,
}

/// The binary operators, in order of precedence, those that bind loosest first.
#[derive(Clone, Copy, Debug, PartialEq, Eq)]
pub enum BinaryOperator {
    /// `||`
    OrElse,
    /// `&&`
    AndThen,
    Or,
    Xor,
    And,
    Equal,
    NotEqual,
    Less,
    LessOrEqual,
    Greater,
    GreaterOrEqual,
    ShiftLeft,
    ShiftRight,
    Add,
    Subtract,
    Multiply,
    Divide,
    Remainder,
}

/// An expression, with the source positions that diagnostics name.
#[cycle(expression)]
#[derive(Drop)]
pub enum Expr {
    Number {
        span: Span,
        value: u32,
    },
    Character {
        span: Span,
        value: u8,
    },
    Null {
        span: Span,
    },
    HeapRegion {
        span: Span,
    },
    UniqueRegion {
        span: Span,
    },
    Variable {
        name: Ident,
    },
    Call {
        function: Ident,
        arguments: Vec<Expr>,
    },
    /// An expression in round brackets.
    Bracketed {
        span: Span,
        inner: Box<Expr>,
    },
    /// `numelts(..)`
    NumberOfElements {
        span: Span,
        pointer: Box<Expr>,
    },
    /// `char(..)`
    LowByteOf {
        span: Span,
        value: Box<Expr>,
    },
    /// `ufree(..)`
    FreeUnique {
        span: Span,
        pointer: Box<Expr>,
    },
    /// `free_ukey(..)`
    FreeKey {
        span: Span,
        key: Ident,
    },
    /// An operand followed by at least one postfix operator.
    Chained {
        base: Box<Expr>,
        postfixes: Vec<Postfix>,
    },
    Prefixed {
        span: Span,
        operator: PrefixOperator,
        operand: Box<Expr>,
    },
    New {
        span: Span,
        value: Box<Initial>,
    },
    /// `rnew(..) ..`
    RegionNew {
        span: Span,
        region: Box<Expr>,
        value: Box<Initial>,
    },
    /// Operands joined by operators of one precedence level, which associate to the left. At least one operator joins the operands.
    Binary {
        first: Box<Expr>,
        rest: Vec<Operation>,
    },
    Assign {
        target: Box<Expr>,
        value: Box<Expr>,
    },
}

/// A binary operator that follows the first operand of a `Binary` expression, with its right operand.
#[cycle(expression)]
#[derive(Drop)]
pub struct Operation {
    pub operator: BinaryOperator,
    pub span: Span,
    pub operand: Expr,
}

/// A postfix operator of an operand, such as an index or a field.
#[cycle(expression)]
#[derive(Drop)]
pub enum Postfix {
    Index { index: Expr },
    /// The postfix operator `->` with the name of a field.
    Field { name: Ident },
}

/// The initial value or values of an object made by `new` or `rnew`.
#[cycle(expression)]
#[derive(Drop)]
pub enum Initial {
    Plain {
        value: Expr,
    },
    /// A struct initializer: the struct's name, its region arguments, and the values of its fields. A struct initializer has at least
    /// one field value.
    Fields {
        name: Ident,
        regions: Vec<Ident>,
        values: Vec<Expr>,
    },
    /// The array initializer `{for variable < length : element}`.
    Array {
        span: Span,
        variable: Ident,
        length: Expr,
        element: Expr,
    },
}

/// A statement.
#[cycle(statement)]
#[derive(Drop)]
pub enum Stmt {
    Block {
        block: Block,
    },
    Labelled {
        label: Ident,
        block: Block,
    },
    Empty {
        span: Span,
    },
    Expression {
        value: Expr,
    },
    /// `left :=: right`
    Swap {
        left: Expr,
        right: Expr,
    },
    If {
        span: Span,
        condition: Expr,
        then: Box<Stmt>,
        otherwise: Option<Box<Stmt>>,
    },
    While {
        span: Span,
        condition: Expr,
        body: Box<Stmt>,
    },
    Return {
        span: Span,
        value: Option<Expr>,
    },
    Break {
        span: Span,
    },
    Continue {
        span: Span,
    },
    Throw {
        span: Span,
        exception: Ident,
        value: Option<Expr>,
    },
    /// A `try` statement. A `try` statement has at least one catch clause, including the default clause.
    Try {
        span: Span,
        body: Box<Stmt>,
        clauses: Vec<Clause>,
        default: Option<Vec<Item>>,
    },
}

/// A block: statements and declarations between braces, with its source position.
#[cycle(statement)]
#[derive(Drop)]
pub struct Block {
    pub span: Span,
    pub items: Vec<Item>,
    /// The source position of the closing brace.
    pub end: Span,
}

/// `case &exception(variable): ..`
#[cycle(statement)]
#[derive(Drop)]
pub struct Clause {
    pub exception: Ident,
    pub variable: Option<Ident>,
    pub items: Vec<Item>,
}

/// An item of a block: a statement or a declaration.
#[cycle(statement)]
#[derive(Drop)]
pub enum Item {
    Statement {
        statement: Stmt,
    },
    Local {
        of_type: WrittenType,
        name: Ident,
        value: Option<Expr>,
    },
    /// A lexical region with its handle, or an opened dynamic region with the key that opens it.
    Region {
        region: Ident,
        handle: Ident,
        key: Option<Ident>,
    },
    /// `let alias`
    Alias {
        region: Ident,
        of_type: WrittenType,
        name: Ident,
        source: Ident,
    },
    /// `let NewDynamicRegion`
    DynamicRegion {
        region: Ident,
        key: Ident,
    },
}

/// A field of a struct, or a parameter of a function.
#[derive(Drop)]
pub struct Member {
    pub of_type: WrittenType,
    pub name: Ident,
}

/// A constructor of `exn`, the type of exceptions.
#[derive(Clone, Copy, Debug, PartialEq, Eq)]
pub struct Constructor {
    pub name: Ident,
    pub has_int: bool,
}

/// The initial value of a global variable.
#[derive(Clone, Copy, Debug, PartialEq, Eq)]
pub enum GlobalValue {
    Number { span: Span, value: u32 },
    /// A negative number: `-` followed by a number.
    Negative { span: Span, value: u32 },
    Character { span: Span, value: u8 },
    Null { span: Span },
}

/// An outlives constraint: the first region outlives the second one.
#[derive(Clone, Copy, Debug, PartialEq, Eq)]
pub struct Constraint {
    pub longer: Ident,
    pub shorter: Ident,
}

/// The parameter list of a function, in order.
#[derive(Drop)]
pub enum ParameterList {
    /// A parameter list that consists of `void`.
    Void,
    Listed { members: Vec<Member> },
}

/// The parameter list of a function, with its effect (the regions that must be live at a call) and its outlives constraints.
#[derive(Drop)]
pub struct Parameters {
    pub list: ParameterList,
    /// The effect of the function (the regions that must be live at a call), if one is written.
    pub effect: Option<Vec<Ident>>,
    pub constraints: Vec<Constraint>,
}

/// A declaration at the top level of a program.
#[derive(Drop)]
pub enum Declaration {
    /// A struct declaration with at least one field.
    Struct {
        name: Ident,
        regions: Vec<Ident>,
        fields: Vec<Member>,
    },
    /// A declaration of exceptions: `datatype exn`, with at least one constructor.
    Exceptions {
        constructors: Vec<Constructor>,
    },
    Global {
        of_type: WrittenType,
        name: Ident,
        value: Option<GlobalValue>,
    },
    /// A function definition; a `void` function has no result.
    Function {
        result: Option<WrittenType>,
        name: Ident,
        parameters: Parameters,
        body: Block,
    },
}

/// A parsed program: its declarations, and the texts of its names.
#[derive(Drop)]
pub struct Tree {
    pub declarations: Vec<Declaration>,
    pub names: Names,
}
