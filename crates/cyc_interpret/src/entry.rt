//! The control stack, and what is done next.

ghost use Rattle.std.specs.Prelude.{◌≤◌, ◌<◌};

use crate::objects::Owner;
use crate::value::{Operand, Value, Write};
use cyc_types::Ty;
use cyc_types::typed::{
    Body, Callee, Clause, Converted, Dereference, Expr, Function, Initial, Item, Kind, Operation,
    Operator, PointerOperator, Side, Stmt, UnaryOperator,
};
use cyc_words::Span;

/// What the running call knows. A local or a counter that is not there yet has no number.
#[derive(Drop)]
pub struct Environment {
    pub locals: Vec<Option<usize>>,
    /// The region in which the variables of the innermost block live.
    pub home: usize,
    pub counters: Vec<Option<u32>>,
}

/// How far the elements of an array are evaluated, with the level of their counter.
#[derive(Clone, Copy)]
pub struct Progress {
    pub object: usize,
    pub count: u32,
    pub index: u32,
    pub level: usize,
    pub ghost within: { index ≤ count },
}

/// An element of an array that is evaluated.
#[derive(Clone, Copy)]
pub struct Slot {
    pub object: usize,
    pub count: u32,
    pub index: u32,
    pub level: usize,
    pub ghost below: { index < count },
}

/// An entry of the control stack. Lists are taken from a number on; operands that were computed before stand with the newest last.
#[derive(Drop)]
pub enum Entry<'a> {
    ConvertTo {
        from: Kind,
        to: Kind,
        /// The expression that gives it: its type tells what a pointer leads to.
        value: &'a Expr,
    },
    Operate {
        operator: UnaryOperator,
    },
    Chain {
        rest: &'a Vec<Operation>,
        from: usize,
    },
    Apply {
        operator: Operator,
        left: Operand,
    },
    ApplyPointer {
        peek: Option<usize>,
        operator: PointerOperator,
        left: Operand,
    },
    Decide,
    /// The value is stored in the variable that is this object.
    Store {
        object: usize,
    },
    StoreCell {
        peek: Option<usize>,
        place: Value,
    },
    Pass {
        callee: Callee,
        at: Span,
        before: Vec<Operand>,
        arguments: &'a Vec<Converted>,
        from: usize,
    },
    Follow {
        pointer: Kind,
        target: Option<Kind>,
    },
    FollowMember {
        pointer: Kind,
        fields: &'a Vec<Ty>,
        field: usize,
    },
    Index {
        peek: Option<usize>,
        target: Option<Kind>,
        index: &'a Expr,
    },
    Advance {
        peek: Option<usize>,
        target: Option<Kind>,
        base: Operand,
    },
    CountElements,
    FreeObject,
    CloseByKey,
    PlaceBy {
        initial: &'a Initial,
    },
    BesideHandle {
        region: usize,
    },
    MakePlain {
        owner: Owner,
        kind: Kind,
    },
    MakeFields {
        owner: Owner,
        before: Vec<Operand>,
        fields: &'a Vec<Converted>,
        from: usize,
    },
    MakeArray {
        owner: Owner,
        level: usize,
        kind: Kind,
        element: &'a Expr,
    },
    FillElement {
        slot: Slot,
        kind: Kind,
        element: &'a Expr,
    },
    Initialise {
        number: usize,
        kind: Kind,
        items: &'a Vec<Item>,
        from: usize,
    },
    Choose {
        first: &'a Stmt,
        second: &'a Stmt,
    },
    Test {
        condition: &'a Expr,
        body: &'a Stmt,
    },
    Return,
    ThrowWith {
        tag: usize,
    },
    OpenBy {
        number: usize,
        lent: usize,
        items: &'a Vec<Item>,
        from: usize,
    },
    AliasOf {
        number: usize,
        lent: usize,
        items: &'a Vec<Item>,
        from: usize,
    },
    LoadFrom {
        kind: Kind,
    },
    TakeAddress,
    StoreTo {
        peek: Option<usize>,
        value: &'a Converted,
    },
    SwapLeft {
        kind: Kind,
        peek: Option<usize>,
        right: &'a Side,
    },
    SwapRight {
        kind: Kind,
        peek: Option<usize>,
        is_cell: bool,
        left: Value,
    },
    Discard,
    Rest {
        items: &'a Vec<Item>,
        from: usize,
    },
    Join,
    Loop {
        condition: &'a Expr,
        body: &'a Stmt,
    },
    CloseRegion {
        region: usize,
        home: usize,
    },
    CloseLexical {
        region: usize,
    },
    EndLoan {
        lent: usize,
    },
    Handler {
        clauses: &'a Vec<Clause>,
        from: usize,
        default: &'a Option<Body>,
    },
    /// The end of a call: what its caller knows, the number of the function, and the place in the text from which it is called.
    Caller {
        environment: Environment,
        number: usize,
        at: Span,
    },
    Main,
}

/// What a run that is over came to.
#[derive(Clone, Copy)]
pub enum Over {
    Returned { value: i32 },
    Uncaught { tag: usize, value: i32 },
    /// It went past a limit.
    Full,
    /// It touched what is closed or freed.
    Dead,
    /// No case applied.
    Wrong,
}

/// What is done next.
#[derive(Drop)]
pub enum Focus<'a> {
    Evaluating {
        value: &'a Expr,
    },
    Locating {
        place: &'a Dereference,
    },
    Given {
        operand: Operand,
    },
    GivenPlace {
        place: Value,
    },
    Executing {
        statement: &'a Stmt,
    },
    Proceeding,
    /// All arguments are evaluated, the newest last.
    Calling {
        callee: Callee,
        at: Span,
        arguments: Vec<Operand>,
    },
    Entering {
        function: &'a Function,
        arguments: Vec<Operand>,
    },
    /// The parameters from this one on are made.
    Binding {
        number: usize,
        function: &'a Function,
        arguments: Vec<Operand>,
    },
    Naming {
        number: usize,
        operand: Operand,
        items: &'a Vec<Item>,
        from: usize,
    },
    /// The cells of a new object from this one on get these values.
    Filling {
        object: usize,
        values: Vec<Operand>,
        from: usize,
    },
    /// Both cells of a swap are written, and then only the second one.
    Exchanging {
        first: Write,
        second: Write,
    },
    Restoring {
        last: Write,
    },
    Exchanged,
    Beginning {
        owner: Owner,
        count: u32,
        level: usize,
        kind: Kind,
        element: &'a Expr,
    },
    Repeating {
        progress: Progress,
        kind: Kind,
        element: &'a Expr,
    },
    Swapping {
        kind: Kind,
        left: Value,
        right: Value,
        before: Option<Operand>,
    },
    Breaking,
    Continuing,
    Returning {
        value: Option<Operand>,
    },
    Throwing {
        tag: usize,
        value: u32,
    },
    Catching {
        tag: usize,
        value: u32,
        clauses: &'a Vec<Clause>,
        from: usize,
        default: &'a Option<Body>,
    },
}

/// Under way, or over.
#[derive(Drop)]
pub enum Phase<'a> {
    Running { focus: Focus<'a> },
    Over { end: Over },
}
