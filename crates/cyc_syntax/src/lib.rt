//! The syntax of the Cyclone subset: names, tokens and abstract syntax trees. The token rule and the grammar, against which the lexer and
//! the parser are proved, are in `specs/`.
#![tactic(auto)]

pub use cyc_words::Span;
pub use interning::{Name, Names};
pub use place::place_after;
pub use tokens::{Keyword, Sign, Token, TokenKind};
pub use tree::{
    BaseType, BinaryOperator, Block, Clause, Constraint, Constructor, Declaration, Expr,
    GlobalValue, Ident, Initial, Item, Member, Operation, ParameterList, Parameters, Pointer,
    PointerKind, Postfix, PrefixOperator, Stmt, Tree, WrittenType,
};

mod interning;
pub mod laws;
mod place;
mod tokens;
mod tree;
pub mod tree_laws;
