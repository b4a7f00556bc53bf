//! The type of a typed operand's value, which is all that the typing rules use of the operand.
ghost use Rattle.std.specs.Prelude.{◌≡◌, IfOk};
ghost use Rattle.cyc_types.specs.Types.{Value};
ghost use Rattle.cyc_types.specs.TypeView.{view_ty, view_value_type};
ghost use Rattle.cyc_types.specs.TypedTrees.{unary_type, type_of_place, type_of};
ghost use Rattle.cyc_types.specs.TypedTreeView.{view_expression, view_dereference};
ghost use Rattle.cyc_types.specs.typing.Tests.{is_pointer, is_unique, is_key, is_fat, is_handle, is_void, is_int, is_char, is_value, is_tested};
ghost use Rattle.cyc_types.specs.typing.Tests.{value_of, target_of, region_of, kind_of, kind_of_value};
ghost use Rattle.cyc_types.specs.typing.Expressions.{is_any, has_members, is_movable};
ghost use Rattle.cyc_operands.specs.inside.Operands.{view_given};

use crate::types::{
    has_members, is_char_type, is_fat, is_handle, is_int_type, is_key, is_movable, is_pointer,
    is_unique, kind_of, region_of, target_of,
};
use cyc_types::typed::{Kind, UnaryOperator, ValueType};
use cyc_types::{Region, Ty, typed};
use std::alloc::AllocError;

/// The type of the value of an expression, as the typing rules use it.
#[derive(Clone, Copy)]
pub enum Given<'a> {
    /// The expression has no value.
    Void,
    /// The value is the null pointer, which has every nullable pointer type.
    Null,
    Int,
    Char,
    /// The value is the handle of the heap.
    HeapHandle,
    /// The expression has a value, whose type its tree node states.
    Value(&'a Ty),
}

/// Returns the type of the value stored in a memory location that a pointer points to.
pub fn type_of_place(place: &typed::Dereference) -> &Ty
    ensures { view_ty result.now ≡ type_of_place (view_dereference place.now) }
{
    match place {
        typed::Dereference::Target { of_type, .. }
        | typed::Dereference::Member { of_type, .. }
        | typed::Dereference::Element { of_type, .. } => of_type,
    }
}

impl<'a> Given<'a> {
    /// Returns the type of a typed expression's value, determined by the form of the expression.
    pub fn by(value: &'a typed::Expr) -> Given<'a>
        ensures { view_given result ≡ type_of (view_expression value.now) }
    {
        match value {
            typed::Expr::Number { .. }
            | typed::Expr::Counter { .. }
            | typed::Expr::NumberOfElements { .. } => Given::Int,
            typed::Expr::Unary { operator, .. } => Given::computed(*operator),
            typed::Expr::NullPointer => Given::Null,
            typed::Expr::HeapRegion => Given::HeapHandle,
            typed::Expr::FreeUnique { .. } | typed::Expr::FreeKey { .. } => Given::Void,
            typed::Expr::Copy { of_type, .. }
            | typed::Expr::Move { of_type, .. }
            | typed::Expr::Peek { of_type, .. }
            | typed::Expr::AddressOf { of_type, .. }
            | typed::Expr::AddressOfCell { of_type, .. }
            | typed::Expr::Binary { of_type, .. }
            | typed::Expr::New { of_type, .. } => Given::Value(of_type),
            typed::Expr::Load { source } => Given::Value(type_of_place(source)),
            typed::Expr::Call { result, .. }
            | typed::Expr::Assign { result, .. }
            | typed::Expr::Store { result, .. } => Given::of(result),
        }
    }

    /// Returns the type of the result of a unary operator.
    fn computed(operator: UnaryOperator) -> Given<'a>
        ensures { view_given result ≡ Value (unary_type operator) }
    {
        match operator {
            UnaryOperator::LowByte => Given::Char,
            UnaryOperator::Negate
            | UnaryOperator::Not
            | UnaryOperator::Complement
            | UnaryOperator::Widen => Given::Int,
        }
    }

    fn of(value_type: &'a ValueType) -> Given<'a>
        ensures { view_given result ≡ view_value_type value_type.now }
    {
        match value_type {
            ValueType::Void => Given::Void,
            ValueType::Null => Given::Null,
            ValueType::Value { of_type } => Given::Value(of_type),
        }
    }

    /// Returns true if the expression has no value, like a call of a function without a result.
    pub fn is_void(self) -> bool
        ensures { result ≡ is_void (view_given self.entry) }
    {
        matches!(self, Given::Void)
    }

    /// Returns true if the expression has a value of some type.
    pub fn is_value(self) -> bool
        ensures { result ≡ is_value is_any (view_given self.entry) }
    {
        match self {
            Given::Void | Given::Null => false,
            Given::Int | Given::Char | Given::HeapHandle | Given::Value(_) => true,
        }
    }

    /// Returns true if the value is an int.
    pub fn is_int(self) -> bool
        ensures { result ≡ is_int (view_given self.entry) }
    {
        match self {
            Given::Int => true,
            Given::Value(of_type) => is_int_type(of_type),
            Given::Void | Given::Null | Given::Char | Given::HeapHandle => false,
        }
    }

    /// Returns true if the value is a char.
    pub fn is_char(self) -> bool
        ensures { result ≡ is_char (view_given self.entry) }
    {
        match self {
            Given::Char => true,
            Given::Value(of_type) => is_char_type(of_type),
            Given::Void | Given::Null | Given::Int | Given::HeapHandle => false,
        }
    }

    /// Returns true if the value can be tested against zero or null.
    pub fn is_tested(self) -> bool
        ensures { result ≡ is_tested (view_given self.entry) }
    {
        match self {
            Given::Int => true,
            Given::Value(of_type) => is_int_type(of_type) || is_pointer(of_type),
            Given::Void | Given::Null | Given::Char | Given::HeapHandle => false,
        }
    }

    /// Returns true if the value has a pointer type; the expression `NULL` by itself does not have one.
    pub fn is_pointer(self) -> bool
        ensures { result ≡ is_value is_pointer (view_given self.entry) }
    {
        match self {
            Given::Value(of_type) => is_pointer(of_type),
            Given::Void | Given::Null | Given::Int | Given::Char | Given::HeapHandle => false,
        }
    }

    /// Returns true if the value is a thin pointer to a struct, so that `->` may access its fields.
    pub fn has_members(self) -> bool
        ensures { result ≡ is_value has_members (view_given self.entry) }
    {
        match self {
            Given::Value(of_type) => has_members(of_type),
            Given::Void | Given::Null | Given::Int | Given::Char | Given::HeapHandle => false,
        }
    }

    /// Returns true if the value is a fat pointer.
    pub fn is_fat(self) -> bool
        ensures { result ≡ is_value is_fat (view_given self.entry) }
    {
        match self {
            Given::Value(of_type) => is_fat(of_type),
            Given::Void | Given::Null | Given::Int | Given::Char | Given::HeapHandle => false,
        }
    }

    /// Returns true if the value is a fat pointer to which an int can be added.
    pub fn is_movable(self) -> bool
        ensures { result ≡ is_value is_movable (view_given self.entry) }
    {
        match self {
            Given::Value(of_type) => is_movable(of_type),
            Given::Void | Given::Null | Given::Int | Given::Char | Given::HeapHandle => false,
        }
    }

    /// Returns true if the value is a pointer into the unique region.
    pub fn is_unique(self) -> bool
        ensures { result ≡ is_value is_unique (view_given self.entry) }
    {
        match self {
            Given::Value(of_type) => is_unique(of_type),
            Given::Void | Given::Null | Given::Int | Given::Char | Given::HeapHandle => false,
        }
    }

    /// Returns true if the value is the key of a dynamic region.
    pub fn is_key(self) -> bool
        ensures { result ≡ is_value is_key (view_given self.entry) }
    {
        match self {
            Given::Value(of_type) => is_key(of_type),
            Given::Void | Given::Null | Given::Int | Given::Char | Given::HeapHandle => false,
        }
    }

    /// Returns true if the value is the handle of a region.
    pub fn is_handle(self) -> bool
        ensures { result ≡ is_value is_handle (view_given self.entry) }
    {
        match self {
            Given::HeapHandle => true,
            Given::Value(of_type) => is_handle(of_type),
            Given::Void | Given::Null | Given::Int | Given::Char => false,
        }
    }

    /// Returns the region of a pointer, a handle or a key; for any other value the heap.
    pub fn region(self) -> Region
        ensures { result ≡ region_of (value_of (view_given self.entry)) }
    {
        match self {
            Given::Value(of_type) => region_of(of_type),
            Given::Void | Given::Null | Given::Int | Given::Char | Given::HeapHandle => {
                Region::Heap
            }
        }
    }

    /// Returns the type of the value; if the expression has no value, returns the type of ints.
    pub fn of_type(self) -> Result<Ty, AllocError>
        ensures { IfOk result (λ t. view_ty t ≡ value_of (view_given self.entry)) }
    {
        match self {
            Given::Value(of_type) => of_type.share(),
            Given::HeapHandle => Ok(Ty::Handle {
                region: Region::Heap,
            }),
            Given::Char => Ok(Ty::Char),
            Given::Void | Given::Null | Given::Int => Ok(Ty::Int),
        }
    }

    /// Returns the target type of a pointer; for any other value the type of ints.
    pub fn target(self) -> Result<Ty, AllocError>
        ensures { IfOk result (λ t. view_ty t ≡ target_of (value_of (view_given self.entry))) }
    {
        match self {
            Given::Value(of_type) => target_of(of_type),
            Given::Void | Given::Null | Given::Int | Given::Char | Given::HeapHandle => {
                Ok(Ty::Int)
            }
        }
    }

    /// Returns the pointer kind (nullable, non-null or fat) of a pointer value.
    pub fn pointer_kind(self) -> Kind
        ensures { result ≡ kind_of (value_of (view_given self.entry)) }
    {
        match self {
            Given::Value(of_type) => kind_of(of_type),
            Given::HeapHandle => Kind::Handle,
            Given::Char => Kind::Char,
            Given::Void | Given::Null | Given::Int => Kind::Int,
        }
    }

    /// Returns the representation kind (int, pointer, handle, ..) of a memory cell that can hold the value.
    pub fn kind(self) -> Kind
        ensures { result ≡ kind_of_value (view_given self.entry) }
    {
        match self {
            Given::Value(of_type) => kind_of(of_type),
            Given::Null => Kind::Nullable,
            Given::HeapHandle => Kind::Handle,
            Given::Char => Kind::Char,
            Given::Void | Given::Int => Kind::Int,
        }
    }
}
