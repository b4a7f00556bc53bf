//! Laws of the definitions in `specs/`. Each function in this file has an empty body, and its contract states one law.
ghost use Rattle.std.specs.Prelude.{◌≡◌, ◌↔◌, ℕ, ◌+◌, ◌*◌, ◌≤◌, List, Some, Ok, Err, length, slice_get};
ghost use Rattle.cyc_words.specs.declared.fault.Fault.{Fault};
ghost use Rattle.cyc_syntax.specs.Trees.{Declaration};
ghost use Rattle.cyc_syntax.specs.inside.Weight.{tree_weight};
ghost use Rattle.cyc_types.specs.TypedTrees.{Statement, Function, Program};
ghost use Rattle.cyc_types.specs.typing.Programs.{IsTypedProgram, IsRefusedProgram, check_of};
ghost use Rattle.cyc_types.specs.typing.WellTyped.{IsWellTypedProgram};
ghost use Rattle.cyc_types.specs.inside.typing.Formed.{IsFormedProgram};
ghost use Rattle.cyc_types.specs.flow.Programs.{IsAllowedProgram, IsStoppedProgram, flow_of};
ghost use Rattle.cyc_types.specs.Weight.{else_weight, statement_weight, function_weight, program_weight};

/// The typing rules are deterministic: a syntax tree has at most one typed tree.
pub fn one_typed_tree()
    ensures { (texts : List (List ℕ)) (tree : List Declaration) (p q : Program) → IsTypedProgram texts tree p → IsTypedProgram texts tree q → p ≡ q }
{}

/// A syntax tree has at most one first typing fault.
pub fn one_fault()
    ensures { (texts : List (List ℕ)) (tree : List Declaration) (f g : Fault) → IsRefusedProgram texts tree f → IsRefusedProgram texts tree g → f ≡ g }
{}

/// No syntax tree is both well-typed and rejected.
pub fn typed_or_refused()
    ensures { (texts : List (List ℕ)) (tree : List Declaration) (p : Program) (f : Fault) → IsTypedProgram texts tree p → IsRefusedProgram texts tree f → ⊥ }
{}

/// The type checker returns a typed tree exactly if the rules derive it, and a fault exactly if the rules reject with that fault.
pub fn checking_is_typing()
    ensures typed { (texts : List (List ℕ)) (tree : List Declaration) (p : Program) → (check_of texts tree ≡ Ok p) ↔ IsTypedProgram texts tree p }
    ensures refused { (texts : List (List ℕ)) (tree : List Declaration) (f : Fault) → (check_of texts tree ≡ Err f) ↔ IsRefusedProgram texts tree f }
{}

/// No typed tree both satisfies all flow rules and is rejected by a flow rule.
pub fn allowed_or_stopped()
    ensures { (program : Program) (f : Fault) → IsAllowedProgram program → IsStoppedProgram program f → ⊥ }
{}

/// A typed tree has at most one first flow fault.
pub fn one_flow_fault()
    ensures { (program : Program) (f g : Fault) → IsStoppedProgram program f → IsStoppedProgram program g → f ≡ g }
{}

/// The flow check succeeds exactly if the flow rules are satisfied, and returns a fault exactly if the flow rules reject with that fault.
pub fn flow_checking_is_flow()
    ensures kept { (program : Program) → (flow_of program ≡ Ok tt) ↔ IsAllowedProgram program }
    ensures refused { (program : Program) (f : Fault) → (flow_of program ≡ Err f) ↔ IsStoppedProgram program f }
{}

/// The typing rules derive only well-typed trees.
pub fn typed_trees_are_well_typed()
    ensures { (texts : List (List ℕ)) (tree : List Declaration) (p : Program) → IsTypedProgram texts tree p → IsWellTypedProgram p }
{}

/// The typing rules derive no declaration whose type contains an undeclared region.
pub fn typed_trees_are_formed()
    ensures { (texts : List (List ℕ)) (tree : List Declaration) (p : Program) → IsTypedProgram texts tree p → IsFormedProgram p }
{}

/// The weight (token count) of a typed tree is at most the weight of its syntax tree.
pub fn typed_trees_are_no_heavier()
    ensures { (texts : List (List ℕ)) (tree : List Declaration) (p : Program) → IsTypedProgram texts tree p → program_weight p ≤ tree_weight tree }
{}

/// An `else` adds to the weight (token count) of an `if` at least the weight of its statement minus one
/// token, the weight of an empty statement.
pub fn an_else_weighs_its_statement()
    ensures { (s : Statement) → statement_weight s ≤ 1 + else_weight s (statement_weight s) }
{}

/// The weight (token count) of a program is at least that of each of its functions; each global weighs at least three tokens, and each
/// function at least six.
pub fn programs_outweigh_their_parts()
    ensures function { (p : Program) (n : ℕ) (h : Function) → slice_get p.functions n ≡ Some h → function_weight h ≤ program_weight p }
    ensures declarations { (p : Program) → 3 * length p.globals + 6 * length p.functions ≤ program_weight p }
{}

/// Each function has a minimum weight (token count). The minimum weight of a function counts two tokens for each parameter and three for
/// each local of the body. For each region that the parameters do not name, the minimum weight of a function counts two tokens.
pub fn functions_outweigh_their_locals()
    ensures { (p : Program) (n : ℕ) (h : Function) → IsWellTypedProgram p → slice_get p.functions n ≡ Some h
        → (h.variables + 1 ≤ h.regions) × (2 * length h.parameters + 3 * length h.locals + 2 * h.regions + 4 ≤ function_weight h + 2 * h.variables) }
{}
