//! The parser of declarations and of programs. A declaration stands at nesting depth zero, so its own brackets are the first nesting level.
ghost use Rattle.std.specs.Prelude.{◌≡◌, ℕ, suc, map, option_map};
ghost use Rattle.cyc_syntax.specs.inside.TreeView.{place_of_span, view_name, view_type, view_member, view_constructor, view_value, view_constraint};
ghost use Rattle.cyc_syntax.specs.inside.TreeView.{view_list, view_parameters, view_declaration};
ghost use Rattle.cyc_parse.specs.inside.Code.{Gives};
ghost use Rattle.cyc_parse.specs.inside.Parsing.{next, starts, begins_region, separated};
ghost use Rattle.cyc_parse.specs.inside.Types.{begins_type};
ghost use Rattle.cyc_parse.specs.inside.Declarations.{begins_void, begins_constructor, member, field, has_int, constructor, some_of, parameter_list};
ghost use Rattle.cyc_parse.specs.inside.Declarations.{effect_regions, effect, constraint};
ghost use Rattle.cyc_parse.specs.inside.Declarations.{constraints, parameters, value, global_value, global, function, typed, struct_fields};
ghost use Rattle.cyc_parse.specs.inside.Declarations.{struct_or_typed, exceptions, declaration, program_of};

use crate::cursor::{Parser, refusal};
use crate::growth::append;
use crate::stop::{Reason, Stop};
use crate::symbol::Terminal;
use crate::types::MAX_ITEMS;
use cyc_syntax::{
    BaseType, Constraint, Constructor, Declaration, GlobalValue, Ident, Keyword, Member,
    ParameterList, Parameters, Sign, WrittenType,
};
use cyc_words::Span;

/// The maximal number of nesting levels.
const MAX_NESTING: u32 = 200;

impl<'a> Parser<'a> {
    // ---- the fields of structs, and the constructors of exceptions

    fn begins_void(&self) -> bool
        ensures { result ≡ starts begins_void (next self.now) }
    {
        match self.next() {
            Some(Terminal::Word(word)) => word == Keyword::Void,
            _ => false,
        }
    }

    fn begins_constructor(&self) -> bool
        ensures { result ≡ starts begins_constructor (next self.now) }
    {
        matches!(self.next(), Some(Terminal::Identifier(_)))
    }

    /// Parses a field without its semicolon, or a parameter.
    fn parse_member(&mut self) -> Result<Member, Stop>
        ensures { (room : ℕ) → Gives view_member result (member (suc room) self.old) self.new }
    {
        let of_type = self.parse_type()?;
        let name = self.take_identifier()?;
        Ok(Member { of_type, name })
    }

    fn parse_field(&mut self) -> Result<Member, Stop>
        ensures { (room : ℕ) → Gives view_member result (field (suc room) self.old) self.new }
    {
        let member = self.parse_member()?;
        self.take_sign(Sign::Semicolon)?;
        Ok(member)
    }

    /// Parses the fields of a struct, at least one.
    fn parse_field_list(&mut self) -> Result<Vec<Member>, Stop>
        ensures { (room : ℕ) → Gives (λ v. map view_member v.items) result (some_of begins_type (field (suc room)) self.old) self.new }
    {
        let mut fields = Vec::new(self.alloc());
        for _ in 0..MAX_ITEMS {
            let field = self.parse_field()?;
            append(&mut fields, field)?;
            if !self.begins_type() {
                return Ok(fields);
            }
        }
        Err(Stop::Refused(Reason::TooLong))
    }

    /// Reads `(int)`, if it comes next.
    fn parse_int(&mut self) -> Result<bool, Stop>
        ensures { Gives (λ b. b) result (has_int 200 self.old) self.new }
    {
        let Some(_) = self.take_if(Sign::LeftParen) else {
            return Ok(false);
        };
        self.take_word(Keyword::Int)?;
        self.take_sign(Sign::RightParen)?;
        Ok(true)
    }

    fn parse_constructor(&mut self) -> Result<Constructor, Stop>
        ensures { Gives view_constructor result (constructor 200 self.old) self.new }
    {
        let name = self.take_identifier()?;
        let has_int = self.parse_int()?;
        self.take_sign(Sign::Semicolon)?;
        Ok(Constructor { name, has_int })
    }

    /// Parses the constructors of `exn`, at least one.
    fn parse_constructor_list(&mut self) -> Result<Vec<Constructor>, Stop>
        ensures { Gives (λ v. map view_constructor v.items) result (some_of begins_constructor (constructor 200) self.old) self.new }
    {
        let mut constructors = Vec::new(self.alloc());
        for _ in 0..MAX_ITEMS {
            let constructor = self.parse_constructor()?;
            append(&mut constructors, constructor)?;
            if !self.begins_constructor() {
                return Ok(constructors);
            }
        }
        Err(Stop::Refused(Reason::TooLong))
    }

    // ---- parameters

    /// Parses parameters separated by commas.
    fn parse_members(&mut self) -> Result<Vec<Member>, Stop>
        ensures { (room : ℕ) → Gives (λ v. map view_member v.items) result (separated (suc room) begins_type (member (suc room)) self.old) self.new }
    {
        let mut members = Vec::new(self.alloc());
        for _ in 0..MAX_ITEMS {
            let member = self.parse_member()?;
            append(&mut members, member)?;
            let Some(_) = self.take_if(Sign::Comma) else {
                return Ok(members);
            };
        }
        Err(refusal(self.begins_type(), Reason::TooLong))
    }

    fn parse_parameter_list(&mut self) -> Result<ParameterList, Stop>
        ensures { Gives view_list result (parameter_list 200 self.old) self.new }
    {
        if self.begins_void() {
            self.advance()?;
            return Ok(ParameterList::Void);
        }
        if !self.begins_type() {
            let members = Vec::new(self.alloc());
            return Ok(ParameterList::Listed { members });
        }
        let members = self.parse_members()?;
        Ok(ParameterList::Listed { members })
    }

    /// Parses the regions of an effect, possibly none.
    fn parse_effect_regions(&mut self) -> Result<Vec<Ident>, Stop>
        ensures { (room : ℕ) → Gives (λ v. map view_name v.items) result (effect_regions (suc room) self.old) self.new }
    {
        if self.begins_region() {
            self.parse_regions()
        } else {
            Ok(Vec::new(self.alloc()))
        }
    }

    fn parse_effect(&mut self) -> Result<Option<Vec<Ident>>, Stop>
        ensures { Gives (option_map (λ v. map view_name v.items)) result (effect 200 self.old) self.new }
    {
        let Some(_) = self.take_if(Sign::Semicolon) else {
            return Ok(None);
        };
        self.take_sign(Sign::LeftBrace)?;
        let regions = self.parse_effect_regions()?;
        self.take_sign(Sign::RightBrace)?;
        Ok(Some(regions))
    }

    fn parse_constraint(&mut self) -> Result<Constraint, Stop>
        ensures { (room : ℕ) → Gives view_constraint result (constraint (suc room) self.old) self.new }
    {
        let longer = self.take_region_name()?;
        self.take_sign(Sign::Greater)?;
        let shorter = self.take_region_name()?;
        Ok(Constraint { longer, shorter })
    }

    /// Parses constraints separated by commas.
    fn parse_constraint_list(&mut self) -> Result<Vec<Constraint>, Stop>
        ensures { (room : ℕ) → Gives (λ v. map view_constraint v.items) result (separated (suc room) begins_region (constraint (suc room)) self.old) self.new }
    {
        let mut constraints = Vec::new(self.alloc());
        for _ in 0..MAX_ITEMS {
            let constraint = self.parse_constraint()?;
            append(&mut constraints, constraint)?;
            let Some(_) = self.take_if(Sign::Comma) else {
                return Ok(constraints);
            };
        }
        Err(refusal(self.begins_region(), Reason::TooLong))
    }

    fn parse_constraints(&mut self) -> Result<Vec<Constraint>, Stop>
        ensures { Gives (λ v. map view_constraint v.items) result (constraints 200 self.old) self.new }
    {
        let Some(_) = self.take_if(Sign::Colon) else {
            return Ok(Vec::new(self.alloc()));
        };
        self.parse_constraint_list()
    }

    /// Parses the parameters of a function with its effect and constraints, up to the closing bracket.
    fn parse_parameters(&mut self) -> Result<Parameters, Stop>
        ensures { Gives view_parameters result (parameters 200 self.old) self.new }
    {
        let list = self.parse_parameter_list()?;
        let effect = self.parse_effect()?;
        let constraints = self.parse_constraints()?;
        Ok(Parameters {
            list,
            effect,
            constraints,
        })
    }

    // ---- declarations

    fn parse_value(&mut self) -> Result<GlobalValue, Stop>
        ensures { Gives view_value result (value 200 self.old) self.new }
    {
        match self.next() {
            Some(Terminal::Number(value)) => {
                let span = self.take_next();
                Ok(GlobalValue::Number { span, value })
            }
            Some(Terminal::Character(value)) => {
                let span = self.take_next();
                Ok(GlobalValue::Character { span, value })
            }
            Some(Terminal::Word(Keyword::Null)) => {
                let span = self.take_next();
                Ok(GlobalValue::Null { span })
            }
            Some(Terminal::Mark(Sign::Minus)) => {
                let span = self.take_next();
                let value = self.take_number()?;
                Ok(GlobalValue::Negative { span, value })
            }
            _ => Err(Stop::Refused(Reason::Unexpected)),
        }
    }

    /// Parses the initial value of a global, if one is given.
    fn parse_global_value(&mut self) -> Result<Option<GlobalValue>, Stop>
        ensures { Gives (option_map view_value) result (global_value 200 self.old) self.new }
    {
        let Some(_) = self.take_if(Sign::Assign) else {
            return Ok(None);
        };
        Ok(Some(self.parse_value()?))
    }

    /// Parses what follows the type and the name in the declaration of a global variable.
    fn parse_global(&mut self, of_type: WrittenType, name: Ident) -> Result<Declaration, Stop>
        ensures { Gives view_declaration result (global 200 (view_type of_type) (view_name name) self.old) self.new }
    {
        let value = self.parse_global_value()?;
        self.take_sign(Sign::Semicolon)?;
        Ok(Declaration::Global {
            of_type,
            name,
            value,
        })
    }

    /// Parses what follows the result type and the name in the declaration of a function.
    fn parse_function(
        &mut self,
        of_type: Option<WrittenType>,
        name: Ident,
    ) -> Result<Declaration, Stop>
        ensures { Gives view_declaration result (function 200 (option_map view_type of_type) (view_name name) self.old) self.new }
    {
        self.take_sign(Sign::LeftParen)?;
        let parameters = self.parse_parameters()?;
        self.take_sign_inside(MAX_NESTING, Sign::RightParen)?;
        let body = self.parse_block(MAX_NESTING)?;
        Ok(Declaration::Function {
            result: of_type,
            name,
            parameters,
            body,
        })
    }

    /// Parses what follows the type at the start of the declaration of a global variable or function.
    fn parse_typed(&mut self, of_type: WrittenType) -> Result<Declaration, Stop>
        ensures { Gives view_declaration result (typed 200 (view_type of_type) self.old) self.new }
    {
        let name = self.take_identifier()?;
        if self.sees(Sign::LeftParen) {
            self.parse_function(Some(of_type), name)
        } else {
            self.parse_global(of_type, name)
        }
    }

    /// Parses what follows the name and the region parameters in the declaration of a struct.
    fn parse_struct(&mut self, name: Ident, regions: Vec<Ident>) -> Result<Declaration, Stop>
        ensures { Gives view_declaration result (struct_fields 200 (view_name name) (map view_name regions.items) self.old) self.new }
    {
        self.take_sign(Sign::LeftBrace)?;
        let fields = self.parse_field_list()?;
        self.take_sign(Sign::RightBrace)?;
        self.take_sign(Sign::Semicolon)?;
        Ok(Declaration::Struct {
            name,
            regions,
            fields,
        })
    }

    /// Parses, after `struct`, a struct declaration or another declaration that begins with the struct type.
    fn parse_struct_or_typed(&mut self, span: Span) -> Result<Declaration, Stop>
        ensures { Gives view_declaration result (struct_or_typed 200 (place_of_span span) self.old) self.new }
    {
        let name = self.take_identifier()?;
        let regions = self.parse_optional_regions()?;
        if self.sees(Sign::LeftBrace) {
            return self.parse_struct(name, regions);
        }
        let of_type = self.parse_rest_of_type(span, BaseType::Struct { name, regions })?;
        self.parse_typed(of_type)
    }

    /// Parses the declaration `datatype exn`.
    fn parse_exceptions(&mut self) -> Result<Declaration, Stop>
        ensures { Gives view_declaration result (exceptions 200 self.old) self.new }
    {
        self.take_word(Keyword::Datatype)?;
        self.take_word(Keyword::Exn)?;
        self.take_sign(Sign::LeftBrace)?;
        let constructors = self.parse_constructor_list()?;
        self.take_sign(Sign::RightBrace)?;
        self.take_sign(Sign::Semicolon)?;
        Ok(Declaration::Exceptions { constructors })
    }

    #[tactic(auto, unfolding(crate::specs::inside::Declarations::declaration, crate::specs::inside::Parsing::choose, crate::specs::inside::Parsing::bind))]
    fn parse_declaration(&mut self) -> Result<Declaration, Stop>
        ensures { Gives view_declaration result (declaration 200 self.old) self.new }
    {
        match self.next() {
            Some(Terminal::Word(Keyword::Struct)) => {
                let span = self.take_next();
                self.parse_struct_or_typed(span)
            }
            Some(Terminal::Word(Keyword::Datatype)) => self.parse_exceptions(),
            Some(Terminal::Word(Keyword::Void)) => {
                self.take_next();
                let name = self.take_identifier()?;
                self.parse_function(None, name)
            }
            _ => {
                let of_type = self.parse_type()?;
                self.parse_typed(of_type)
            }
        }
    }

    /// Parses a program: at least one declaration, up to the end of the symbols.
    pub(crate) fn parse_program(&mut self) -> Result<Vec<Declaration>, Stop>
        ensures { Gives (λ v. map view_declaration v.items) result (program_of self.old) self.new }
    {
        let first = self.parse_declaration()?;
        let mut declarations = Vec::new(self.alloc());
        declarations.push(first)?;
        let most = self.len();
        for _ in 0..most {
            let Some(_) = self.next() else {
                return Ok(declarations);
            };
            let declaration = self.parse_declaration()?;
            declarations.push(declaration)?;
        }
        Ok(declarations)
    }
}
