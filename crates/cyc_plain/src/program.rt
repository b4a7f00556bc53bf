//! A plain program: its functions and its globals.
ghost use Rattle.std.specs.Prelude.{◌≡◌, ◌↔◌, ◌<◌, IsTrue, length, map};
ghost use Rattle.cyc_plain.specs.inside.Program.{program_of, routine_at, routine_of};
ghost use Rattle.cyc_plain.specs.inside.WellFormed.{IsPlain, IsWellFormed};

use crate::instruction::Instruction;
use cyc_words::Span;
use std::marker::Model;

/// A function of a plain program. The first slots of a function are its parameters.
#[derive(Drop)]
pub struct Function {
    /// The position of the function's name in the source.
    pub name: Span,
    /// How many machine words the function's parameters have.
    pub parameters: usize,
    /// How many machine words the function's result has.
    pub results: usize,
    /// How many slots the function has.
    pub slots: usize,
    /// The most words that the function's stack frame may have.
    pub frame_count: usize,
    pub code: Vec<Instruction>,
}

/// A plain program is well-formed, its numbers are words, and the size of its code is within the limit. The code that constructs a
/// `Plain` proves the invariant of this type, and every user may rely on the invariant.
#[derive(Drop)]
pub struct Plain {
    functions: Vec<Function>,
    globals: Vec<u32>,
    main: usize,
}

/// The parts of a plain program: its functions, its globals and the index of `main`.
#[derive(Drop)]
pub struct Parts {
    pub functions: Vec<Function>,
    pub globals: Vec<u32>,
    pub main: usize,
}

impl Model for Plain {
    ghost use Rattle.cyc_plain.specs.inside.Program.{Program, program_of};
    ghost use Rattle.cyc_plain.specs.inside.WellFormed.{IsPlain};

    ghost Value = { Program };

    ghost view = { λ a. program_of a.functions.items a.globals.items a.main };

    ghost invariant = { λ a. IsPlain (program_of a.functions.items a.globals.items a.main) };
}

impl Plain {
    /// Returns the plain program with these functions, the initial words of its globals, and the index of the function that is called
    /// first.
    pub fn new(functions: Vec<Function>, globals: Vec<u32>, main: usize) -> Plain
        requires { IsPlain (program_of functions.items globals.items main) }
        ensures { result ≡ program_of functions.items globals.items main }
    {
        Plain {
            functions,
            globals,
            main,
        }
    }

    /// Returns the functions, the globals and the index of `main` of a plain program, from which a pass builds another program.
    pub fn into_parts(self) -> Parts
        ensures value { program_of result.functions.items result.globals.items result.main ≡ self }
        ensures plain { IsPlain self }
    {
        Parts {
            functions: self.functions,
            globals: self.globals,
            main: self.main,
        }
    }

    /// Returns the functions of the program, in the order of their indices.
    pub fn functions(&self) -> &[Function]
        ensures value { map routine_of result.now ≡ self.now.functions }
        ensures plain { IsPlain self.now }
    {
        &self.functions
    }

    /// Returns the function with this index.
    pub fn function(&self, number: usize) -> &Function
        requires { number < length self.now.functions }
        ensures { routine_of result.now ≡ routine_at self.now number }
    {
        &self.functions[number]
    }

    /// Returns the initial word of each global.
    pub fn globals(&self) -> &[u32]
        ensures { result.now ≡ self.now.globals }
    {
        &self.globals
    }

    /// Returns the index of the function that is called first.
    pub fn main(&self) -> usize
        ensures value { result ≡ self.now.main }
        ensures in_range { result < length self.now.functions }
    {
        self.main
    }
}

/// Returns true if a program is well-formed, which the invariant of `Plain` implies for every program.
pub fn well_formed(program: &Plain) -> bool
    ensures { IsTrue result ↔ IsWellFormed program.now }
{
    let _functions = program.functions();
    true
}
