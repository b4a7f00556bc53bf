//! The start of a program.

ghost use Rattle.std.specs.Prelude.{◌≡◌, IfOk, map};
ghost use Rattle.cyc_types.specs.TypedTreeView.{view_constant, view_global, view_program};
ghost use Rattle.cyc_meaning.specs.State.{constant_value, global_object, first_world};
ghost use Rattle.cyc_meaning.specs.Run.{start};
ghost use Rattle.cyc_interpret.specs.WorldView.{view_value, view_object};
ghost use Rattle.cyc_interpret.specs.View.{view_world, state_of};

use crate::calls::function_at;
use crate::entry::{Entry, Environment, Over, Phase};
use crate::machine::Machine;
use crate::objects::{Cell, Object, Owner, Region, Sort};
use crate::operators::kind_of;
use crate::value::Value;
use crate::world::World;
use cyc_types::TypedTree;
use cyc_types::typed::{self, Constant};
use std::alloc::{AllocError, Global};

fn constant_value(constant: Constant) -> Value
    ensures { view_value result ≡ constant_value (view_constant constant) }
{
    match constant {
        Constant::Word { value } => Value::Int { word: value },
        Constant::Null => Value::Null,
    }
}

/// The variable of a global.
fn global_object(alloc: Global, global: &typed::Global) -> Result<Object, AllocError>
    ensures { IfOk result (λ object. view_object object ≡ global_object (view_global global.now)) }
{
    let mut cells = Vec::new(alloc);
    cells.push(Cell {
        kind: kind_of(&global.of_type),
        content: Some(constant_value(global.value)),
    })?;
    Ok(Object {
        owner: Owner::InRegion { region: 1 },
        cells,
    })
}

/// Each global is the object with its number.
fn global_objects(alloc: Global, globals: &Vec<typed::Global>) -> Result<Vec<Object>, AllocError>
    ensures { IfOk result (λ objects. map view_object objects.items ≡ map global_object (map view_global globals.now.items)) }
{
    let mut objects = Vec::new(alloc);
    for global in globals {
        objects.push(global_object(alloc, global)?)?;
    }
    Ok(objects)
}

/// The heap, the region of the globals and all of the input.
#[tactic(auto, using(crate::proofs::Starts::first_pages, crate::proofs::Starts::first_counts))]
fn first_world(alloc: Global, program: &TypedTree, input: Vec<u8>) -> Result<World, AllocError>
    ensures { IfOk result (λ world. view_world world ≡ first_world (view_program program.now) input.items) }
{
    let objects = global_objects(alloc, &program.globals)?;
    let mut regions = Vec::new(alloc);
    regions.push(Region::new(alloc, Sort::Heap))?;
    regions.push(Region::new(alloc, Sort::Globals))?;
    Ok(World {
        regions,
        objects,
        classes: [0; 11],
        live: [0; 11],
        pages: 1,
        made: 0,
        output: Vec::new(alloc),
        input,
        read: 0,
    })
}

impl<'a> Machine<'a> {
    /// `main` is called, nothing is printed yet, and all of the input is still to be read.
    pub fn start(
        alloc: Global,
        program: &'a TypedTree,
        input: Vec<u8>,
    ) -> Result<Machine<'a>, AllocError>
        ensures { IfOk result (λ machine. state_of machine ≡ start (view_program program.now) input.items) }
    {
        let world = first_world(alloc, program, input)?;
        let mut stack = Vec::new(alloc);
        stack.push(Entry::Main)?;
        let mut machine = Machine {
            phase: Phase::Over { end: Over::Wrong },
            stack,
            environment: Environment::new(alloc),
            world,
            alloc,
        };
        machine.call_function(function_at(program, program.main), Vec::new(alloc));
        Ok(machine)
    }
}
