//! A whole run, with devices.

ghost use Rattle.std.specs.Prelude.{◌≡◌, ◌≢◌, ℕ, List, [], Err, IfOk, OnOk, OnErr, length};
ghost use Rattle.std.specs.Io.KnownBytes.{Consumes};
ghost use Rattle.cyc_types.specs.TypedTreeView.{view_program};
ghost use Rattle.cyc_meaning.specs.State.{status_of, output_of, input_of};
ghost use Rattle.cyc_soundness.specs.Sound.{IsSound};
ghost use Rattle.cyc_interpret.specs.View.{state_of};
ghost use Rattle.cyc_interpret.specs.Run.{status_by};
ghost use Rattle.cyc_interpret.specs.declared.run.Stop.TheVariants as stops;
ghost use Rattle.cyc_interpret.specs.Reported.{Leaves, RunsOn, RunsAs, EndsWell};

use crate::entry::{Over, Phase};
use crate::limits::Limits;
use crate::machine::Machine;
use cyc_types::TypedTree;
use cyc_words::{ByteIn, ByteOut};
use std::alloc::{AllocError, Global};

/// What a run came to.
#[derive(Clone, Copy)]
pub struct Report {
    /// Nothing where the run is under way, since its budget of steps is used up.
    pub end: Option<Over>,
    /// How many steps it took: none is counted after the end.
    pub steps: u64,
    /// How many bytes of the input are not read.
    pub left: usize,
    /// The greatest demand and depth of all states.
    pub pages: u128,
    pub calls: u128,
}

/// Why there is no report.
#[derive(Clone, Copy)]
pub enum Stop {
    /// Memory ran out, or the program made more than it may.
    NoMemory,
    /// The input could not be read.
    Input,
    /// The output could not be written.
    Output,
}

/// All bytes that a device still gives: where it reports its bytes, none is left.
fn read_all<R: ByteIn>(alloc: Global, reader: &mut R) -> Result<Vec<u8>, Stop>
    ensures bytes { IfOk result (λ input. Consumes (R.remaining reader.old) (R.remaining reader.new) input.items) }
    ensures ends { OnOk result (Leaves (R.remaining reader.old) (R.remaining reader.new) []) }
    ensures some { OnErr result ((read : List ℕ) × Consumes (R.remaining reader.old) (R.remaining reader.new) read) }
    ensures stop { result ≢ Err stops.Output }
{
    let mut input = Vec::new(alloc);
    for _ in 0..u64::MAX {
        match reader.next() {
            Err(_failed) => return Err(Stop::Input),
            Ok(None) => return Ok(input),
            Ok(Some(byte)) => {
                if input.push(byte).is_err() {
                    return Err(Stop::NoMemory);
                }
            }
        }
    }
    Err(Stop::NoMemory)
}

impl<'a> Machine<'a> {
    /// What the run came to, or nothing where it is under way.
    pub(crate) fn end(&self) -> Option<Over>
        ensures { status_of (state_of self.now) ≡ status_by result }
    {
        match &self.phase {
            Phase::Running { .. } => None,
            Phase::Over { end } => Some(*end),
        }
    }

    /// How many bytes of the input are not read.
    #[tactic(auto, using(crate::proofs::Seen::phase_input))]
    fn left(&self) -> usize
        ensures { length (input_of (state_of self.now)) ≡ result }
    {
        let read = self.world.read;
        let all = self.world.input.len();
        if read < all { all - read } else { 0 }
    }

    /// All that was printed.
    #[tactic(auto, using(crate::proofs::Seen::phase_output))]
    fn into_output(self) -> Vec<u8>
        ensures { output_of (state_of self.entry) ≡ result.items }
    {
        let world = self.world;
        world.output
    }
}

/// What a program comes to on an input, and what it prints.
#[tactic(auto, using(cyc_meaning::proofs::RunLaws::start_calls, cyc_meaning::proofs::RunLaws::within_at_start))]
fn run_on(
    alloc: Global,
    tree: &TypedTree,
    limits: Limits,
    budget: u64,
    input: Vec<u8>,
) -> Result<(Report, Vec<u8>), AllocError>
    ensures { IfOk result (λ both. RunsOn (view_program tree.now) limits.pages limits.calls budget input.items both.1.items both.0) }
{
    let mut machine = Machine::start(alloc, tree, input)?;
    let calls = machine.depth(1);
    let counts = machine.run(tree, limits, calls, budget)?;
    let report = Report {
        end: machine.end(),
        steps: counts.steps,
        left: machine.left(),
        pages: counts.pages,
        calls: counts.calls,
    };
    Ok((report, machine.into_output()))
}

/// Runs a program by the definition, step by step: the input is read whole, and what was printed is written at the end.
///
/// The report tells the end, if the run came to one within its budget of steps, how many steps it took, how many bytes of the input are not
/// read, and the greatest demand and depth. It stops where memory runs out, where the program makes more than `limits.made`, or where a
/// device fails. A sound program, as every program is that is accepted, is never reported dead or wrong.
pub fn run_source<R: ByteIn, W: ByteOut>(
    alloc: Global,
    tree: &TypedTree,
    limits: Limits,
    budget: u64,
    reader: &mut R,
    writer: &mut W,
) -> Result<Report, Stop>
    ensures run { RunsAs (view_program tree.now) limits.pages limits.calls budget
        (record { remaining = R.remaining reader.old; written = W.written writer.old })
        (record { remaining = R.remaining reader.new; written = W.written writer.new }) result }
    ensures ends { IsSound (view_program tree.now) → IfOk result (λ report. EndsWell report.end) }
{
    let input = read_all(alloc, reader)?;
    match run_on(alloc, tree, limits, budget, input) {
        Err(_error) => Err(Stop::NoMemory),
        Ok((report, output)) => match writer.put_all(&output) {
            Err(_failed) => Err(Stop::Output),
            Ok(()) => Ok(report),
        },
    }
}
