//! This file has the table of commands, with their help texts and the arguments that they take.
use crate::version::VERSION;
use clap::{Arg, ArgAction, Command};
use std::alloc::{AllocError, Global};

const ABOUT: &str = "Checks programs in an integer profile of Cyclone, a safe C with regions, \
     compiles them to MIPS32 images, and runs and disassembles those images.";

const EXAMPLES: &str = "Examples:
  cyclone check hello.cyc                   say what is wrong with the program
  cyclone compile hello.cyc -o hello.elf    compile it to an image
  cyclone run hello.elf                     run it: what it returns is the exit status
  cyclone exec hello.cyc                    compile it in memory and run it
  cyclone disasm hello.elf                  list its instructions
  cyclone explain 22                        say what a refusal with fault 22 is about
  cyclone info hello.elf                    say what it is: its segments and its limits
  cyclone bound hello.cyc                   say how many calls its runs have at most
  cyclone format hello.cyc                  print the program in the one style

Exit status: 0 done, or the low 8 bits of what the program returned; 2 the source file was
refused; 3 not an image; 4 uncaught exception; 5 out of calls or pages; 6 the machine trapped;
7 out of steps; 8 reading or writing failed, or out of memory; 9 wrong usage; 1 not formatted.
The last line on standard error says which.";

const CHECK_HELP: &str = "Examples:
  cyclone check hello.cyc
  cyclone check first.cyc second.cyc

A message says what is wrong first in the source file, and where; others what is wrong following
it. With --json each refusal and each warning is an object on a line of the standard output.
Of several files the exit status is that of the first that is not done.";

const COMPILE_HELP: &str = "Examples:
  cyclone compile hello.cyc -o hello.elf
  cyclone compile hello.cyc -o hello.elf --pages 16 --calls 64
  cyclone compile hello.cyc -o hello.elf --limits auto
  cyclone compile hello.cyc -o hello.elf --places hello.places
  cyclone compile hello.cyc --with lib/text.cyc lib/numbers.cyc -o hello.elf

Where the program is refused, no file is written: a message says what is wrong, and where.
With --pages or --calls the image carries both limits, and each run without these options
has them. With --limits auto they are what the program needs at most, as cyclone bound says.
With --places a run can say where in the program it ended; the image is the same. With --with
the functions, structs, exceptions and globals of these files that the program reaches are part
of it, as if they stood after it; --emit writes the text that is compiled.";

const RUN_HELP: &str = "Examples:
  echo hello | cyclone run echo.elf --calls 64 --steps 5000000
  cyclone run other.elf --at-most-pages 256 --at-most-calls 512 --report run.json
  cyclone run hello.elf --places hello.places
  cyclone run hello.elf --store plain

The program's input is the standard input, and its output the standard output. The exit
status is the low 8 bits of what it returned. Each of the limits of pages and calls is that
of its option; where that is left out, the one that the image carries; where it carries none,
1024 pages and 4096 calls. With --at-most-pages and --at-most-calls none is above these. The
file of --report has one JSON object: how the run ended, and its figures. With the file of
places that compile wrote, a run that ends before its program does says at which line, and
which calls were under way. A run takes its memory from a pool of pages; with --store plain
from an array of words that grows. A compiled program does the same on both.";

const EXEC_HELP: &str = "Examples:
  cyclone exec hello.cyc
  echo hello | cyclone exec echo.cyc --calls 64 --steps 5000000

The program is compiled in memory, with the messages of cyclone check, and run as cyclone run
runs an image: no file is written. A run that ends before its program does says at which line,
and which calls were under way.";

const DISASM_HELP: &str = "Examples:
  cyclone disasm hello.elf
  cyclone disasm other.elf --at-most 1000
  cyclone disasm hello.elf --places hello.places

Each line has an address, the word that stands there, and its instruction. With the file of
places that compile wrote, functions and lines of the program stand above their instructions.";

const PACK_HELP: &str = "Example:
  cyclone pack \"Hello, world\\n\"

The first line has the words of the text, four bytes in each; the others are calls of the library
lib/text.cyc that print it. A backslash begins an escape, as in C: \\n \\t \\r \\0 \\\\ \\\" \\' \\x0a.";

const EXPLAIN_HELP: &str = "Example:
  cyclone explain 22

The last line of a refusal has its code: fault 22 at 3:14. What is printed is the rule, a program
that breaks it, and that program mended. Without a code the codes are listed.";

const INFO_HELP: &str = "Examples:
  cyclone info hello.elf
  cyclone info hello.elf --places hello.places

The lines say where the image is entered, which segments it has, which limits it carries for
its runs, and whether it has the form of what this compiler makes. With the file of places that
compile wrote, a line for each function has its address and its size.";

const BOUND_HELP: &str = "Examples:
  cyclone bound hello.cyc
  cyclone bound first.cyc second.cyc

The lines say what a run of the program needs at most, whatever its input: how many calls are
under way, that of main among them; how many pages of memory it takes; and how many steps it goes.
A run whose limits allow as many never ends for want of calls or of pages. Where there is no such
number, the lines following say what stands in the way, and where.";

const FORMAT_HELP: &str = "Examples:
  cyclone format hello.cyc
  cyclone format hello.cyc -o hello.cyc
  cyclone format --check first.cyc second.cyc

The program is laid out in the style of the examples: its tokens and its comments stay. It is
printed, or written to the file of -o, which may be its own. With --check nothing is written: the
exit status is 1 if a file would change. Where it has no tokens, a message says what is wrong,
and where.";

/// The form of one argument of a command line.
#[derive(Clone, Copy)]
enum Form {
    /// A file or a text, identified by its position among the arguments.
    File,
    /// One or more files.
    Files,
    /// A file after the option `-o`, which is required.
    Output,
    /// A file after the option `-o`, which may be absent.
    OutputIfGiven,
    /// An option followed by a number; if the option is omitted, the number has this default.
    Number(&'static str),
    /// An option followed by a number, which may be absent.
    Limit,
    /// A command-line argument that is the number of a fault code; if the argument is omitted, the command lists all codes.
    Code,
    /// An option followed by a file, which may be absent.
    FileIfGiven,
    /// An option followed by one or more files; the option may be given several times.
    FilesIfGiven,
    /// An option followed by a word, which may be absent.
    WordIfGiven,
    /// An option without a value, which may be absent.
    Flag,
}

/// A file argument or an option of a command.
#[derive(Clone, Copy)]
struct Word {
    id: &'static str,
    shown: &'static str,
    form: Form,
    help: &'static str,
}

/// A command, with its help text and the arguments that it takes.
#[derive(Clone, Copy)]
struct Plan {
    name: &'static str,
    /// The beginning of the command's usage line.
    path: &'static str,
    about: &'static str,
    after_help: &'static str,
    words: &'static [Word],
}

const SOURCE: Word = Word {
    id: "source",
    shown: "SOURCE",
    form: Form::File,
    help: "The source file; - is the standard input",
};

const SOURCES: Word = Word {
    id: "source",
    shown: "SOURCE",
    form: Form::Files,
    help: "The source file, or several of them; - is the standard input",
};

const SOURCE_TO_RUN: Word = Word {
    id: "file",
    shown: "SOURCE",
    form: Form::File,
    help: "The source file; - is the standard input",
};

const OUTPUT: Word = Word {
    id: "image",
    shown: "IMAGE",
    form: Form::Output,
    help: "The image file to write",
};

const FORMATTED: Word = Word {
    id: "output",
    shown: "FILE",
    form: Form::OutputIfGiven,
    help: "The file to write, in place of printing",
};

const IMAGE: Word = Word {
    id: "image",
    shown: "IMAGE",
    form: Form::File,
    help: "The image file",
};

const IMAGE_TO_RUN: Word = Word {
    id: "file",
    shown: "IMAGE",
    form: Form::File,
    help: "The image file",
};

const CODE: Word = Word {
    id: "code",
    shown: "CODE",
    form: Form::Code,
    help: "The number of the code",
};

const TEXT: Word = Word {
    id: "text",
    shown: "TEXT",
    form: Form::File,
    help: "The text, with escapes",
};

const PAGES: Word = Word {
    id: "pages",
    shown: "N",
    form: Form::Limit,
    help: "Memory for regions, in pages of 4096 bytes, from 3 to 65536 [default: the image's, or 1024]",
};

const CALLS: Word = Word {
    id: "calls",
    shown: "N",
    form: Form::Limit,
    help: "Nested calls, from 1 to 4096 [default: the image's, or 4096]",
};

const EXEC_PAGES: Word = Word {
    id: "pages",
    shown: "N",
    form: Form::Limit,
    help: "Memory for regions, in pages of 4096 bytes, from 3 to 65536 [default: 1024]",
};

const EXEC_CALLS: Word = Word {
    id: "calls",
    shown: "N",
    form: Form::Limit,
    help: "Nested calls, from 1 to 4096 [default: 4096]",
};

const CARRIED_PAGES: Word = Word {
    id: "pages",
    shown: "N",
    form: Form::Limit,
    help: "The pages of the image's runs, from 3 to 65536 [default: 1024, if --calls is given]",
};

const CARRIED_CALLS: Word = Word {
    id: "calls",
    shown: "N",
    form: Form::Limit,
    help: "The calls of the image's runs, from 1 to 4096 [default: 4096, if --pages is given]",
};

const MOST_PAGES: Word = Word {
    id: "at-most-pages",
    shown: "N",
    form: Form::Limit,
    help: "No more pages than this, whatever the image carries, from 3 to 65536",
};

const MOST_CALLS: Word = Word {
    id: "at-most-calls",
    shown: "N",
    form: Form::Limit,
    help: "No more calls than this, whatever the image carries, from 1 to 4096",
};

const MOST_LINES: Word = Word {
    id: "at-most",
    shown: "N",
    form: Form::Limit,
    help: "No more lines than this, from 1 to 4294967295 [default: all]",
};

const REPORT: Word = Word {
    id: "report",
    shown: "FILE",
    form: Form::FileIfGiven,
    help: "A file to write to how the run ended, and its figures, as JSON",
};

const PEAKS: Word = Word {
    id: "peaks",
    shown: "",
    form: Form::Flag,
    help: "With --report: count the most calls under way and the most pages in use too; the run takes several times as long",
};

const STORE: Word = Word {
    id: "store",
    shown: "STORE",
    form: Form::WordIfGiven,
    help: "Where the memory for regions comes from: a pool of pages, or plain, an array that grows [default: pages]",
};

const LIMITS: Word = Word {
    id: "limits",
    shown: "auto",
    form: Form::WordIfGiven,
    help: "Take both limits from the program, where it has bounds (cyclone bound)",
};

const PLACES: Word = Word {
    id: "places",
    shown: "FILE",
    form: Form::FileIfGiven,
    help: "A file to write where in the program each word of the image comes from",
};

const GIVEN_PLACES: Word = Word {
    id: "places",
    shown: "FILE",
    form: Form::FileIfGiven,
    help: "The image's file of places, to say where in the program the run ended",
};

const PLACES_OF_IMAGE: Word = Word {
    id: "places",
    shown: "FILE",
    form: Form::FileIfGiven,
    help: "The image's file of places, to say which functions it has",
};

const LISTED_PLACES: Word = Word {
    id: "places",
    shown: "FILE",
    form: Form::FileIfGiven,
    help: "The image's file of places, to show functions and lines of the program beside the instructions",
};

const STEPS: Word = Word {
    id: "steps",
    shown: "N",
    form: Form::Number("1000000000"),
    help: "Instructions executed, from 1 to 1000000000000",
};

const JSON: Word = Word {
    id: "json",
    shown: "",
    form: Form::Flag,
    help: "Print refusals and warnings as JSON, an object on a line for each",
};

const WITH: Word = Word {
    id: "with",
    shown: "FILE",
    form: Form::FilesIfGiven,
    help: "Files of declarations, as those in lib/: what the program reaches of them is part of it",
};

const EMIT: Word = Word {
    id: "emit",
    shown: "FILE",
    form: Form::FileIfGiven,
    help: "A file to write the text to that is compiled: the program, and what it reaches of the files of --with",
};

const CHECK: Word = Word {
    id: "check",
    shown: "",
    form: Form::Flag,
    help: "Write nothing, and say which files are not laid out so",
};

// The prover unfolds a table at its use, so a function of its own returns each of the two tables of commands,
// `FIRST_COMMANDS` and `FURTHER_COMMANDS`.
fn first_commands() -> &'static [Plan] {
    FIRST_COMMANDS
}

fn further_commands() -> &'static [Plan] {
    FURTHER_COMMANDS
}

const FIRST_COMMANDS: &[Plan] = &[
    Plan {
        name: "check",
        path: "cyclone check",
        about: "Checks a program, and says what is wrong with it",
        after_help: CHECK_HELP,
        words: &[SOURCES, WITH, JSON],
    },
    Plan {
        name: "compile",
        path: "cyclone compile",
        about: "Compiles a program to an image",
        after_help: COMPILE_HELP,
        words: &[
            SOURCE,
            OUTPUT,
            CARRIED_PAGES,
            CARRIED_CALLS,
            LIMITS,
            PLACES,
            WITH,
            EMIT,
            JSON,
        ],
    },
    Plan {
        name: "run",
        path: "cyclone run",
        about: "Runs an image",
        after_help: RUN_HELP,
        words: &[
            IMAGE_TO_RUN,
            PAGES,
            CALLS,
            MOST_PAGES,
            MOST_CALLS,
            STEPS,
            STORE,
            REPORT,
            PEAKS,
            GIVEN_PLACES,
        ],
    },
    Plan {
        name: "exec",
        path: "cyclone exec",
        about: "Compiles a program in memory, and runs it",
        after_help: EXEC_HELP,
        words: &[
            SOURCE_TO_RUN,
            EXEC_PAGES,
            EXEC_CALLS,
            MOST_PAGES,
            MOST_CALLS,
            STEPS,
            STORE,
            REPORT,
            PEAKS,
            WITH,
        ],
    },
    Plan {
        name: "disasm",
        path: "cyclone disasm",
        about: "Disassembles an image",
        after_help: DISASM_HELP,
        words: &[IMAGE, MOST_LINES, LISTED_PLACES],
    },
];

const FURTHER_COMMANDS: &[Plan] = &[
    Plan {
        name: "explain",
        path: "cyclone explain",
        about: "Says what the code of a refusal is about",
        after_help: EXPLAIN_HELP,
        words: &[CODE],
    },
    Plan {
        name: "info",
        path: "cyclone info",
        about: "Says what an image is",
        after_help: INFO_HELP,
        words: &[IMAGE, PLACES_OF_IMAGE],
    },
    Plan {
        name: "bound",
        path: "cyclone bound",
        about: "Says what a program needs, whatever its input",
        after_help: BOUND_HELP,
        words: &[SOURCES, WITH],
    },
    Plan {
        name: "format",
        path: "cyclone format",
        about: "Lays a program out in the one style",
        after_help: FORMAT_HELP,
        words: &[SOURCES, FORMATTED, CHECK],
    },
    Plan {
        name: "pack",
        path: "cyclone pack",
        about: "Prints the words of a text, for a program that prints it",
        after_help: PACK_HELP,
        words: &[TEXT],
    },
];

fn argument<'a>(alloc: Global, word: &Word) -> Arg<'a> {
    let argument = Arg::new(alloc, word.id).help(word.help);
    if let Form::Flag = word.form {
        return argument.long(word.id).action(ArgAction::SetTrue);
    }
    let argument = argument.value_name(word.shown).action(ArgAction::Set);
    match word.form {
        Form::File => argument.required(true),
        Form::Files => argument.required(true).action(ArgAction::Append),
        Form::Output => argument.short('o').required(true),
        Form::OutputIfGiven => argument.short('o'),
        Form::Number(default) => argument.long(word.id).default_value(default),
        Form::Code => argument,
        Form::FilesIfGiven => argument
            .long(word.id)
            .action(ArgAction::Append)
            .num_args(1_usize..),
        Form::Limit | Form::FileIfGiven | Form::WordIfGiven | Form::Flag => argument.long(word.id),
    }
}

fn command<'a>(alloc: Global, plan: &Plan) -> Result<Command<'a>, AllocError> {
    let mut command = Command::new(alloc, plan.name)
        .bin_name(plan.path)?
        .about(plan.about)
        .after_help(plan.after_help);
    for word in plan.words {
        command = command.arg(argument(alloc, word))?;
    }
    Ok(command)
}

pub(crate) fn program<'a>(alloc: Global) -> Result<Command<'a>, AllocError> {
    let mut program = Command::new(alloc, "cyclone")
        .bin_name("cyclone")?
        .version(VERSION)
        .about(ABOUT)
        .after_help(EXAMPLES)
        .subcommand_required(true);
    for plan in first_commands() {
        program = program.subcommand(command(alloc, plan)?)?;
    }
    for plan in further_commands() {
        program = program.subcommand(command(alloc, plan)?)?;
    }
    Ok(program)
}

/// Returns the table entry of the command with this name, if there is one.
fn plan_named(name: &str) -> Option<&'static Plan> {
    for plan in first_commands() {
        if plan.name == name {
            return Some(plan);
        }
    }
    for plan in further_commands() {
        if plan.name == name {
            return Some(plan);
        }
    }
    None
}

/// Returns the command-line definition of only the command with this name, so that a mistake in its arguments is reported with this
/// command's usage. Returns the definition of the whole program, with all commands, if there is no command with this name.
pub(crate) fn command_named<'a>(alloc: Global, name: &str) -> Result<Command<'a>, AllocError> {
    match plan_named(name) {
        Some(plan) => command(alloc, plan),
        None => program(alloc),
    }
}
