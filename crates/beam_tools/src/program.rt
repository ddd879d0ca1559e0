//! The programs, and their texts.
ghost use Rattle.std.specs.Prelude.{◌≡◌};

// The version of all three programs, with texts before and after it.
macro_rules! version {
    ($($before:literal)? ; $($after:literal)?) => {
        concat!($($before,)? "0.1.0" $(, $after)?)
    };
}

pub(crate) use version;

const ASSEMBLER_HELP: &str =
    "Assembles IN.S, a listing in the compiler's form, to the file OUT.beam.

usage: beamas [-v] [--all] IN.S OUT.beam

  -v, --verbose  after a fault, a second line tells where
      --all      after it, a line for each form that is refused
  -h, --help     prints this text
  -V, --version  prints name and version

status: 0 OUT.beam is written; 1 a file is refused, or memory;
  2 a wrong command line
";

const DISASSEMBLER_HELP: &str =
    "Prints the listing that the file IN.beam spells, also if it can't be loaded.

usage: beamdis [-v] IN.beam

  -v, --verbose  after a fault, a second line tells where
  -h, --help     prints this text
  -V, --version  prints name and version

status: 0 the listing is printed; 1 the file, the output or memory is refused;
  2 a wrong command line
";

const NODE_HELP: &str = "Runs compiled Erlang modules.

usage: beamnode [-v] call --module M --function F [--args LIST] [--steps N] FILE..
       beamnode [-v] pipe
       beamnode [-v] serve [--port P] [--socket PATH] [--socket-mode MODE]
                [--socket-clients S] [--http P] [--http-token FILE]
                [--connections K] [--clients C] [--schedulers N]
                [--log LEVEL] [--idle SECONDS]
                [--stop-when-full] [--journal-limit N] [--journal FILE]
                [--sync WHEN] [--start M:F] [FILE..]
       beamnode [-v] replay [--upto N] [--print FROM..TO] [--inspect PID] FILE
       beamnode [-v] replay [--upto N] --pipe FILE

call loads the files in order and prints the value of a function.
pipe answers the commands on standard input.
serve loads the files in order, starts a process with M:F, and answers the
  commands of connections to 127.0.0.1 or to a socket.
replay runs the entries of a journal's file again, and says what they are.

  --module M          the module's name
  --function F        the function's name
  --args LIST         its arguments, a list as Erlang text (default: [])
  --steps N           the most rows that are run (default: 1000000)
  --port P            the port, below 65536; 0 is one that is free
  --socket PATH       a Unix-domain socket beside the port, or without one
  --socket-mode MODE  who may connect to it, as chmod has it (default: 600)
  --socket-clients S  how many of its connections are served at once, 1 to 16
                      (default: 4)
  --http P            the port of a page over the node, and of its metrics
  --http-token FILE   asks for a token there, which is written to FILE
  --connections K     how many connections are served (default: 0, no end)
  --clients C         how many of the port's at once, 1 to 16 (default: 1)
  --schedulers N      the threads that run processes, 1 to 64 (default: 2)
  --log LEVEL         what is told: error, warn or info (default: warn)
  --idle SECONDS      a session ends that is silent so long (default: 0, never)
  --stop-when-full    the node ends when its journal is full
  --journal-limit N   its most entries, 1 to 16777216 (default: 16777216)
  --journal FILE      keeps the journal in FILE; a node that has one comes back
  --sync WHEN         when FILE is on the device: always before an answer,
                      each second, or no (default: second)
  --start M:F         a function without arguments that a process starts with
  --upto N            ends before entry N
  --print FROM..TO    prints a line for each entry n with FROM <= n < TO
  --inspect PID       prints process PID, as it is after the last entry
  --pipe              answers the commands on standard input from there on
  -v, --verbose       after a fault, a second line tells where
  -h, --help          prints this text
  -V, --version       prints name and version

status: 0 success; 1 a file, a process, a stream, the output or memory is
  refused; 2 a wrong command line; 3 process 1 ended with another reason;
  4 no process can run; 5 the rows are spent
";

const NODE_USAGE: &str =
    "usage: beamnode [-v] call --module M --function F [--args LIST] [--steps N] FILE..
       beamnode [-v] pipe
       beamnode [-v] serve [--port P] [--socket PATH] [--socket-mode MODE]
                [--socket-clients S] [--http P] [--http-token FILE]
                [--connections K] [--clients C] [--schedulers N]
                [--log LEVEL] [--idle SECONDS]
                [--stop-when-full] [--journal-limit N] [--journal FILE]
                [--sync WHEN] [--start M:F] [FILE..]
       beamnode [-v] replay [--upto N] [--print FROM..TO] [--inspect PID] FILE
       beamnode [-v] replay [--upto N] --pipe FILE
";

/// A program.
#[derive(Clone, Copy)]
pub enum Program {
    /// `beamas`.
    Assembler,
    /// `beamdis`.
    Disassembler,
    /// `beamnode`.
    Node,
}

impl Program {
    ghost use Rattle.beam_tools.specs.Program.{help_of, name_of, usage_of, version_of};

    /// Its name.
    pub fn name(self) -> &'static str
        ensures { result.now ≡ name_of self }
    {
        match self {
            Program::Assembler => "beamas",
            Program::Disassembler => "beamdis",
            Program::Node => "beamnode",
        }
    }

    /// The lines that show how it is called.
    pub fn usage(self) -> &'static str
        ensures { result.now ≡ usage_of self }
    {
        match self {
            Program::Assembler => "usage: beamas [-v] [--all] IN.S OUT.beam\n",
            Program::Disassembler => "usage: beamdis [-v] IN.beam\n",
            Program::Node => NODE_USAGE,
        }
    }

    /// Its name and version.
    pub fn version(self) -> &'static str
        ensures { result.now ≡ version_of self }
    {
        match self {
            Program::Assembler => version!("beamas "; "\n"),
            Program::Disassembler => version!("beamdis "; "\n"),
            Program::Node => version!("beamnode "; "\n"),
        }
    }

    /// What it does, its options with their defaults, and its statuses.
    pub fn help(self) -> &'static str
        ensures { result.now ≡ help_of self }
    {
        match self {
            Program::Assembler => ASSEMBLER_HELP,
            Program::Disassembler => DISASSEMBLER_HELP,
            Program::Node => NODE_HELP,
        }
    }
}
