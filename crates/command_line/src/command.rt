//! The commands of the program, and how they are written.

ghost use Rattle.std.specs.Prelude.{ℕ, ◌≡◌, ◌≤◌, ◌∷◌, [], None, Some, IfSome, decimal};
ghost use Rattle.clap.specs.Walk.{texts};
ghost use Rattle.workloads.specs.declared.kind.Kind.{Kind};
ghost use Rattle.command_line.specs.Command.{IsCommand, IsCommandLine, IsDepth, IsPiping, IsWorkload, kind_name, piping_words, workload_words};
ghost use Rattle.command_line.specs.declared.command.Command.{Command};
ghost use Rattle.command_line.specs.declared.command.Piping.{Piping};
ghost use Rattle.command_line.specs.declared.command.Workload.{Workload};

use trace_text::numbers::number;
use workloads::kind::Kind;
use workloads::making::MAX_SIZE;

/// A workload that a command names. `size` is at most `MAX_SIZE`.
#[derive(Clone, Copy)]
pub struct Workload {
    pub kind: Kind,
    /// The rounds of all lanes together.
    pub size: u32,
    /// What the draws begin with.
    pub start: u64,
}

/// The most messages that each sender of a pipeline sends.
pub const MAX_MESSAGES: u32 = 100_000;

/// A pipeline that a command names: how many senders, from 1 to 4, how many messages each of them sends,
/// at most `MAX_MESSAGES`, and the number from which the words count.
#[derive(Clone, Copy)]
pub struct Piping {
    pub senders: u8,
    pub messages: u32,
    pub start: u64,
}

/// The most rounds of a store's script.
pub const MAX_ROUNDS: u32 = 1_000_000;

/// The most blocks of a class that a lane's cache keeps.
pub const MAX_DEPTH: u8 = 64;

/// A command of the program.
#[derive(Clone, Copy)]
pub enum Command {
    /// Run the trace that stands on standard input, each lane on a thread of its own, and report it.
    Replay,
    /// Run it in the order that it gives, and report it with the steps that were made.
    Schedule,
    /// Run it as `Replay` does, report it, and count what the heap holds at its end.
    Census,
    /// Make the trace of a workload, run it, and sum up its outcomes.
    Make(Workload),
    /// Make the trace of a workload, and print it.
    Print(Workload),
    /// Run a pipeline of blocks, and print what was received of each sender.
    Pipe(Piping),
    /// Run so many rounds of the script of a store, at most `MAX_ROUNDS`, and tell what it holds.
    Store(u32),
    /// Run the trace as `Replay` does, each lane through a cache that keeps so many blocks of each class, from 1 to
    /// `MAX_DEPTH`, and report it with how many allocations the caches served.
    Cache(u8),
}

/// The name of a kind of workload.
pub fn name_of(kind: Kind) -> &'static str
    ensures { result.now ≡ kind_name kind }
{
    match kind {
        Kind::Scalability => "scalability",
        Kind::Threadtest => "threadtest",
        Kind::Larson => "larson",
        Kind::Pipeline => "pipeline",
    }
}

/// The kind of workload that has this name.
fn kind_of(word: &str) -> Option<Kind>
    ensures some { IfSome result (λ kind. word.now ≡ kind_name kind) }
    ensures only { (kind : Kind) → word.now ≡ kind_name kind → result ≡ Some kind }
{
    match word {
        "scalability" => Some(Kind::Scalability),
        "threadtest" => Some(Kind::Threadtest),
        "larson" => Some(Kind::Larson),
        "pipeline" => Some(Kind::Pipeline),
        _ => None,
    }
}

/// The number that a word is, if it is no greater than this.
fn number_to(word: &str, most: u32) -> Option<u32>
    ensures some { IfSome result (λ n. (n ≤ most) × (word.now ≡ decimal n)) }
    ensures only { (n : ℕ) → n ≤ most → word.now ≡ decimal n → result ≡ Some n }
{
    let n = number(word.as_bytes())?;
    if n <= u64::from(most) {
        Some(n as u32)
    } else {
        None
    }
}

/// The depth of a cache that a word is.
fn depth_of(word: &str) -> Option<u8>
    ensures some { IfSome result (λ depth. IsDepth depth × (word.now ≡ decimal depth)) }
    ensures only { (depth : ℕ) → IsDepth depth → word.now ≡ decimal depth → result ≡ Some depth }
{
    let depth = number_to(word, u32::from(MAX_DEPTH))?;
    if depth == 0 { None } else { Some(depth as u8) }
}

/// The workload that these words name.
fn workload_of(kind: &str, size: &str, start: &str) -> Option<Workload>
    ensures some { IfSome result (λ workload.
        IsWorkload workload × (kind.now ∷ size.now ∷ start.now ∷ [] ≡ workload_words workload)) }
    ensures only { (workload : Workload) → IsWorkload workload
        → kind.now ∷ size.now ∷ start.now ∷ [] ≡ workload_words workload → result ≡ Some workload }
{
    let kind = kind_of(kind)?;
    let size = number_to(size, MAX_SIZE)?;
    let start = number(start.as_bytes())?;
    Some(Workload { kind, size, start })
}

/// The pipeline that these words name.
fn piping_of(senders: &str, messages: &str, start: &str) -> Option<Piping>
    ensures some { IfSome result (λ piping.
        IsPiping piping × (senders.now ∷ messages.now ∷ start.now ∷ [] ≡ piping_words piping)) }
    ensures only { (piping : Piping) → IsPiping piping
        → senders.now ∷ messages.now ∷ start.now ∷ [] ≡ piping_words piping → result ≡ Some piping }
{
    let senders = number(senders.as_bytes())?;
    let messages = number(messages.as_bytes())?;
    let start = number(start.as_bytes())?;
    if 1 <= senders && senders <= 4 && messages <= u64::from(MAX_MESSAGES) {
        Some(Piping {
            senders: senders as u8,
            messages: messages as u32,
            start,
        })
    } else {
        None
    }
}

/// The command that is this one word.
fn short_command(word: &str) -> Option<Command>
    ensures some { IfSome result (λ command. IsCommandLine command (word.now ∷ [])) }
    ensures none { result ≡ None → ¬ IsCommand (word.now ∷ []) }
{
    match word {
        "replay" => Some(Command::Replay),
        "schedule" => Some(Command::Schedule),
        "census" => Some(Command::Census),
        _ => None,
    }
}

/// The command that is a word and a number.
fn number_command(word: &str, argument: &str) -> Option<Command>
    ensures some { IfSome result (λ command. IsCommandLine command (word.now ∷ argument.now ∷ [])) }
    ensures none { result ≡ None → ¬ IsCommand (word.now ∷ argument.now ∷ []) }
{
    match word {
        "store" => Some(Command::Store(number_to(argument, MAX_ROUNDS)?)),
        "cache" => Some(Command::Cache(depth_of(argument)?)),
        _ => None,
    }
}

/// The command that is a word and three more.
fn long_command(word: &str, first: &str, second: &str, third: &str) -> Option<Command>
    ensures some { IfSome result (λ command.
        IsCommandLine command (word.now ∷ first.now ∷ second.now ∷ third.now ∷ [])) }
    ensures none { result ≡ None → ¬ IsCommand (word.now ∷ first.now ∷ second.now ∷ third.now ∷ []) }
{
    match word {
        "make" => Some(Command::Make(workload_of(first, second, third)?)),
        "print" => Some(Command::Print(workload_of(first, second, third)?)),
        "pipe" => Some(Command::Pipe(piping_of(first, second, third)?)),
        _ => None,
    }
}

/// The command that is written so.
pub fn command_of(words: &[&str]) -> Option<Command>
    ensures some { IfSome result (λ command. IsCommandLine command (texts words.now)) }
    ensures only { (command : Command) → IsCommandLine command (texts words.now) → result ≡ Some command }
{
    match words {
        [word] => short_command(word),
        [word, argument] => number_command(word, argument),
        [word, first, second, third] => long_command(word, first, second, third),
        _ => None,
    }
}
