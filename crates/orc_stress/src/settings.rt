//! What the words of the command line ask for.

ghost use Rattle.std.specs.Prelude.{◌≡◌, ◌≤◌};
ghost use Rattle.orc_stress.specs.declared.settings.Kind.TheVariants.{Sorted};

use crate::load::{Load, Mix, Plan};
use clap::builder::ValueParser;
use clap::error::ErrorKind;
use clap::parser::ValueSource;
use clap::{Arg, ArgAction, ArgMatches, Command};
use std::alloc::{AllocError, Global};

/// What is driven.
#[derive(Clone, Copy, PartialEq, Eq, Drop)]
pub enum Kind {
    Queue,
    List,
    Set,
    /// The set that doubles its buckets.
    Split,
    /// A pair that is published at once.
    Cell,
    /// Keys in order in one piece, without a lock, on one thread.
    Sorted,
}

impl Kind {
    // Its word on the command line.
    pub(crate) fn word(self) -> &'static str {
        match self {
            Kind::Queue => "queue",
            Kind::List => "list",
            Kind::Set => "set",
            Kind::Split => "split",
            Kind::Cell => "cell",
            Kind::Sorted => "sorted",
        }
    }

    // Where an agent is stopped, if no word says where.
    fn first_stop(self) -> Stop {
        match self {
            Kind::Cell => Stop::Staged,
            _ => Stop::First,
        }
    }

    // Whether it has calls that stop there.
    fn stops(self, stop: Stop) -> bool {
        match stop {
            Stop::First => self != Kind::Cell,
            Stop::Tail => self == Kind::Queue,
            Stop::Marked => self == Kind::List || self == Kind::Set,
            Stop::Staged => self == Kind::Cell,
        }
    }
}

/// What it stands on.
#[derive(Clone, Copy, PartialEq, Eq, Drop)]
pub enum Domain {
    Plain,
    Reclaiming,
}

/// Where the agent more is stopped: it holds the first node, or has put a job and not moved the tail, or has marked a key's node
/// and not taken it off its chain, or has staged a new part and not published it.
#[derive(Clone, Copy, PartialEq, Eq, Drop)]
pub enum Stop {
    First,
    Tail,
    Marked,
    Staged,
}

impl Stop {
    // What is said of a run in which an agent is stopped so.
    pub(crate) fn words(self) -> &'static str {
        match self {
            Stop::First => " stalled",
            Stop::Tail => " stalled at the tail",
            Stop::Marked => " stalled at a mark",
            Stop::Staged => " stalled at a staged part",
        }
    }
}

/// What the words ask for.
#[derive(Clone, Copy, PartialEq, Eq, Drop)]
pub struct Settings {
    /// `--container`.
    pub container: Kind,
    /// `--domain`.
    pub domain: Domain,
    /// `--rows`, 2 to 65,535.
    pub rows: u32,
    /// `--roots`, 1 to 257: the buckets of a set, or the most that one has that doubles them.
    pub roots: u32,
    /// `--agents`, or as many as there are threads and stopped agents, if those are more.
    pub agents: u32,
    /// `--turns`: how often a call tries.
    pub turns: u32,
    /// `--stop`, of the agent that is stopped, where one is.
    pub stop: Stop,
    /// Whether the speed is printed: not under `--untimed`.
    pub times: bool,
    /// The other options.
    pub plan: Plan,
    pub ghost enough: { plan.threads ≤ agents },
    pub ghost alone: { container ≡ Sorted → plan.threads ≤ 1 },
}

impl Settings {
    // What the container stands on, in a word.
    pub(crate) fn memory(&self) -> &'static str {
        match (self.container, self.domain) {
            (Kind::Sorted, _) => "VecDeque",
            (_, Domain::Plain) => "plain",
            (_, Domain::Reclaiming) => "reclaiming",
        }
    }

    // Of the agent that is stopped, if there is one.
    pub(crate) fn stalled(&self) -> &'static str {
        if self.plan.stalls {
            self.stop.words()
        } else {
            ""
        }
    }

    // How many retired rows there are at most that no agent has in hand: nine an agent, of a domain whose rows come back.
    pub(crate) fn bound(&self) -> u32 {
        match (self.container, self.domain) {
            (Kind::Sorted, _) | (_, Domain::Plain) => 0,
            (_, Domain::Reclaiming) => self.agents.wrapping_mul(9),
        }
    }
}

/// Why words give no settings.
#[derive(Clone, Copy, PartialEq, Eq, Drop)]
pub enum Refused {
    /// `clap` refuses the words.
    Words,
    /// The container hasn't such calls.
    Calls,
    /// The container is for one thread.
    Alone,
    /// The container's calls don't stop there.
    Stop,
    /// With the stopped agent there are more than 16.
    Agents,
    /// Memory was refused.
    NoMemory,
}

impl Refused {
    /// Why, in words; nothing of what `clap` refuses, nor where memory was refused.
    pub fn why(self) -> Option<&'static str> {
        match self {
            Refused::Words | Refused::NoMemory => None,
            Refused::Calls => Some("the container has no such calls"),
            Refused::Alone => Some("the container is for one thread, and none is stopped"),
            Refused::Stop => Some("no call of the container stops there"),
            Refused::Agents => Some(
                "16 threads and an agent that is stopped are more than 16 agents",
            ),
        }
    }
}

// What an option takes: one of these words, a number from the second to the third, and without it the first, or nothing.
#[derive(Clone, Copy)]
enum Takes {
    OneOf(&'static [&'static str]),
    Number(&'static str, u32, u32),
    Nothing,
}

// The options.
const OPTIONS: [(&str, Takes); 15] = [
    (
        "container",
        Takes::OneOf(&["queue", "list", "set", "split", "cell", "sorted"]),
    ),
    ("domain", Takes::OneOf(&["plain", "reclaiming"])),
    (
        "mix",
        Takes::OneOf(&["pairs", "apart", "90/5/5", "34/33/33"]),
    ),
    ("stop", Takes::OneOf(&["first", "tail", "marked", "staged"])),
    ("agents", Takes::Number("1", 1, 16)),
    ("rows", Takes::Number("65535", 2, 65535)),
    ("roots", Takes::Number("16", 1, 257)),
    ("keys", Takes::Number("1000", 1, 1000000)),
    ("threads", Takes::Number("4", 1, 16)),
    ("calls", Takes::Number("60000", 0, 4294967295)),
    ("turns", Takes::Number("64", 1, 65535)),
    ("seed", Takes::Number("1", 1, 4294967295)),
    ("stall", Takes::Nothing),
    ("whole", Takes::Nothing),
    ("untimed", Takes::Nothing),
];

// An option that takes this.
fn option<'a>(alloc: Global, id: &'a str, takes: Takes) -> Arg<'a> {
    let option = Arg::new(alloc, id).long(id);
    match takes {
        Takes::OneOf(words) => option.value_parser(ValueParser::Names(words)),
        Takes::Number(default, low, high) => option
            .value_parser(ValueParser::Signed(low as i64, high as i64))
            .default_value(default),
        Takes::Nothing => option.action(ArgAction::SetTrue),
    }
}

// The command with its options.
fn command<'a>(alloc: Global) -> Result<Command<'a>, AllocError> {
    let mut command = Command::new(alloc, "stress").no_binary_name(true);
    for (id, takes) in OPTIONS {
        command = command.arg(option(alloc, id, takes))?;
    }
    Ok(command)
}

// The number of an option.
fn number_of(matches: &ArgMatches<'_>, id: &str, low: u32, high: u32) -> u32
    requires { low ≤ high }
    ensures { (low ≤ result) × (result ≤ high) }
{
    match matches.get_one::<u32>(id) {
        Some(number) => number.max(low).min(high),
        None => low,
    }
}

// The calls that a word names, where the container has such; without a word those that the container mostly gets.
fn mix_of(word: Option<&str>, container: Kind) -> Option<Mix> {
    let (most, other) = match container {
        Kind::Queue => (Mix::Pairs, Mix::Apart),
        Kind::Cell => (Mix::PairReads, Mix::PairWrites),
        Kind::List | Kind::Set | Kind::Split | Kind::Sorted => (Mix::Reads, Mix::Writes),
    };
    let word = word.unwrap_or(most.word());
    if word == most.word() {
        Some(most)
    } else if word == other.word() {
        Some(other)
    } else {
        None
    }
}

// Where a word says that an agent is stopped, if the container has such calls; without a word it holds the first node, or has staged
// a part of a cell.
fn stop_of(word: Option<&str>, container: Kind) -> Option<Stop> {
    let stop = match word {
        Some("tail") => Stop::Tail,
        Some("marked") => Stop::Marked,
        Some("staged") => Stop::Staged,
        Some(_) => Stop::First,
        None => container.first_stop(),
    };
    if container.stops(stop) {
        Some(stop)
    } else {
        None
    }
}

// What is driven.
fn container_of(word: Option<&str>) -> Kind {
    match word {
        Some("list") => Kind::List,
        Some("set") => Kind::Set,
        Some("split") => Kind::Split,
        Some("cell") => Kind::Cell,
        Some("sorted") => Kind::Sorted,
        _ => Kind::Queue,
    }
}

// What it stands on.
fn domain_of(word: Option<&str>) -> Domain {
    match word {
        Some("plain") => Domain::Plain,
        _ => Domain::Reclaiming,
    }
}

// How many agents call: one, of a container for one thread, where no word says otherwise.
fn threads_of(matches: &ArgMatches<'_>, container: Kind) -> u32
    ensures { (1 ≤ result) × (result ≤ 16) }
{
    if container == Kind::Sorted
        && matches.value_source("threads") == Some(ValueSource::DefaultValue)
    {
        1
    } else {
        number_of(matches, "threads", 1, 16)
    }
}

// The calls of each agent.
fn load_in(matches: &ArgMatches<'_>, mix: Mix) -> Load {
    Load {
        mix,
        calls: number_of(matches, "calls", 0, 4294967295),
        keys: number_of(matches, "keys", 1, 1000000),
        seed: number_of(matches, "seed", 1, 4294967295),
        whole: matches.get_flag("whole"),
    }
}

// The settings of these matches.
fn settings_in(matches: &ArgMatches<'_>) -> Result<Settings, Refused> {
    let container = container_of(matches.get_str("container"));
    let mix = mix_of(matches.get_str("mix"), container).ok_or(Refused::Calls)?;
    let stop = stop_of(matches.get_str("stop"), container).ok_or(Refused::Stop)?;
    let domain = domain_of(matches.get_str("domain"));
    let threads = threads_of(matches, container);
    let stalls = matches.get_flag("stall") || matches.get_str("stop").is_some();
    if container == Kind::Sorted && (threads > 1 || stalls) {
        return Err(Refused::Alone);
    }
    let working = threads + u32::from(stalls);
    if working > 16 {
        return Err(Refused::Agents);
    }
    Ok(Settings {
        container,
        domain,
        rows: number_of(matches, "rows", 2, 65535),
        roots: number_of(matches, "roots", 1, 257),
        agents: number_of(matches, "agents", 1, 16).max(working),
        turns: number_of(matches, "turns", 1, 65535),
        stop,
        times: !matches.get_flag("untimed"),
        plan: Plan {
            threads,
            stalls,
            sweeps: domain == Domain::Reclaiming && container != Kind::Sorted,
            load: load_in(matches, mix),
        },
    })
}

/// The settings that the words give.
///
/// # Errors
///
/// * `Words` where `clap` refuses the words.
/// * `Calls`, `Stop`, `Alone` where the container hasn't such calls, none that stops there, or isn't for several threads.
/// * `Agents` where there are more than 16 agents with the one that is stopped.
/// * `NoMemory` where memory is refused.
pub fn settings_of(alloc: Global, words: &[String]) -> Result<Settings, Refused> {
    let Ok(command) = command(alloc) else {
        return Err(Refused::NoMemory);
    };
    match command.try_get_matches_from(words) {
        Ok(matches) => settings_in(&matches),
        Err(error) if error.kind() == ErrorKind::OutOfMemory => Err(Refused::NoMemory),
        Err(_) => Err(Refused::Words),
    }
}
