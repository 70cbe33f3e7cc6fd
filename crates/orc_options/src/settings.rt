//! What the words say.

ghost use Rattle.std.specs.Prelude.{◌≡◌, ◌≢◌, ◌≤◌, IfErr, IfOk, List, ℕ, option_map};
ghost use Rattle.clap.specs.Words.{found_of, one_text, rows_of};
ghost use Rattle.orc_options.specs.{
  declared.settings.Settings.{Settings},
  Ranges.{range_of},
  Settings.{AreInRange, GivesSettings, RefusesWords, mode_in, number_in, set_in, yes_in, settings_in as read_settings},
};

use crate::CommandWords;
use crate::command::command;
use crate::ranges::{BUCKETS, LINES, NumberRange, POSTERS, ROWS, SEED, STAGES, TAKERS};
use clap::ArgMatches;
use clap::error::ErrorKind;
use std::alloc::Global;

/// What the program is to do.
#[derive(Clone, Copy, PartialEq, Eq, Drop)]
pub enum Mode {
    /// Run a job file, and write the report.
    Run,
    /// Write a job file that is generated.
    Make,
    /// Run generated lines, and write the summary.
    Trial,
    /// Play a trace of the machine, and write what it leaves.
    Replay,
    /// Play a trace of the machine, and write the worst backlog, the lives of its rows and the first leak.
    Audit,
    /// Run a watch file over a cell of two parts, and write what came of each line.
    Watch,
    /// Send the jobs of a job file through a pipeline of queues, and write what came of each at each stage.
    Stages,
}

/// Which set a run has.
#[derive(Clone, Copy, PartialEq, Eq, Drop)]
pub enum SetKind {
    /// A sorted list a bucket, as many as are asked for.
    List,
    /// A split-ordered set, which doubles its buckets.
    Split,
}

/// What the options say. The table of ranges has the numbers that each takes, and what stands where it isn't given.
#[derive(Clone, Copy, PartialEq, Eq, Drop)]
pub struct Settings {
    /// `--mode`; run, where it isn't given.
    pub mode: Mode,
    /// `--posters`: how many posters, or workers of a watch.
    pub posters: u32,
    /// `--takers`: how many takers.
    pub takers: u32,
    /// `--stages`: how many stages a pipeline has.
    pub stages: u32,
    /// `--rows`: how many rows each container has.
    pub rows: u32,
    /// `--set`: which set a run has; lists, where it isn't given.
    pub set: SetKind,
    /// `--buckets`: how many buckets a set of lists has.
    pub buckets: u32,
    /// `--rest`: whether the report ends with what is at rest; no, where it isn't given.
    pub rest: bool,
    /// `--seed`: what the lines are generated from.
    pub seed: u32,
    /// `--lines`: how many lines are generated.
    pub lines: u32,
}

/// Why words give no settings.
#[derive(Clone, Copy, PartialEq, Eq, Drop)]
pub enum Refused {
    /// `clap` refuses the words, or answers help or a version.
    Words,
    /// Memory was refused.
    NoMemory,
}

// The number of an option.
fn number_of(matches: &ArgMatches<'_>, id: &str, range: NumberRange) -> u32
    ensures says { result ≡ number_in (range_of range) (one_text (found_of matches.now) id.now) }
    ensures in_range { range.low ≤ range.high → (range.low ≤ result) × (result ≤ range.high) }
{
    match matches.get_one::<u32>(id) {
        Some(number) => {
            if range.low <= number && number <= range.high {
                number
            } else {
                range.low
            }
        }
        None => range.low,
    }
}

// The mode that a word names.
fn mode_of(word: Option<&str>) -> Mode
    ensures { result ≡ mode_in (option_map (λ s. s.now) word.entry) }
{
    match word {
        Some("make") => Mode::Make,
        Some("trial") => Mode::Trial,
        Some("replay") => Mode::Replay,
        Some("audit") => Mode::Audit,
        Some("watch") => Mode::Watch,
        Some("stages") => Mode::Stages,
        _ => Mode::Run,
    }
}

// The set that a word names.
fn set_of(word: Option<&str>) -> SetKind
    ensures { result ≡ set_in (option_map (λ s. s.now) word.entry) }
{
    match word {
        Some("split") => SetKind::Split,
        _ => SetKind::List,
    }
}

// Whether the word is yes.
fn says_yes(word: Option<&str>) -> bool
    ensures { result ≡ yes_in (option_map (λ s. s.now) word.entry) }
{
    match word {
        Some("yes") => true,
        _ => false,
    }
}

// What an error of clap means here.
fn refused_by(kind: ErrorKind) -> Refused
    ensures words { result ≡ Refused.Words → kind ≢ ErrorKind.OutOfMemory }
    ensures memory { result ≡ Refused.NoMemory → kind ≡ ErrorKind.OutOfMemory }
{
    match kind {
        ErrorKind::OutOfMemory => Refused::NoMemory,
        _ => Refused::Words,
    }
}

/// The settings that the words give. An option stands at most once, as `--rows 8` or `--rows=8`; numbers are those that
/// `clap` reads, so `+8` and `008` are 8.
///
/// # Errors
///
/// * `Words` where `clap` refuses the words for another cause than memory; help and a version count as refused.
/// * `NoMemory` where memory is refused.
pub fn settings_of(alloc: Global, words: &CommandWords) -> Result<Settings, Refused>
    ensures gives { IfOk result (GivesSettings words.now) }
    ensures ranges { IfOk result AreInRange }
    ensures refuses { IfErr result (λ why. why ≡ Refused.Words → RefusesWords words.now) }
{
    let Ok(command) = command(alloc) else {
        return Err(Refused::NoMemory);
    };
    match command.try_get_matches_from(words.words()) {
        Ok(matches) => Ok(settings_in(&matches)),
        Err(error) => Err(refused_by(error.kind())),
    }
}

// The settings of these matches.
fn settings_in(matches: &ArgMatches<'_>) -> Settings
    ensures says { result ≡ read_settings (rows_of (found_of matches.now)) }
    ensures ranges { AreInRange result }
{
    Settings {
        mode: mode_of(matches.get_str("mode")),
        posters: number_of(matches, "posters", POSTERS),
        takers: number_of(matches, "takers", TAKERS),
        stages: number_of(matches, "stages", STAGES),
        rows: number_of(matches, "rows", ROWS),
        set: set_of(matches.get_str("set")),
        buckets: number_of(matches, "buckets", BUCKETS),
        rest: says_yes(matches.get_str("rest")),
        seed: number_of(matches, "seed", SEED),
        lines: number_of(matches, "lines", LINES),
    }
}

/// A law, with nothing to run: words give one answer. They don't both give settings and have them refused, and give the same
/// settings each time.
pub fn words_have_one_answer()
    ensures never_both { (words : List (List ℕ)) (s : Settings) → GivesSettings words s → RefusesWords words → ⊥ }
    ensures same { (words : List (List ℕ)) (s t : Settings) → GivesSettings words s → GivesSettings words t → s ≡ t }
{}
