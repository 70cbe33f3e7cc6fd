//! The one command, with its options.

ghost use Rattle.std.specs.Prelude.{◌≡◌, ◌∷◌, [], codes, map, false, IfOk};
ghost use Rattle.clap.specs.Words.{app_of, rule_of, with_rule};
ghost use Rattle.orc_options.specs.{Options.{IsCommand, choice_rule, number_rule}, Ranges.{buckets, lines, posters, range_of, rows, seed, stages, takers}};

use crate::ranges::{BUCKETS, LINES, NumberRange, POSTERS, ROWS, SEED, STAGES, TAKERS};
use clap::builder::ValueParser;
use clap::{Arg, Command};
use std::alloc::{AllocError, Global};

static MODES: [&str; 7] = ["run", "make", "trial", "replay", "audit", "watch", "stages"];

// The words of the modes.
fn mode_words<'a>() -> &'a [&'a str]
    ensures { map (λ n. n.now) result.now ≡ codes "run" ∷ codes "make" ∷ codes "trial" ∷ codes "replay" ∷ codes "audit" ∷ codes "watch" ∷ codes "stages" ∷ [] }
{
    MODES.as_slice()
}

static SETS: [&str; 2] = ["list", "split"];

// The words of the sets.
fn set_words<'a>() -> &'a [&'a str]
    ensures { map (λ n. n.now) result.now ≡ codes "list" ∷ codes "split" ∷ [] }
{
    SETS.as_slice()
}

static ANSWERS: [&str; 2] = ["yes", "no"];

// The words for yes and no.
fn answer_words<'a>() -> &'a [&'a str]
    ensures { map (λ n. n.now) result.now ≡ codes "yes" ∷ codes "no" ∷ [] }
{
    ANSWERS.as_slice()
}

// An option with a number in a range.
fn number_option<'a>(alloc: Global, id: &'a str, range: NumberRange) -> Arg<'a>
    ensures rule { rule_of result ≡ number_rule id.entry.now (range_of range) }
    ensures local { result.global ≡ false }
{
    Arg::new(alloc, id)
        .long(id)
        .value_parser(ValueParser::Signed(range.low as i64, range.high as i64))
        .default_value(range.default)
}

// An option with one of several words.
fn choice_option<'a>(alloc: Global, id: &'a str, default: &'a str, names: &'a [&'a str]) -> Arg<'a>
    ensures rule { rule_of result ≡ choice_rule id.entry.now default.entry.now names.entry }
    ensures local { result.global ≡ false }
{
    Arg::new(alloc, id)
        .long(id)
        .value_parser(ValueParser::Names(names))
        .default_value(default)
}

// The command with its options.
pub(crate) fn command<'a>(alloc: Global) -> Result<Command<'a>, AllocError>
    ensures { IfOk result (λ c. IsCommand (app_of c)) }
{
    let command = Command::new(alloc, "mooringakee").no_binary_name(true);
    let command = command.arg(choice_option(alloc, "mode", "run", mode_words()))?;
    let command = command.arg(choice_option(alloc, "rest", "no", answer_words()))?;
    let command = command.arg(choice_option(alloc, "set", "list", set_words()))?;
    let command = with_team_options(alloc, command)?;
    with_work_options(alloc, command)
}

// The command with the options that say how many take part.
fn with_team_options<'a>(alloc: Global, command: Command<'a>) -> Result<Command<'a>, AllocError>
    ensures { IfOk result (λ c. app_of c ≡ with_rule (with_rule (with_rule (app_of command.entry)
        (number_rule (codes "posters") posters))
        (number_rule (codes "takers") takers))
        (number_rule (codes "stages") stages)) }
{
    let command = command.arg(number_option(alloc, "posters", POSTERS))?;
    let command = command.arg(number_option(alloc, "takers", TAKERS))?;
    command.arg(number_option(alloc, "stages", STAGES))
}

// The command with the options that say what is worked on.
fn with_work_options<'a>(alloc: Global, command: Command<'a>) -> Result<Command<'a>, AllocError>
    ensures { IfOk result (λ c. app_of c ≡ with_rule (with_rule (with_rule (with_rule (app_of command.entry)
        (number_rule (codes "rows") rows))
        (number_rule (codes "buckets") buckets))
        (number_rule (codes "seed") seed))
        (number_rule (codes "lines") lines)) }
{
    let command = command.arg(number_option(alloc, "rows", ROWS))?;
    let command = command.arg(number_option(alloc, "buckets", BUCKETS))?;
    let command = command.arg(number_option(alloc, "seed", SEED))?;
    command.arg(number_option(alloc, "lines", LINES))
}
