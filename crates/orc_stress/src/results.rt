//! The figures of a run, and what is wrong with it.

use crate::load::Mix;
use crate::runs::Driven;
use crate::settings::{Domain, Kind, Settings};
use crate::tally::{Answers, Items};
use std::io;

/// What a domain at rest counted.
#[derive(Clone, Copy, Drop)]
pub struct Counts {
    /// How many rows were given, each as often as it was.
    pub given: u64,
    /// How many rows were freed, each as often as it was.
    pub reused: u64,
    /// How many rows are out.
    pub linked: u32,
}

// A figure, with its share of a whole in percent.
fn figure<R: Print>(
    rt: &R,
    settings: &Settings,
    name: &str,
    value: u128,
    whole: u128,
) -> io::Result<()> {
    let thousandths = if whole == 0 {
        0
    } else {
        value.wrapping_mul(1000) / whole
    };
    println!(rt;
        "RESULT|{} {}|{}{} {name}|{}|{value}|{}.{}",
        settings.container.word(),
        settings.plan.load.mix.word(),
        settings.memory(),
        settings.stalled(),
        settings.plan.threads,
        thousandths / 10,
        thousandths % 10
    )
}

// How many calls there were a second, and how many of them were answered.
fn print_speed<R: Print>(
    rt: &R,
    settings: &Settings,
    driven: &Driven,
    calls: u128,
) -> io::Result<()> {
    let micros = driven.tally.ended.saturating_sub(driven.tally.begun).max(1);
    let speed = calls.wrapping_mul(1_000_000) / micros;
    let answered = u128::from(driven.tally.answers.ok).wrapping_mul(1_000_000) / micros;
    figure(rt, settings, "calls a second", speed, speed)?;
    figure(rt, settings, "answers a second", answered, speed)
}

// How many calls these are.
fn calls_in(answers: &Answers) -> u128 {
    let mut calls = 0u128;
    for count in [
        answers.ok,
        answers.empty,
        answers.again,
        answers.no_node,
        answers.spent,
        answers.positions,
    ] {
        calls = calls.wrapping_add(u128::from(count));
    }
    calls
}

/// Prints a run's figures, one a line: what was driven, of what, on how many threads, the number, and its share in percent. The
/// share of calls a second is that of the calls that were answered; a take that found nothing isn't counted among those.
pub fn print_figures<R: Print>(
    rt: &R,
    settings: &Settings,
    driven: &Driven,
    counts: &Counts,
) -> io::Result<()> {
    let answers = &driven.tally.answers;
    let calls = calls_in(answers);
    if settings.times {
        print_speed(rt, settings, driven, calls)?;
    }
    let rows = u128::from(settings.rows);
    let figures = [
        ("Ok", answers.ok, calls),
        ("found nothing", answers.empty, calls),
        ("Again", answers.again, calls),
        ("NoNode", answers.no_node, calls),
        ("Spent", answers.spent, calls),
        ("Positions", answers.positions, calls),
        ("largest backlog", u64::from(driven.tally.backlog), rows),
        ("bound of the backlog", u64::from(settings.bound()), rows),
        ("nodes out", u64::from(counts.linked), rows),
    ];
    for (name, count, whole) in figures {
        figure(rt, settings, name, u128::from(count), whole)?;
    }
    Ok(())
}

// What is wrong, in a line; answers whether nothing is.
fn complain<R: Print>(rt: &R, right: bool, what: &str) -> io::Result<bool> {
    if !right {
        println!(rt; "WRONG|{what}")?;
    }
    Ok(right)
}

// Whether the rows that are out are those that what is left takes, where rows come back. There may be more: of a set that couldn't
// be swept marked nodes, and of one that doubles its buckets a dummy of each but the first, and the node of their number.
fn rows_fit(settings: &Settings, driven: &Driven, counts: &Counts) -> bool {
    let most = match settings.container {
        Kind::Queue | Kind::Cell => driven.rest.rows,
        _ if !driven.rest.swept => u32::MAX,
        Kind::Split => driven.rest.rows.saturating_add(settings.roots),
        Kind::List | Kind::Set | Kind::Sorted => driven.rest.rows,
    };
    match settings.domain {
        Domain::Plain => true,
        Domain::Reclaiming => driven.rest.rows <= counts.linked && counts.linked <= most,
    }
}

// What has to hold of a run, each with what is said where it doesn't.
fn demands(settings: &Settings, driven: &Driven, counts: &Counts) -> [(bool, &'static str); 11] {
    let tally = &driven.tally;
    let mut out = tally.taken;
    out.join(&driven.rest.items);
    let mix = settings.plan.load.mix;
    [
        (
            out == tally.put,
            "what came out or is left isn't what went in",
        ),
        (
            mix.has_keys() || tally.places == Items::below(tally.put.count),
            "the positions of jobs aren't 0, 1, 2 and so on, each once",
        ),
        (
            mix.has_pairs() || tally.in_order && driven.rest.in_order,
            "jobs came out of order",
        ),
        (
            !mix.has_pairs() || driven.rest.in_order,
            "the parts of a cell, up to those that are left, can't have stood there one after another",
        ),
        (
            driven.rest.are_pairs,
            "a pair that was read was never published",
        ),
        (
            mix != Mix::Pairs || tally.answers.empty <= tally.unput,
            "a take found nothing, though each agent had put before it took",
        ),
        (
            tally.is_true,
            "an answer about a key that one agent alone changes is not what its calls had left",
        ),
        (
            driven.rest.agree,
            "a key that was not found was there for an insert, once all were done",
        ),
        (
            tally.backlog <= settings.bound(),
            "more retired rows than nine an agent waited",
        ),
        (
            counts.given == counts.reused.wrapping_add(u64::from(counts.linked)),
            "rows that were given aren't those that were freed or are out",
        ),
        (
            rows_fit(settings, driven, counts),
            "the rows that are out aren't those that what is left takes",
        ),
    ]
}

/// Prints what is wrong with a run, and answers whether nothing is.
pub fn judge<R: Print>(
    rt: &R,
    settings: &Settings,
    driven: &Driven,
    counts: &Counts,
) -> io::Result<bool> {
    let mut right = true;
    for (holds, what) in demands(settings, driven, counts) {
        right = complain(rt, holds, what)? && right;
    }
    Ok(right)
}

/// Prints a line where a thread couldn't be made, so that agents didn't call at once, and answers whether all were.
pub fn tell_missing<R: Print>(rt: &R, driven: &Driven) -> io::Result<bool> {
    if !driven.tally.all_came {
        println!(rt; "MISSING|a thread couldn't be made, so agents called one after another")?;
    }
    Ok(driven.tally.all_came)
}
