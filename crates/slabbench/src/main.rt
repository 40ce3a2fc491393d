//! Runs parts of the product on stored work, so that a script can time them from outside, and prints how they ended. It
//! prints no time of its own. The words of several works are parted by the word `then`.
//!
//! `works` parts them, `mills` reads a mill, and `ends` counts how calls ended. `masters` solves restricted masters,
//! `calls` rebuilds decisions and prices columns, and both read a file's numbers by `told`. `leaves` tests the leaves of a
//! certificate, `checks` checks it whole, `questions` asks those of a mill, and `turns` takes the turn of a root.
#![tactic(auto)]

mod calls;
mod checks;
mod ends;
mod leaves;
mod masters;
mod mills;
mod questions;
mod told;
mod turns;
mod works;

use crate::calls::make_calls;
use crate::checks::check_often;
use crate::ends::Ends;
use crate::leaves::test_leaves;
use crate::masters::solve_masters;
use crate::mills::read_mill;
use crate::questions::ask_all;
use crate::told::read_numbers;
use crate::turns::{limits_of, turn_root};
use crate::works::{first_work, limit_of, times_of};
use mill_model::Mill;
use std::env::{self, Env};
use std::process::ExitCode;
use std::rt::Files;
use std::{fs, io};

// A call that is made on a mill.
#[derive(Clone, Copy)]
enum Part {
    Price,
    Decide,
    Leaf,
    Check,
}

fn main(rt: HostRuntime) -> ExitCode {
    match run(&rt) {
        Ok(true) => ExitCode::SUCCESS,
        Ok(false) => ExitCode::from(1),
        Err(_) => ExitCode::from(5),
    }
}

// Does the works that the words name, one after another; false at the first that they don't name.
fn run<R: Env + Files + AllocGlobal + Print>(rt: &R) -> io::Result<bool> {
    let mut words = Vec::new(rt.alloc());
    for word in env::args(rt)?.skip(1) {
        words.push(word)?;
    }
    let mut left = words.as_slice();
    for _ in 0..words.len() {
        let (work, later) = first_work(left);
        if !run_work(rt, work)? {
            break;
        }
        let Some(later) = later else {
            return Ok(true);
        };
        left = later;
    }
    println!(rt; "usage: slabbench WORK [then WORK]..")?;
    println!(rt; "  masters FILE TIMES")?;
    println!(rt; "  price|decide|leaf|check FILE ORDERS YARD|- COLOURS TIMES")?;
    println!(rt; "  questions ORDERS YARD|- COLOURS NODES")?;
    println!(rt; "  turns ORDERS YARD|- COLOURS LOSS|- COUNT|- TIMES")?;
    Ok(false)
}

// Does the work that the words name, and prints what came of it; false where they name none.
fn run_work<R: Files + AllocGlobal + Print>(rt: &R, words: &[String]) -> io::Result<bool> {
    let [name, words @ ..] = words else {
        return Ok(false);
    };
    match name.as_str() {
        "masters" => run_masters(rt, words),
        "price" => run_part(rt, Part::Price, words),
        "decide" => run_part(rt, Part::Decide, words),
        "leaf" => run_part(rt, Part::Leaf, words),
        "check" => run_part(rt, Part::Check, words),
        "questions" => run_questions(rt, words),
        "turns" => run_turns(rt, words),
        _ => Ok(false),
    }
}

fn run_masters<R: Files + AllocGlobal + Print>(rt: &R, words: &[String]) -> io::Result<bool> {
    let [file, times] = words else {
        return Ok(false);
    };
    let numbers = read_numbers(rt.alloc(), &fs::read(rt, file.as_str())?)?;
    let done = solve_masters(rt.alloc(), &numbers, times_of(times.as_str()))?;
    println!(rt;
        "pivots {} spreads {} prices {} wides {} stalls {}",
        done.stalls.pivots(),
        done.spreads,
        done.prices,
        done.wides.count(),
        done.stalls.count()
    )?;
    Ok(true)
}

fn run_part<R: Files + AllocGlobal + Print>(
    rt: &R,
    part: Part,
    words: &[String],
) -> io::Result<bool> {
    let [file, orders, yard, colours, times] = words else {
        return Ok(false);
    };
    let Some(mill) = read_mill(rt, orders.as_str(), yard.as_str(), colours.as_str())? else {
        return Ok(false);
    };
    let text = fs::read(rt, file.as_str())?;
    let ends = ends_of(rt, part, &mill, &text, times_of(times.as_str()))?;
    println!(rt; "same {} other {}", ends.same, ends.other)?;
    Ok(true)
}

// How the calls that a text tells ended on a mill.
fn ends_of<R: AllocGlobal>(
    rt: &R,
    part: Part,
    mill: &Mill,
    text: &[u8],
    times: u16,
) -> io::Result<Ends> {
    let alloc = rt.alloc();
    let ends = match part {
        Part::Leaf => test_leaves(alloc, mill, text, times)?,
        Part::Check => check_often(alloc, mill, text, times)?,
        Part::Price => make_calls(alloc, mill, &read_numbers(alloc, text)?, true, times)?,
        Part::Decide => make_calls(alloc, mill, &read_numbers(alloc, text)?, false, times)?,
    };
    Ok(ends)
}

fn run_questions<R: Files + AllocGlobal + Print>(rt: &R, words: &[String]) -> io::Result<bool> {
    let [orders, yard, colours, nodes] = words else {
        return Ok(false);
    };
    let Some(mill) = read_mill(rt, orders.as_str(), yard.as_str(), colours.as_str())? else {
        return Ok(false);
    };
    let limit: u64 = nodes.as_str().parse().ok().unwrap_or(1);
    ask_all(rt, &mill, limit.max(1))?;
    Ok(true)
}

fn run_turns<R: Files + AllocGlobal + Print>(rt: &R, words: &[String]) -> io::Result<bool> {
    let [orders, yard, colours, loss, count, times] = words else {
        return Ok(false);
    };
    let Some(mill) = read_mill(rt, orders.as_str(), yard.as_str(), colours.as_str())? else {
        return Ok(false);
    };
    let limits = limits_of(limit_of(loss.as_str()), limit_of(count.as_str()));
    let done = turn_root(rt.alloc(), &mill, limits, times_of(times.as_str()))?;
    println!(rt;
        "{} rounds {} pivots {} wides {} stalls {}",
        done.answer.word(),
        done.rounds,
        done.tally.stalls.pivots(),
        done.tally.wides.count(),
        done.tally.stalls.count()
    )?;
    Ok(true)
}
