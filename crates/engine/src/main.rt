//! An engine over the journal, as a program that `tests/engine.py` kills.
//!
//! usage: engine make LOG STORE PAGES, which makes both files; engine work LOG STORE SEED STEPS, which works on them; or
//! engine cells STORE, which prints the value of each cell that has one
#![tactic(auto)]

mod change;
mod engine;
mod files;

use anyhow::{Context, Result};
use std::rt::{Env, Files};
use words::{slices_of, words_of};

const USAGE: &str = "usage: engine make LOG STORE PAGES | work LOG STORE SEED STEPS | cells STORE";

/// The word in this place.
fn word<'a>(slices: &[&'a str], place: usize) -> Result<&'a str> {
    match slices.get(place) {
        Some(word) => Ok(*word),
        None => Err(anyhow::Error::msg("a word is missing")),
    }
}

/// The number in this place of the words.
fn number(slices: &[&str], place: usize) -> Result<u32> {
    word(slices, place)?
        .parse::<u32>()
        .context("a number is expected")
}

/// Does what the words say.
fn run<R: Print + Env + Files + AllocGlobal>(rt: &R) -> Result<()> {
    let words = words_of(rt).map_err(|_| anyhow::Error::msg("no words"))?;
    let slices = slices_of(rt.alloc(), &words).map_err(|_| anyhow::Error::msg("no words"))?;
    if slices.len() < 2 {
        println!(rt; "{USAGE}")?;
        return Ok(());
    }
    let first = word(&slices, 2)?;
    match word(&slices, 1)? {
        "make" => files::make(rt, first, word(&slices, 3)?, number(&slices, 4)?),
        "work" => engine::work(
            rt,
            first,
            word(&slices, 3)?,
            number(&slices, 4)?,
            number(&slices, 5)?,
        ),
        "cells" => engine::print_cells(rt, first),
        _ => Err(anyhow::Error::msg(USAGE)),
    }
}

/// Runs the engine as the words of the command line say.
fn main(rt: HostRuntime) -> Result<()> {
    run(&rt)
}
