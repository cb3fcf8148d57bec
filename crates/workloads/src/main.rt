//! The jobs that a user of recovery waits for, on inputs that this program makes: what `bench/run` times.
//! Each prints a digest of all its results.
//!
//! usage: workloads JOB SIZE SEED, or workloads all SEED, which runs each job on a small input
#![tactic(auto)]

mod chance;
mod digest;
mod jobs;
mod other;
mod shapes;
mod values;
mod writer;

use anyhow::{Context, Result};
use digest::Digest;
use jobs::Input;
use std::rt::Env;
use std::thread::Threads;
use words::{slices_of, words_of};

/// Runs a job, and prints its digest.
fn run_job<R: Print + AllocGlobal + Threads + Sync>(rt: &R, job: &str, input: Input) -> Result<()> {
    let mut digest = Digest::new();
    match job {
        "recover" => jobs::of_recovery(rt, rt.alloc(), input, &mut digest)?,
        "rollback" => jobs::of_rollback(rt, rt.alloc(), input, &mut digest)?,
        "audit" => jobs::of_audit(rt.alloc(), input, &mut digest)?,
        "write" => jobs::of_writing(rt.alloc(), input, &mut digest)?,
        "dump" => jobs::of_listing(rt.alloc(), input, &mut digest)?,
        "inputs" => jobs::of_inputs(rt.alloc(), input, &mut digest)?,
        "small" => jobs::of_small_ones(rt, rt.alloc(), input, &mut digest)?,
        "mixed" => jobs::mixed::of_mixed(rt, rt.alloc(), input, &mut digest)?,
        _ => return Err(anyhow::Error::msg("no such job")),
    }
    let value = digest.value();
    println!(rt; "{job} {}: {value:016x}", input.size)?;
    Ok(())
}

/// How many bytes the logs of a small `mixed` have.
const MIXED: usize = 100_000;

/// Runs each job on a small input.
fn run_all<R: Print + AllocGlobal + Threads + Sync>(rt: &R, seed: u64) -> Result<()> {
    run_job(
        rt,
        "inputs",
        Input {
            size: 200_000,
            seed,
        },
    )?;
    run_job(
        rt,
        "recover",
        Input {
            size: 200_000,
            seed,
        },
    )?;
    run_job(rt, "rollback", Input { size: 2_000, seed })?;
    run_job(
        rt,
        "audit",
        Input {
            size: 200_000,
            seed,
        },
    )?;
    run_job(rt, "write", Input { size: 8_192, seed })?;
    run_job(
        rt,
        "dump",
        Input {
            size: 100_000,
            seed,
        },
    )?;
    run_job(rt, "mixed", Input { size: MIXED, seed })?;
    run_job(rt, "small", Input { size: 4, seed })
}

/// Runs what the words ask for.
fn run<R: Print + Env + AllocGlobal + Threads + Sync>(rt: &R) -> Result<()> {
    let words = words_of(rt).map_err(|_| anyhow::Error::msg("no words"))?;
    let slices = slices_of(rt.alloc(), &words).map_err(|_| anyhow::Error::msg("no words"))?;
    let job = slices.get(1).context("no job is named")?;
    if *job == "all" {
        return run_all(
            rt,
            slices.get(2).context("no seed is named")?.parse::<u64>()?,
        );
    }
    let size = slices.get(2).context("no size is named")?.parse::<usize>()?;
    let seed = slices.get(3).context("no seed is named")?.parse::<u64>()?;
    run_job(rt, job, Input { size, seed })
}

fn main(rt: HostRuntime) -> Result<()> {
    run(&rt)
}
