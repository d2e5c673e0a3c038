// Asks the library what other programs were asked about codes and schemes, and counts how many answers agree.
#![tactic(auto)]

mod answer;
mod ask;
mod fault;
mod hex;
mod lines;
mod matrices;
mod question;
mod stripes;
mod tally;

use fault::Fault;
use lines::{expect_crate, expect_isal};
use std::fs;
use std::process::ExitCode;
use tally::{Tally, replay};

const PARITY: &str = "parity-isal.txt";

const ANSWERS: &str = "crate-answers.txt";

// Parity that libisal made: whether the library makes the same.
// Stays: (d) it prints other counts than `replay_answers`; they share the two calls at their head alone, and the last line.
fn replay_parity(rt: &HostRuntime) -> Result<bool, Fault> {
    let text = fs::read_to_string(rt, PARITY)?;
    let tally = replay(rt, text.as_str(), expect_isal)?;
    let Tally {
        questions,
        agree,
        ..
    } = tally;
    println!(rt; "{PARITY}: {questions} questions, {agree} agree")?;
    Ok(tally.wrong == 0)
}

// What the crate answers, and where the rules here differ: whether the library answers by the rules.
fn replay_answers(rt: &HostRuntime) -> Result<bool, Fault> {
    let text = fs::read_to_string(rt, ANSWERS)?;
    let tally = replay(rt, text.as_str(), expect_crate)?;
    let Tally {
        questions,
        agree,
        listed,
        unknown,
        ..
    } = tally;
    println!(rt;
        "{ANSWERS}: {questions} questions: {agree} agree with the crate, {listed} differ from it as listed, {unknown} have no counterpart here"
    )?;
    for (name, count) in tally.differences.iter() {
        println!(rt; "  {name} {count}")?;
    }
    Ok(tally.wrong == 0)
}

fn run(rt: &HostRuntime) -> Result<(), Fault> {
    let parity_agrees = replay_parity(rt)?;
    let answers_agree = replay_answers(rt)?;
    if parity_agrees && answers_agree {
        Ok(())
    } else {
        Err(Fault::Wrong)
    }
}

fn main(rt: HostRuntime) -> ExitCode {
    let Err(fault) = run(&rt) else {
        return ExitCode::SUCCESS;
    };
    // the status tells it all the same where this can't be written
    let _ = eprintln!(rt; "replay: {fault}");
    ExitCode::FAILURE
}
