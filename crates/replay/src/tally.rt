// All questions of a file asked, and how many answers are as expected.
use crate::ask::ask;
use crate::fault::Fault;
use crate::lines::{Expected, Line, asks, read_line};
use std::alloc::{AllocError, Global};
use std::collections::BTreeMap;

#[derive(Drop)]
pub(crate) struct Tally<'a> {
    pub(crate) questions: u32,
    // the answer is that of the file's source
    pub(crate) agree: u32,
    // the answer is another one, by a difference that is listed
    pub(crate) listed: u32,
    // not asked, since the rules here know no such question
    pub(crate) unknown: u32,
    // the answer is not the one expected
    pub(crate) wrong: u32,
    // how many lines each difference stands in
    pub(crate) differences: BTreeMap<&'a str, u32>,
}

// What became of a line.
#[derive(Clone, Copy, PartialEq, Eq, Debug)]
enum Outcome<'a> {
    Agrees,
    Listed(&'a str),
    Unknown(&'a str),
    Wrong,
}

fn raise(count: &mut u32) {
    *count = count.saturating_add(1);
}

impl<'a> Tally<'a> {
    fn new(heap: Global) -> Tally<'a> {
        Tally {
            questions: 0,
            agree: 0,
            listed: 0,
            unknown: 0,
            wrong: 0,
            differences: BTreeMap::new(heap),
        }
    }

    fn name(&mut self, difference: &'a str) -> Result<(), AllocError> {
        raise(self.differences.entry(difference)?.or_insert(0));
        Ok(())
    }

    fn note(&mut self, outcome: Outcome<'a>) -> Result<(), AllocError> {
        raise(&mut self.questions);
        match outcome {
            Outcome::Agrees => raise(&mut self.agree),
            Outcome::Wrong => raise(&mut self.wrong),
            Outcome::Listed(name) => {
                raise(&mut self.listed);
                self.name(name)?;
            }
            Outcome::Unknown(name) => {
                raise(&mut self.unknown);
                self.name(name)?;
            }
        }
        Ok(())
    }
}

// An answer that is not the one expected is printed.
fn check<'a>(rt: &HostRuntime, line: Line<'a>) -> Result<Outcome<'a>, Fault> {
    let Line {
        number,
        question,
        expected,
    } = line;
    let (expected, right) = match expected {
        Expected::Same(answer) => (answer, Outcome::Agrees),
        Expected::Listed { name, answer } => (answer, Outcome::Listed(name)),
        Expected::Nothing { name } => return Ok(Outcome::Unknown(name)),
    };
    let got = ask(rt.alloc(), question)?;
    if got.as_str() == expected {
        return Ok(right);
    }
    println!(rt; "line {number}: {question}: expected {expected}, got {got}")?;
    Ok(Outcome::Wrong)
}

// A line of another form ends the count, since its file is not the one expected.
pub(crate) fn replay<'a, F: Fn(&'a str, &'a str) -> Result<Expected<'a>, Fault>>(
    rt: &HostRuntime,
    text: &'a str,
    expect: F,
) -> Result<Tally<'a>, Fault>
    requires { F.IsAlwaysCallable expect }
{
    let mut tally = Tally::new(rt.alloc());
    for (i, text) in text.lines().enumerate().filter(|(_, text)| asks(text)) {
        let number = i + 1;
        let outcome = read_line(number, text, &expect).and_then(|line| check(rt, line));
        if let Err(Fault::Form) = outcome {
            println!(rt; "line {number}: it has another form")?;
        }
        tally.note(outcome?)?;
    }
    Ok(tally)
}
