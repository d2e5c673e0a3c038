// The lines of the two data files: a question, and what is expected of the library.
use crate::fault::Fault;

#[derive(Clone, Copy, PartialEq, Eq, Debug)]
pub(crate) enum Expected<'a> {
    // the answer that was given there
    Same(&'a str),
    // another answer, by a difference that has a name
    Listed { name: &'a str, answer: &'a str },
    // none: the rules here do not know such a question
    Nothing { name: &'a str },
}

#[derive(Clone, Copy, PartialEq, Eq, Debug)]
pub(crate) struct Line<'a> {
    pub(crate) number: usize,
    pub(crate) question: &'a str,
    pub(crate) expected: Expected<'a>,
}

// The words of an answer, or the text of a refusal.
fn plain(answer: &str) -> &str {
    answer.strip_prefix("ok ").unwrap_or(answer)
}

// The crate's answer in the words used here.
fn crate_answer<'a>(question: &str, answer: &'a str) -> &'a str {
    match answer {
        "error erasure" => "refuse 7",
        "error codec" if question.starts_with("decode rs-legacy ") => "refuse 8",
        "error codec" => "refuse 1",
        _ => plain(answer),
    }
}

// What a rule says in place of the crate's answer: RULE (difference NAME).
fn read_rule(rule: &str) -> Result<Expected<'_>, Fault> {
    let (answer, rest) = rule.split_once(" (difference ").ok_or(Fault::Form)?;
    let name = rest.strip_suffix(')').ok_or(Fault::Form)?;
    match answer {
        "none" => Ok(Expected::Nothing { name }),
        _ => Ok(Expected::Listed {
            name,
            answer: plain(answer),
        }),
    }
}

// libisal's answer stands in the words used here.
pub(crate) fn expect_isal<'a>(_question: &'a str, text: &'a str) -> Result<Expected<'a>, Fault> {
    Ok(Expected::Same(text))
}

// The crate's answer, or a rule in its place.
pub(crate) fn expect_crate<'a>(question: &'a str, text: &'a str) -> Result<Expected<'a>, Fault> {
    match text.split_once(" ## ") {
        None => Ok(Expected::Same(crate_answer(question, text))),
        Some((_, rule)) => read_rule(rule),
    }
}

// An empty line asks nothing, nor does a comment.
pub(crate) fn asks(line: &str) -> bool {
    !line.is_empty() && !line.starts_with('#')
}

// A line of QUESTION => TEXT; `expect` reads from these what the file expects of the library.
pub(crate) fn read_line<'a, F: Fn(&'a str, &'a str) -> Result<Expected<'a>, Fault>>(
    number: usize,
    line: &'a str,
    expect: F,
) -> Result<Line<'a>, Fault>
    requires { F.IsAlwaysCallable expect }
{
    let (question, text) = line.split_once(" => ").ok_or(Fault::Form)?;
    Ok(Line {
        number,
        question,
        expected: expect(question, text)?,
    })
}
