// Judges the cases of its standard input, `answer | label | words` on each line, and says which come out wrong.
#![tactic(auto)]

use anyhow::anyhow;
use std::io::{BufRead, BufReader};
use talks::{Judged, judge};

// The words of a line.
fn words_of(heap: std::alloc::Global, text: &str) -> anyhow::Result<Vec<u32>> {
    let mut words = Vec::new(heap);
    for word in text.split_whitespace() {
        words.push(word.parse::<u32>()?)?;
    }
    Ok(words)
}

// Prints the answer of a case, and says whether it is the expected one.
fn compare(rt: &HostRuntime, label: &str, answer: Judged, expected: &str) -> anyhow::Result<bool> {
    match answer {
        Judged::Keeps => {
            println!(rt; "{label}: keeps")?;
            Ok(expected == "keeps")
        }
        Judged::Careless => {
            println!(rt; "{label}: careless")?;
            Ok(expected == "careless")
        }
        Judged::NoProgram => {
            println!(rt; "{label}: no program")?;
            Ok(expected == "no program")
        }
    }
}

// Judges one case; true if it gets the answer that it should.
fn try_case(rt: &HostRuntime, line: &str) -> anyhow::Result<bool> {
    let Some((expected, rest)) = line.split_once('|') else {
        return Err(anyhow!("a case is `answer | label | words`"));
    };
    let Some((label, text)) = rest.split_once('|') else {
        return Err(anyhow!("a case is `answer | label | words`"));
    };
    let words = words_of(rt.alloc(), text)?;
    compare(rt, label.trim(), judge(words.as_slice()), expected.trim())
}

fn run(rt: &HostRuntime) -> anyhow::Result<()> {
    let mut cases: u32 = 0;
    let mut wrong: u32 = 0;
    for line in BufReader::new(rt.alloc(), rt.stdin())?.lines(rt.alloc()) {
        let line = line?;
        cases = cases.saturating_add(1);
        if !try_case(rt, line.as_str())? {
            wrong = wrong.saturating_add(1);
            println!(rt; "WRONG: another answer was expected")?;
        }
    }
    println!(rt; "{cases} cases, {wrong} wrong")?;
    Ok(())
}

fn main(rt: HostRuntime) -> anyhow::Result<()> {
    run(&rt)
}
