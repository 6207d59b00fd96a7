// Runs programs as the command line asks.
use crate::answers::{agree, ended, put_answer};
use crate::options::{Mode, Options};
use sources::{Answers, Failed, Mark, Named, Span};
use std::alloc::{AllocError, Global};
use talks::{Ran, go, go_seeded};
use told::{Left, Search, look};
use trace::{Wanted, trace_run};

// What a run of 200 processes works in.
const WORK_WORDS: usize = 29696;

const MOST_PROCESSES: usize = 200;

#[derive(Drop)]
pub struct Runner<'a> {
    pub options: Options<'a>,
    // The numbers shown in a run, and in another.
    pub shown: Vec<u32>,
    pub others: Vec<u32>,
    pub work: Vec<u32>,
    // Who is left in a run that jams.
    pub left: Vec<Left>,
}

// Runs a program in the order of a seed, or in the fixed order.
fn run_in(
    options: &Options<'_>,
    seed: Option<u64>,
    rows: &[u32],
    shown: &mut Vec<u32>,
    work: &mut Vec<u32>,
) -> Ran {
    match seed {
        None => go(
            rows,
            options.most,
            options.turns,
            shown.as_mut_slice(),
            work.as_mut_slice(),
        ),
        Some(seed) => go_seeded(
            rows,
            options.most,
            options.turns,
            seed,
            shown.as_mut_slice(),
            work.as_mut_slice(),
        ),
    }
}

impl<'a> Runner<'a> {
    pub(crate) fn new(heap: Global, options: Options<'a>) -> Result<Runner<'a>, AllocError> {
        let shown = vec![in heap; 0u32; options.room]?;
        let others = vec![in heap; 0u32; options.room]?;
        let work = vec![in heap; 0u32; WORK_WORDS]?;
        let nobody = Left {
            process: 0,
            place: 0,
            end: None,
            holder: None,
        };
        let left = vec![in heap; nobody; MOST_PROCESSES]?;
        Ok(Runner {
            options,
            shown,
            others,
            work,
            left,
        })
    }

    // Runs once.
    fn once(&mut self, rows: &[u32], out: &mut String) -> Result<bool, Failed> {
        let ran = run_in(
            &self.options,
            self.options.seed,
            rows,
            &mut self.shown,
            &mut self.work,
        );
        put_answer(out, ran, self.shown.as_slice())?;
        out.push_str("\n")?;
        Ok(ended(ran))
    }

    // Runs in so many orders, whose seeds follow one another, and says whether they agree.
    fn orders(&mut self, rows: &[u32], count: u64, out: &mut String) -> Result<bool, Failed> {
        let seed = self.options.seed.unwrap_or(1);
        let first = run_in(
            &self.options,
            Some(seed),
            rows,
            &mut self.shown,
            &mut self.work,
        );
        for k in 1..count {
            let next = seed.wrapping_add(k);
            let other = run_in(
                &self.options,
                Some(next),
                rows,
                &mut self.others,
                &mut self.work,
            );
            if !agree(first, self.shown.as_slice(), other, self.others.as_slice()) {
                write!(out, "orders differ: seed {seed} gives ")?;
                put_answer(out, first, self.shown.as_slice())?;
                write!(out, ", seed {next} gives ")?;
                put_answer(out, other, self.others.as_slice())?;
                out.push_str("\n")?;
                return Ok(false);
            }
        }
        write!(out, "{count} orders agree: ")?;
        put_answer(out, first, self.shown.as_slice())?;
        out.push_str("\n")?;
        Ok(ended(first))
    }

    // Says each step of a run, and then its answer.
    fn trace(
        &mut self,
        rt: &HostRuntime,
        named: &Named<'_>,
        out: &mut String,
    ) -> Result<bool, Failed> {
        let wanted = Wanted {
            most: self.options.most,
            turns: self.options.turns,
            seed: self.options.seed,
        };
        trace_run(rt, named, wanted, self.work.as_mut_slice(), out)?;
        self.once(named.rows, out)
    }

    // Looks for an order that jams.
    fn jam(
        &mut self,
        heap: Global,
        named: &Named<'_>,
        orders: u64,
        out: &mut String,
    ) -> Result<bool, Failed> {
        let options = self.options;
        let seed = options.seed.unwrap_or(1);
        let search = Search {
            most: options.most,
            turns: options.turns,
            seed,
            orders,
            dot: options.dot,
        };
        look(
            heap,
            named,
            search,
            self.shown.as_mut_slice(),
            self.work.as_mut_slice(),
            self.left.as_mut_slice(),
            out,
        )
    }

    // Does what is asked with a program; answers whether all is well with it.
    pub(crate) fn run(
        &mut self,
        rt: &HostRuntime,
        named: &Named<'_>,
        out: &mut String,
    ) -> Result<bool, Failed> {
        match self.options.mode {
            Mode::Once => self.once(named.rows, out),
            Mode::Orders(count) => self.orders(named.rows, count, out),
            Mode::Trace => self.trace(rt, named, out),
            Mode::Jam(orders) => self.jam(rt.alloc(), named, orders, out),
        }
    }
}

// A program of which there are only rows: the names and the places are none.
fn unnamed<'x>(rows: &'x [u32], names: &'x [Span], marks: &'x [Mark]) -> Named<'x> {
    Named {
        rows,
        path: "",
        text: "",
        names,
        marks,
    }
}

impl<'a> Answers for Runner<'a> {
    fn answer(&mut self, rt: &HostRuntime, words: &[u32], out: &mut String) -> Result<(), Failed> {
        let names = Vec::new(rt.alloc());
        let marks = Vec::new(rt.alloc());
        self.run(rt, &unnamed(words, names.as_slice(), marks.as_slice()), out)?;
        Ok(())
    }

    fn refusal(&self) -> &'static str {
        "unread\n"
    }
}
