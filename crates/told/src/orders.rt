// Looks for an order that jams.
use crate::waits::Jam;
use exploring::{Explored, Left, explore};
use rows::map::Map;
use rows::read;
use sources::{Failed, Named};
use std::alloc::Global;

// How many processes there may be, how many turns there are, the seed of the first order, how many orders are looked
// at, and whether a graph is wanted.
#[derive(Clone, Copy)]
pub struct Search {
    pub most: u32,
    pub turns: u32,
    pub seed: u64,
    pub orders: u64,
    pub dot: bool,
}

// How many orders ended how.
#[derive(Clone, Copy)]
struct Counts {
    stopped: u64,
    spent: u64,
    crowded: u64,
    wide: u64,
}

impl Counts {
    fn none() -> Counts {
        Counts {
            stopped: 0,
            spent: 0,
            crowded: 0,
            wide: 0,
        }
    }

    fn count(&mut self, explored: Explored) {
        match explored {
            Explored::Stopped(_n) => self.stopped = self.stopped.saturating_add(1),
            Explored::Spent(_n) => self.spent = self.spent.saturating_add(1),
            Explored::Crowded => self.crowded = self.crowded.saturating_add(1),
            Explored::Wide => self.wide = self.wide.saturating_add(1),
            _ => {}
        }
    }

    // That no order jams, and how they ended.
    fn put(&self, orders: u64, out: &mut String) -> Result<(), Failed> {
        let stopped = self.stopped;
        let spent = self.spent;
        let crowded = self.crowded;
        let wide = self.wide;
        write!(
            out,
            "no order jams, of {orders}: {stopped} stopped, {spent} spent, {crowded} crowded, {wide} wide"
        )?;
        Ok(())
    }

    // The same, as a graph where that is wanted.
    fn put_all(&self, search: Search, out: &mut String) -> Result<(), Failed> {
        if search.dot {
            out.push_str("digraph jam {\n  label=\"")?;
            self.put(search.orders, out)?;
            out.push_str("\";\n}\n")?;
            return Ok(());
        }
        self.put(search.orders, out)?;
        out.push_str("\n")?;
        Ok(())
    }
}

// Tells who waits for whom, by the map of the program.
fn tell_by<'x>(
    heap: Global,
    named: &'x Named<'x>,
    map: &'x Map,
    left: &'x [Left],
    seed: u64,
    dot: bool,
    out: &mut String,
) -> Result<(), Failed> {
    let jam = Jam {
        named,
        map,
        left,
        seed,
    };
    if dot {
        return jam.put_graph(out);
    }
    jam.put_table(heap, out)
}

// Tells who waits for whom, where so many are left.
fn tell(
    heap: Global,
    named: &Named<'_>,
    left: &[Left],
    count: usize,
    seed: u64,
    dot: bool,
    out: &mut String,
) -> Result<(), Failed> {
    let mut map = Map::empty();
    let Some(rows) = read(&mut map, named.rows) else {
        return Ok(());
    };
    let told = &left[..count.min(left.len())];
    tell_by(heap, &*named, rows.map, told, seed, dot, out)
}

// Looks at one order. If it jams, tells who waits for whom; if the program cannot be run at all, says so.
fn look_once(
    heap: Global,
    named: &Named<'_>,
    search: Search,
    seed: u64,
    shown: &mut [u32],
    work: &mut [u32],
    left: &mut [Left],
    out: &mut String,
) -> Result<Explored, Failed> {
    let explored = explore(
        named.rows,
        search.most,
        search.turns,
        seed,
        shown,
        work,
        left,
    );
    match explored {
        Explored::Jammed {
            shown: _n,
            left: count,
        } => {
            tell(heap, named, left, count, seed, search.dot, out)?;
        }
        Explored::Unread => out.push_str("unread\n")?,
        Explored::Few => out.push_str("few\n")?,
        _ => {}
    }
    Ok(explored)
}

// Whether there is nothing more to look for.
fn is_last(explored: Explored) -> bool {
    match explored {
        Explored::Jammed {
            shown: _n,
            left: _c,
        } => true,
        Explored::Unread => true,
        Explored::Few => true,
        _ => false,
    }
}

// Looks at so many orders, from a seed on, for one that jams, and writes what is found behind what is yet to be
// printed. Answers whether the program could be run and no order jams.
pub fn look(
    heap: Global,
    named: &Named<'_>,
    search: Search,
    shown: &mut [u32],
    work: &mut [u32],
    left: &mut [Left],
    out: &mut String,
) -> Result<bool, Failed> {
    let mut counts = Counts::none();
    for k in 0..search.orders {
        let explored = look_once(
            heap,
            named,
            search,
            search.seed.wrapping_add(k),
            shown,
            work,
            left,
            out,
        )?;
        if is_last(explored) {
            return Ok(false);
        }
        counts.count(explored);
    }
    counts.put_all(search, out)?;
    Ok(true)
}
