// Who waits for whom, as a graph.
use crate::waits::{Jam, waits_for, word_of};
use exploring::{Left, circle};
use sources::{Failed, process_of_place};

impl Jam<'_> {
    // A process that is left.
    fn put_node(&self, one: Left, out: &mut String) -> Result<(), Failed> {
        let number = one.process;
        write!(out, "  {number} [label=\"{number} ")?;
        self.named
            .put_name(process_of_place(self.map, one.place as usize), out)?;
        out.push_str("\"];\n")?;
        Ok(())
    }

    // For whom it waits, if for somebody; marked where it is on the circle through another.
    fn put_edge(&self, one: Left, through: Option<u32>, out: &mut String) -> Result<(), Failed> {
        let Some(end) = one.end else {
            return Ok(());
        };
        let Some(other) = one.holder else {
            return Ok(());
        };
        let number = one.process;
        let word = word_of(waits_for(self.named.rows, one));
        let line = end.line;
        write!(
            out,
            "  {number} -> {other} [label=\"{word} at line {line}\""
        )?;
        if let Some(through) = through {
            if self.on_circle(through, number) {
                out.push_str(", color=red, penwidth=2")?;
            }
        }
        out.push_str("];\n")?;
        Ok(())
    }

    // The whole graph.
    pub(crate) fn put_graph(&self, out: &mut String) -> Result<(), Failed> {
        let seed = self.seed;
        write!(out, "digraph jam {{\n  label=\"seed {seed} jams\";\n")?;
        for one in self.left {
            self.put_node(*one, out)?;
        }
        let through = circle(self.left);
        for one in self.left {
            self.put_edge(*one, through, out)?;
        }
        out.push_str("}\n")?;
        Ok(())
    }
}
