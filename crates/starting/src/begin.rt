// The records of a process that begins, and of one that has started another.
ghost use Rattle.std.specs.Prelude.{◌≡◌, ◌<◌, ◌≤◌, ◌∷◌, length, map};
ghost use Rattle.std.proofs.Math.Option.{some};
ghost use Rattle.model.specs.Steps.{far_end};
ghost use Rattle.records.specs.Records.{record_of, viewed};
ghost use Rattle.starting.specs.Beginning.{begun_with, released};

use evaluation::handing::{clear_ends, push_ends, push_numbers};
use records::process::{End, Record, push_end, reset, set_place, set_turns};

// A process begins, with some ends and some numbers.
pub fn begin(process: &mut Record, body: u32, left: u32, ends: &[Option<End>], numbers: &[u32])
    requires ends { length ends.now ≤ 16 }
    requires vars { length numbers.now ≤ 16 }
    ensures { record_of process.new ≡ begun_with body left (map viewed ends.now) numbers.now }
{
    reset(process, body, left);
    push_ends(process, ends);
    push_numbers(process, numbers);
}

// A started process begins: its first end is that of the line to its starter.
pub fn begin_started(
    process: &mut Record,
    body: u32,
    left: u32,
    line: u32,
    handed: &[Option<End>],
    numbers: &[u32],
)
    requires ends { length handed.now ≤ 15 }
    requires vars { length numbers.now ≤ 16 }
    ensures { record_of process.new ≡ begun_with body left (some (far_end line) ∷ map viewed handed.now) numbers.now }
{
    reset(process, body, left);
    push_end(process, Some(End { line, far: true }));
    push_ends(process, handed);
    push_numbers(process, numbers);
}

// The starter goes on, without what it handed on and with its end of the new line.
pub fn release(process: &mut Record, listed: &[u32], line: u32, left: u32, next: u32)
    requires { length (record_of process.old).ends < 16 }
    ensures { record_of process.new ≡ released (record_of process.old) listed.now line left next }
{
    clear_ends(process, listed);
    push_end(process, Some(End { line, far: false }));
    set_turns(process, left);
    set_place(process, next);
}
