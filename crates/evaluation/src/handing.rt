// Conversations and numbers handed on are given to one process and taken from another.
ghost use Rattle.std.specs.Prelude.{◌≡◌, ◌+◌, ◌≤◌, length, map};
ghost use Rattle.records.specs.Records.{record_of, viewed};
ghost use Rattle.evaluation.specs.Handing.{with_ends, with_numbers, taken_from};

use records::process::{End, Record, clear_end, push_end, push_variable};

// Gives a process some ends.
pub fn push_ends(process: &mut Record, ends: &[Option<End>])
    requires { length (record_of process.old).ends + length ends.now ≤ 16 }
    ensures { record_of process.new ≡ with_ends (record_of process.old) (map viewed ends.now) }
{
    for end in ends {
        push_end(process, *end);
    }
}

// Gives a process some numbers as variables.
pub fn push_numbers(process: &mut Record, numbers: &[u32])
    requires { length (record_of process.old).vars + length numbers.now ≤ 16 }
    ensures { record_of process.new ≡ with_numbers (record_of process.old) numbers.now }
{
    for number in numbers {
        push_variable(process, *number);
    }
}

// Takes the conversations that are listed from a process.
pub fn clear_ends(process: &mut Record, listed: &[u32])
    ensures { record_of process.new ≡ taken_from (record_of process.old) listed.now }
{
    for conversation in listed {
        clear_end(process, *conversation);
    }
}
