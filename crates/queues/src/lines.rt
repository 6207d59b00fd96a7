// Who waits at the ends of lines, in lent words.
ghost use Rattle.std.specs.Prelude.{◌≡◌, ◌-◌, ◌^◌, ◌<◌, length};
ghost use Rattle.std.proofs.Math.Option.{some, none};
ghost use Rattle.records.specs.Records.{endpoint};
ghost use Rattle.queues.specs.Lines.{waiter_at, Noted, option, facing};

use records::process::End;

// Who waits at the two sides of a line: 0, or 1 + the process.
pub type Line = [u32; 2];

// The other end of the same line.
pub fn facing_end(e: End) -> End
    ensures { endpoint result ≡ facing (endpoint e) }
{
    End {
        line: e.line,
        far: !e.far,
    }
}

// Who waits at an end.
pub fn waiter(lines: &[Line], e: End) -> Option<u32>
    requires { e.line < length lines.now }
    ensures { option result ≡ waiter_at lines.now (endpoint e) }
{
    lines[e.line as usize][e.far as usize].checked_sub(1)
}

// Notes that a process waits at an end.
pub fn note(lines: &mut [Line], e: End, who: u32)
    requires room { e.line < length lines.old }
    requires code { who < 2 ^ 32 - 1 }
    ensures { Noted lines.old lines.new (endpoint e) (some who) }
{
    lines[e.line as usize][e.far as usize] = who + 1;
}

// Notes that nobody waits at an end.
pub fn forget(lines: &mut [Line], e: End)
    requires { e.line < length lines.old }
    ensures { Noted lines.old lines.new (endpoint e) none }
{
    lines[e.line as usize][e.far as usize] = 0;
}
