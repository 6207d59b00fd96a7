// The records of processes in lent words, each of 64: nothing above this file knows where in a record a field stands.
ghost use Rattle.std.specs.Prelude.{◌≡◌, ◌^◌, ◌<◌, ◌≤◌, length};
ghost use Rattle.model.specs.Steps.{end};
ghost use Rattle.records.specs.Records.{record_of, moved, assigned, ended, cleared, begins, spends, viewed};
ghost use Rattle.records.specs.Records.{with_end, with_number, state_is, state_of, end_of};

// The words of one process.
pub type Record = [u32; 64];

// Where in a record the place, the turns, the state, the number of variables and that of conversations stand. From word
// 16 on stand the variables, from 32 on the lines of the ends and from 48 on their sides.
const PLACE: usize = 1;

const TURNS: usize = 2;

const STATE: usize = 3;

const VARIABLES: usize = 4;

const CONVERSATIONS: usize = 5;

// An end of a line: the line, and whether it is the started process's side of it.
#[derive(Clone, Copy, PartialEq, Eq, Debug)]
pub struct End {
    pub line: u32,
    pub far: bool,
}

// How a process stands: it goes on or waits, it has stopped, or it is out of turns.
#[derive(Clone, Copy, PartialEq, Eq, Debug)]
pub enum Standing {
    Running,
    Stopped,
    Spent,
}

// Where in the rows a process is.
pub fn place(of: &Record) -> usize
    ensures place { result ≡ (record_of of.now).place }
    ensures code { result < 2 ^ 32 }
{
    of[PLACE] as usize
}

// Puts a process at another place.
pub fn set_place(process: &mut Record, to: u32)
    ensures { record_of process.new ≡ moved (record_of process.old) to }
{
    process[PLACE] = to;
}

// How many turns a process has left.
pub fn turns(of: &Record) -> u32
    ensures { result ≡ (record_of of.now).left }
{
    of[TURNS]
}

// Sets how many turns a process has left.
pub fn set_turns(process: &mut Record, left: u32)
    ensures { record_of process.new ≡ spends (record_of process.old) left }
{
    process[TURNS] = left;
}

// How a process stands.
pub fn state(of: &Record) -> Standing
    ensures { state_is result ≡ (record_of of.now).state }
{
    match of[STATE] {
        0 => Standing::Running,
        1 => Standing::Stopped,
        _ => Standing::Spent,
    }
}

// A process takes no further step.
pub fn halt(process: &mut Record, how: Standing)
    ensures { record_of process.new ≡ ended (record_of process.old) (state_is how) }
{
    process[STATE] = how as u32;
}

// The variables of a process.
pub fn variables(of: &Record) -> &[u32]
    ensures { result.now ≡ (record_of of.now).vars }
{
    &of[16..16 + variables_count(of)]
}

// How many variables a process has.
fn variables_count(of: &Record) -> usize
    ensures is { result ≡ length (record_of of.now).vars }
    ensures few { result ≤ 16 }
{
    of[VARIABLES].min(16) as usize
}

// Puts a number into a variable, if there is such a variable.
pub fn set_variable(process: &mut Record, variable: u32, value: u32)
    ensures { record_of process.new ≡ assigned (record_of process.old) variable value }
{
    let variable = variable as usize;
    if variable < variables_count(process) {
        process[16 + variable] = value;
    }
}

// The end that a conversation of a process is.
pub fn end_at(of: &Record, conversation: u32) -> Option<End>
    ensures { viewed result ≡ end (record_of of.now).ends conversation }
{
    let k = conversation as usize;
    if k >= ends_count(of) {
        return None;
    }
    let code = of[48 + k];
    if code == 0 {
        return None;
    }
    Some(End {
        line: of[32 + k],
        far: code != 1,
    })
}

// How many conversations a process has, handed on or not.
pub fn ends_count(of: &Record) -> usize
    ensures is { result ≡ length (record_of of.now).ends }
    ensures few { result ≤ 16 }
{
    of[CONVERSATIONS].min(16) as usize
}

// Takes a conversation from a process.
pub fn clear_end(process: &mut Record, conversation: u32)
    ensures { record_of process.new ≡ cleared (record_of process.old) conversation }
{
    let k = conversation as usize;
    if k < ends_count(process) {
        process[48 + k] = 0;
    }
}

// A process begins, so far without conversations and variables.
pub fn reset(process: &mut Record, body: u32, most: u32)
    ensures { record_of process.new ≡ begins body most }
{
    process[PLACE] = body;
    process[TURNS] = most;
    process[STATE] = Standing::Running as u32;
    process[VARIABLES] = 0;
    process[CONVERSATIONS] = 0;
}

// Gives a process one more conversation.
pub fn push_end(process: &mut Record, end: Option<End>)
    requires { length (record_of process.old).ends < 16 }
    ensures { record_of process.new ≡ with_end (record_of process.old) (viewed end) }
{
    let k = ends_count(process);
    let (line, code) = end_code(end);
    process[32 + k] = line;
    process[48 + k] = code;
    process[CONVERSATIONS] = k as u32 + 1;
}

// The two words of an end.
fn end_code(end: Option<End>) -> (u32, u32)
    ensures { end_of result.0 result.1 ≡ viewed end }
{
    match end {
        None => (0, 0),
        Some(End { line, far }) => (line, if far { 2 } else { 1 }),
    }
}

// Gives a process one more variable.
pub fn push_variable(process: &mut Record, value: u32)
    requires { length (record_of process.old).vars < 16 }
    ensures { record_of process.new ≡ with_number (record_of process.old) value }
{
    let k = variables_count(process);
    process[16 + k] = value;
    process[VARIABLES] = k as u32 + 1;
}
