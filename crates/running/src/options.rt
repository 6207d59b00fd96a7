// What the command line asks for.
use crate::settings::{Setting, number_of, refuse_number, setting_of};
use sources::Failed;

// What is done with a program: it is run once; it is run in several orders, to see whether they agree; of several
// orders one is looked for that jams; or it is run once and each step is said.
#[derive(Clone, Copy)]
pub enum Mode {
    Once,
    Orders(u64),
    Jam(u64),
    Trace,
}

#[derive(Clone, Copy)]
pub struct Options<'a> {
    // The file, if one is named.
    pub file: Option<&'a str>,
    pub help: bool,
    pub rows: bool,
    pub dot: bool,
    pub mode: Mode,
    // How many processes there may be, and how many turns there are.
    pub most: u32,
    pub turns: u32,
    // How many numbers there is room for.
    pub room: usize,
    pub seed: Option<u64>,
}

// A number that is known to have 32 bits.
fn small(n: u64) -> u32 {
    u32::try_from(n).unwrap_or(u32::MAX)
}

impl<'a> Options<'a> {
    // Where nothing is said.
    fn usual() -> Options<'a> {
        Options {
            file: None,
            help: false,
            rows: false,
            dot: false,
            mode: Mode::Once,
            most: 200,
            turns: 1000000,
            room: 1024,
            seed: None,
        }
    }

    // Only one thing is done at a time.
    fn choose(&mut self, rt: &HostRuntime, mode: Mode) -> Result<(), Failed> {
        match self.mode {
            Mode::Once => {
                self.mode = mode;
                Ok(())
            }
            _ => {
                eprintln!(rt;
                    "run: only one of --orders, --jam and --trace at a time: leave out the others"
                )?;
                Err(Failed::Said)
            }
        }
    }

    fn set(&mut self, rt: &HostRuntime, setting: Setting, n: u64) -> Result<(), Failed> {
        match setting {
            Setting::Processes => self.most = small(n),
            Setting::Turns => self.turns = small(n),
            Setting::Room => self.room = small(n) as usize,
            Setting::Seed => self.seed = Some(n),
            Setting::Orders => return self.choose(rt, Mode::Orders(n)),
            Setting::Jam => return self.choose(rt, Mode::Jam(n)),
        }
        Ok(())
    }

    // An option without a number.
    fn switch_on(&mut self, rt: &HostRuntime, word: &str) -> Result<(), Failed> {
        match word {
            "--help" => self.help = true,
            "--rows" => self.rows = true,
            "--dot" => self.dot = true,
            "--trace" => return self.choose(rt, Mode::Trace),
            _ => {
                eprintln!(rt;
                    "run: there is no option `{word}`: `run --help` says which there are"
                )?;
                return Err(Failed::Said);
            }
        }
        Ok(())
    }

    // A word that is no option: the file.
    fn name(&mut self, rt: &HostRuntime, word: &'a str) -> Result<(), Failed> {
        match self.file {
            None => {
                self.file = Some(word);
                Ok(())
            }
            Some(_) => {
                eprintln!(rt; "run: one file at a time: leave out `{word}`")?;
                Err(Failed::Said)
            }
        }
    }

    // Whether the options go together.
    fn agreeing(self, rt: &HostRuntime) -> Result<Options<'a>, Failed> {
        match self.mode {
            Mode::Jam(_m) => return Ok(self),
            _ => {}
        }
        if self.dot {
            eprintln!(rt; "run: --dot goes with --jam only: write `run --jam 1000 --dot`")?;
            return Err(Failed::Said);
        }
        Ok(self)
    }

    // The file, or `-` for the standard input.
    pub(crate) fn path(&self) -> &'a str {
        self.file.unwrap_or("-")
    }
}

// Whether a word of the command line is an option; `-` alone is the standard input.
fn is_option(word: &str) -> bool {
    word.starts_with('-') && word.len() > 1
}

// The words after the program's name.
pub(crate) fn read_options<'a>(
    rt: &HostRuntime,
    words: &'a [String],
) -> Result<Options<'a>, Failed> {
    let mut options = Options::usual();
    let mut awaited = None;
    for word in words {
        let word = word.as_str();
        match awaited {
            Some(setting) => {
                let n = number_of(rt, setting, word)?;
                options.set(rt, setting, n)?;
                awaited = None;
            }
            None => {
                awaited = setting_of(word);
                if awaited.is_none() {
                    options.take(rt, word)?;
                }
            }
        }
    }
    match awaited {
        Some(setting) => Err(refuse_number(rt, setting, "none")?),
        None => options.agreeing(rt),
    }
}

impl<'a> Options<'a> {
    // A word that is no option with a number.
    fn take(&mut self, rt: &HostRuntime, word: &'a str) -> Result<(), Failed> {
        if is_option(word) {
            return self.switch_on(rt, word);
        }
        self.name(rt, word)
    }
}
