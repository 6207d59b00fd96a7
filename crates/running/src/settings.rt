// Options with a number.
use sources::Failed;

#[derive(Clone, Copy)]
pub enum Setting {
    Processes,
    Turns,
    Room,
    Seed,
    Orders,
    Jam,
}

// The option that a word of the command line is, if it is one with a number.
pub(crate) fn setting_of(word: &str) -> Option<Setting> {
    match word {
        "--processes" => Some(Setting::Processes),
        "--turns" => Some(Setting::Turns),
        "--room" => Some(Setting::Room),
        "--seed" => Some(Setting::Seed),
        "--orders" => Some(Setting::Orders),
        "--jam" => Some(Setting::Jam),
        _ => None,
    }
}

// How an option is written.
fn written(setting: Setting) -> &'static str {
    match setting {
        Setting::Processes => "--processes",
        Setting::Turns => "--turns",
        Setting::Room => "--room",
        Setting::Seed => "--seed",
        Setting::Orders => "--orders",
        Setting::Jam => "--jam",
    }
}

fn least(setting: Setting) -> u64 {
    match setting {
        Setting::Orders => 1,
        Setting::Jam => 1,
        _ => 0,
    }
}

fn greatest(setting: Setting) -> u64 {
    match setting {
        Setting::Processes => 200,
        Setting::Turns => 4294967295,
        Setting::Room => 65536,
        Setting::Seed => u64::MAX,
        Setting::Orders => 1000000,
        Setting::Jam => 1000000,
    }
}

// Says what number an option wants; `found` is what stands there.
pub(crate) fn refuse_number(
    rt: &HostRuntime,
    setting: Setting,
    found: &str,
) -> Result<Failed, Failed> {
    let option = written(setting);
    let low = least(setting);
    let high = greatest(setting);
    eprintln!(rt;
        "run: {option} wants a number from {low} to {high} after it, and there is {found}"
    )?;
    Ok(Failed::Said)
}

// The number of an option.
pub(crate) fn number_of(rt: &HostRuntime, setting: Setting, word: &str) -> Result<u64, Failed> {
    match word.parse::<u64>() {
        Ok(n) => {
            if n >= least(setting) && n <= greatest(setting) {
                return Ok(n);
            }
        }
        Err(_) => {}
    }
    let found = format!(in rt.alloc(); "`{word}`");
    match found {
        Ok(found) => Err(refuse_number(rt, setting, found.as_str())?),
        Err(_) => Err(Failed::Memory),
    }
}
