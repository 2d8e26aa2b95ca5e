//! Prints what each file that a word names is read as, or what is told of it.
//! Its tests are of the fields of a CONFIG, their defaults and their faults.
#![tactic(auto)]

#[cfg(test)]
mod defaults;
#[cfg(test)]
mod faults;
#[cfg(test)]
mod fields;
#[cfg(test)]
mod opened;
mod print;

use print::put_text;
use std::{env, fs, io};

fn main(rt: HostRuntime) -> io::Result<()> {
    let mut words = env::args(&rt)?;
    let _program = words.next();
    for word in words {
        let text = fs::read(&rt, word.as_str())?;
        let mut out = Vec::new(rt.alloc());
        put_text(&mut out, text.as_slice())?;
        let told = String::from_utf8_lossy(rt.alloc(), out.as_slice())?;
        let told = told.as_str();
        let word = word.as_str();
        print!(rt; "{word}\n{told}")?;
    }
    Ok(())
}
