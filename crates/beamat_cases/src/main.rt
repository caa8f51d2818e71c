// What it is: runs what programs `beamat` and `heldat` do on each file of data/, and prints each file's name before its two reports.
// What it promises: it is safe and ends; what it prints is compared with the file `stdout`.
// Where its definitions stand: in beam, specs/.
#![tactic(auto)]

use beam::Question;
use std::rt::Files;
use std::{fs, io};

fn run(rt: &(impl Files + Print + Eprint), name: &str) -> io::Result<()> {
    println!(rt; "# {name}")?;
    ask(rt, name, Question::Beam)?;
    ask(rt, name, Question::Held)
}

fn ask(rt: &(impl Files + Print + Eprint), name: &str, question: Question) -> io::Result<()> {
    let mut file = match fs::open(rt, name) {
        Ok(file) => file,
        Err(error) => return eprintln!(rt; "{name}: {error}"),
    };
    beam_io::answer(rt, &mut file, question)
}

fn main(rt: HostRuntime) -> io::Result<()> {
    for name in [
        "empty",
        "newline",
        "empty_line",
        "no_final_newline",
        "two_final_newlines",
        "leading_zeros",
        "spaces",
        "frames",
        "machines",
        "signs",
        "carriage_return",
        "large",
        "other_bytes",
        "readings",
        "numbers",
        "full",
        "over",
    ] {
        run(&rt, name)?;
    }
    Ok(())
}
