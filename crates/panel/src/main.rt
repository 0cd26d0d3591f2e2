#![tactic(auto)]

// Says what the bakery's supply limit makes of sets of literals: of one set, from the arguments, or of one on each line of
// the standard input. A literal is given by its number.
mod sets;

use anyhow::Context;
use linear::Linear;
use literals::Setting;
use rules::scan;
use sets::{Trouble, read_sets};
use std::alloc::{AllocError, Global};
use std::io::Read;
use std::{env, io};
use supply::supply_limit;

// The arguments on one line, or else all of the standard input.
fn input(rt: &HostRuntime) -> io::Result<String> {
    let mut args = Vec::new(rt.alloc());
    for word in env::args(rt)? {
        args.push(word)?;
    }
    let mut text = one_line(rt.alloc(), &args)?;
    if text.is_empty() {
        rt.stdin().read_to_string(&mut text)?;
    }
    Ok(text)
}

// The words behind the program's own name, with a blank behind each.
fn one_line(heap: Global, args: &[String]) -> Result<String, AllocError> {
    let mut text = String::new(heap);
    for word in args.iter().skip(1) {
        text.push_str(word.as_str())?;
        text.push(' ')?;
    }
    Ok(text)
}

fn tell(rt: &HostRuntime, rule: Linear, set: &Setting) -> io::Result<()> {
    let slack = rule.slack(set);
    let verdict = scan(&[rule], set);
    println!(rt; "slack {slack}: {verdict}")
}

fn run(rt: &HostRuntime) -> anyhow::Result<()> {
    let rule = supply_limit().context("the supply limit is refused")?;
    let text = input(rt)?;
    match read_sets(rt.alloc(), text.as_str()) {
        Ok(sets) => {
            for set in &sets {
                tell(rt, rule, set)?;
            }
        }
        // What was handed in is at fault, and not the program.
        Err(trouble @ Trouble::Refused { .. }) => println!(rt; "{trouble}")?,
        Err(trouble) => return Err(trouble.into()),
    }
    Ok(())
}

fn main(rt: HostRuntime) -> anyhow::Result<()> {
    run(&rt)
}

#[cfg(test)]
mod tests {
    use super::*;
    use std::test::Fail;

    #[test]
    fn takes_the_words_behind_its_name(rt: HostRuntime) -> Result<(), Fail> {
        let mut args = Vec::new(rt.alloc());
        for word in ["panel", "4", "-1"] {
            args.push(String::from_str(rt.alloc(), word)?)?;
        }
        assert_eq!(rt; one_line(rt.alloc(), &args)?.as_str(), "4 -1 ");
        args.truncate(1);
        assert!(rt; one_line(rt.alloc(), &args)?.is_empty());
        Ok(())
    }
}
