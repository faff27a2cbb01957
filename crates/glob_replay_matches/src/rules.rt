//! Asks ignore lists about paths. Standard input has records that end in NUL: `L` and a list, and then questions about
//! it: `f` and the path of a file, or `d` and the path of a directory. For each question this prints the line of the
//! rule that decides, or 0; for a refused list it prints `R` and the refused line.

use glob_rules::IgnoreList;
use std::io;

/// Answers the records of standard input.
pub fn ask_lists(rt: &HostRuntime) -> io::Result<()> {
    let text = io::read_to_string(rt.alloc(), rt.reader())?;
    let mut list = None;
    for record in text.split('\0') {
        match record.split_at_checked(1) {
            Some(("L", rules)) => {
                let made = IgnoreList::new(rt.alloc(), rules);
                if let Err(refusal) = &made {
                    println!(rt; "R {refusal}")?;
                }
                list = made.ok();
            }
            Some((kind, path)) => {
                if let Some(list) = &list {
                    let rule = list.deciding_rule(path, kind == "d")?;
                    rt.println(rule.map_or(0, |rule| rule.line))?;
                }
            }
            None => {}
        }
    }
    Ok(())
}
