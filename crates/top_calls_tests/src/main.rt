//! Runs `once_main` on the cases of standard input and tells which don't hold.
//!
//! A case is a paragraph of lines, and the file `stdin` beside `src/` has them:
//!
//! ```text
//! case a controller's text is answered with 200
//! word get
//! word /hello/index
//! file app/controllers/hello_controller.rb
//! | class HelloController
//! | end
//! status 11
//! | not built yet
//! ```
//!
//! | Line | Means |
//! |---|---|
//! | `case NAME` | the case's name |
//! | `word WORD` | the next word of the command line |
//! | `file PATH` | a file, whose text follows |
//! | `files N PATH` | N empty files `PATH0.rb`, `PATH1.rb` and so on |
//! | `status N` | the exit status that is wanted; the output that is wanted follows |
//! | `\| TEXT` | TEXT and a line feed, in a file or in the output |
//! | `> TEXT` | TEXT, a carriage return and a line feed |
//! | `+ TEXT` | TEXT alone |
//! | `byte N` | the byte of this number |
//! | `fill N TEXT` | TEXT N times |
//! | `# TEXT` | nothing: a remark |
#![tactic(auto)]

mod case;
mod run;
#[cfg(test)]
mod tests;

use crate::case::Case;
use std::io;

/// How many cases there were, and how many held.
#[derive(Clone, Copy)]
struct Tally {
    cases: u64,
    held: u64,
}

/// Judges a case, and tells where it doesn't hold.
fn judge(rt: &(impl Print + AllocGlobal), case: Case, tally: &mut Tally) -> io::Result<()> {
    if case.is_empty() {
        return Ok(());
    }
    tally.cases = tally.cases.saturating_add(1);
    let alloc = rt.alloc();
    let name = String::from_str(alloc, case.name())?;
    let wanted = case.wanted(alloc)?;
    let given = case.run(alloc)?;
    if given.status == wanted.status && given.written.as_slice() == wanted.written.as_slice() {
        tally.held = tally.held.saturating_add(1);
        Ok(())
    } else {
        println!(rt;
            "does not hold: {} (status {})",
            name.as_str(),
            given.status
        )
    }
}

fn main(rt: HostRuntime) -> io::Result<()> {
    let alloc = rt.alloc();
    let mut tally = Tally { cases: 0, held: 0 };
    let mut case = Case::new(alloc);
    for line in rt.lines(alloc) {
        let line = line?;
        if line.is_empty() {
            judge(&rt, case, &mut tally)?;
            case = Case::new(alloc);
        } else if !case.add(alloc, line.as_str())? {
            println!(rt; "not understood: {}", line.as_str())?;
        }
    }
    judge(&rt, case, &mut tally)?;
    println!(rt; "{} of {} cases hold", tally.held, tally.cases)
}
