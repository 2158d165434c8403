//! A list of cases, each with what is answered.

use crate::case::Case;
use crate::words::look_up;
use anyhow::{Context, Result, bail};
use std::fs;

/// Answers each list of cases whose name comes in, one a line, with the name and the list: the file `cases` of the
/// folder of that name. The name is printed first.
pub fn answer_lists<F: FnMut(&str, &str) -> Result<()>>(
    rt: &HostRuntime,
    mut answer: F,
) -> Result<()>
    requires { F.IsAlwaysCallable answer }
{
    for name in rt.lines(rt.alloc()) {
        let name = name?;
        println!(rt; "== {name}")?;
        let file = format!(in rt.alloc(); "{name}/cases")?;
        let list = fs::read_to_string(rt, &file).context(format_args!("reading {file}"))?;
        answer(&name, &list)?;
    }
    Ok(())
}

/// Prints each line of a list, and behind a case what is answered to one of its kind. A line that is empty or
/// begins with `#` is a heading. A case of no kind that there is ends it with an error.
pub fn answer_cases<K: Copy, F: FnMut(K, &Case) -> Result<String>>(
    rt: &HostRuntime,
    list: &str,
    kinds: &[(&str, K)],
    mut answer: F,
) -> Result<()>
    requires { F.IsAlwaysCallable answer }
{
    for line in list.lines() {
        println!(rt; "{line}")?;
        if is_heading(line) {
            continue;
        }
        let case = Case::read(line);
        let Some(kind) = look_up(kinds, case.kind) else {
            bail!("no such case: {line}");
        };
        rt.print(answer(kind, &case)?)?;
    }
    Ok(())
}

/// Whether a line is no case.
pub fn is_heading(line: &str) -> bool {
    line.is_empty() || line.starts_with('#')
}
