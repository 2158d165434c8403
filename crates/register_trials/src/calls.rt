//! Calls of a register, one behind the other, and what each answers.

ghost use Rattle.site_types.specs.Valid.{IsValid};

use crate::telling::{say_import_refusal, say_points, say_refusal, say_table};
use anyhow::{Context, Result, bail};
use register_import::import_csv;
use register_sqlite::TableKeeper;
use service_keepers::{Keeper, MemoryKeeper, Visit};
use service_register::{Register, RegisterRefusal};
use site_types::{Site, read_name};
use std::alloc::Global;
use std::fs;
use trial_cases::{Lines, Words};

/// What each call answers over a keeper of which steps say which of its calls fail: `fails 3, visit 7 20000 kim`. A
/// step `import FILE` imports a file. Where none is to fail, a keeper over a database has to answer the same.
pub(crate) fn make_calls(rt: &HostRuntime, site: &Site, line: &str) -> Result<String>
    requires { IsValid site.now }
{
    let alloc = rt.alloc();
    let Ok(register) = Register::new(alloc, site) else {
        bail!("no memory");
    };
    let Ok(mut keeper) = MemoryKeeper::new(alloc, Vec::new(alloc)) else {
        bail!("no memory");
    };
    let mut may_fail = false;
    let mut lines = Lines::new(alloc);
    for step in line.split(", ") {
        match step.strip_prefix("fails ") {
            Some(number) => {
                may_fail = true;
                keeper.fails.push(number.parse::<u64>()?)?;
            }
            None => say_step(rt, site, &register, &mut keeper, step, &mut lines)?,
        }
    }
    let told = lines.done()?;
    if !may_fail && make_table_calls(rt, site, line)?.as_str() != told.as_str() {
        bail!("otherwise over tables: {line}");
    }
    Ok(told)
}

/// What each call answers over a keeper whose database is in a file, whose name comes first.
pub(crate) fn make_file_calls(rt: &HostRuntime, site: &Site, line: &str) -> Result<String>
    requires { IsValid site.now }
{
    let Some((name, steps)) = line.split_once(", ") else {
        bail!("no call: {line}");
    };
    let mut keeper = TableKeeper::at(*rt, String::from_str(rt.alloc(), name)?);
    answer_steps(rt, site, &mut keeper, steps)
}

/// What each call answers over a keeper whose database is in memory.
pub(crate) fn make_table_calls(rt: &HostRuntime, site: &Site, line: &str) -> Result<String>
    requires { IsValid site.now }
{
    let mut keeper = TableKeeper::in_memory(rt.alloc());
    answer_steps(rt, site, &mut keeper, line)
}

// What each call answers.
fn answer_steps<R: Keeper>(
    rt: &HostRuntime,
    site: &Site,
    keeper: &mut R,
    line: &str,
) -> Result<String>
    requires { IsValid site.now }
{
    let Ok(register) = Register::new(rt.alloc(), site) else {
        bail!("no memory");
    };
    let mut lines = Lines::new(rt.alloc());
    for step in line.split(", ") {
        say_step(rt, site, &register, keeper, step, &mut lines)?;
    }
    lines.done()
}

// A line of its own for a step: the step, and what its call answers.
fn say_step<R: Keeper>(
    rt: &HostRuntime,
    site: &Site,
    register: &Register,
    keeper: &mut R,
    step: &str,
    lines: &mut Lines,
) -> Result<()>
    requires { IsValid site.now }
{
    lines.say("    ");
    lines.say(step);
    lines.say(": ");
    lines.say(answer_of(rt, site, register, keeper, step)?.as_str());
    lines.say("\n");
    Ok(())
}

/// What the call that a step spells answers. A step `import` imports the file of a name, a step `rows` the rows behind
/// it.
pub(crate) fn answer_of<R: Keeper>(
    rt: &HostRuntime,
    site: &Site,
    register: &Register,
    keeper: &mut R,
    step: &str,
) -> Result<String>
    requires { IsValid site.now }
{
    let alloc = rt.alloc();
    let mut lines = Lines::new(alloc);
    let mut words = Words::of(step);
    match words.next() {
        "import" => {
            let name = words.next();
            let bytes = fs::read(rt, name).context(format_args!("reading {name}"))?;
            say_import(alloc, site, keeper, &bytes, &mut lines);
        }
        "rows" => {
            let file = file_of(alloc, step)?;
            say_import(alloc, site, keeper, file.as_bytes(), &mut lines);
        }
        "visit" => {
            let visit = visit_of(&mut words)?;
            say_done(&mut lines, register.visit(alloc, keeper, &visit));
        }
        "tested" => {
            let visit = words.next().parse::<u32>()?;
            let done = register.tested(alloc, keeper, visit, words.next());
            say_done(&mut lines, done);
        }
        "untested" => match register.untested_since(alloc, keeper, words.next().parse::<u32>()?) {
            Ok(places) => say_points(&mut lines, site, &places),
            Err(refusal) => say_refusal(&mut lines, refusal),
        },
        "export" => match export_since(alloc, register, keeper, words.next().parse::<u32>()?) {
            Ok(table) => say_table(&mut lines, &table),
            Err(refusal) => say_refusal(&mut lines, refusal),
        },
        _ => bail!("no such call: {step}"),
    }
    lines.done()
}

// Imports the rows of a file, and says how much it has or why it is refused.
fn say_import<R: Keeper>(
    alloc: Global,
    site: &Site,
    keeper: &mut R,
    bytes: &[u8],
    lines: &mut Lines,
)
    requires { IsValid site.now }
{
    match import_csv(alloc, site, keeper, bytes) {
        Ok(imported) => {
            lines.count("imported visits ", imported.visits as u64);
            lines.count(" tests ", imported.tests as u64);
        }
        Err(refusal) => say_import_refusal(lines, refusal),
    }
}

// The file that has these rows behind the header.
fn file_of(alloc: Global, step: &str) -> Result<String> {
    let mut file = Lines::new(alloc);
    file.say("visit,day,engineer,point\n");
    for row in step.split(' ').skip(1) {
        file.say(row);
        file.say("\n");
    }
    file.done()
}

// The visit that words spell: its number, its day and the engineer.
fn visit_of(words: &mut Words) -> Result<Visit> {
    let number = words.next().parse::<u32>()?;
    let day = words.next().parse::<u32>()?;
    match read_name(words.next().as_bytes()) {
        Some(engineer) => Ok(Visit {
            number,
            day,
            engineer,
        }),
        None => bail!("no engineer"),
    }
}

// The table of the points that haven't been tested since a day.
fn export_since<R: Keeper>(
    alloc: Global,
    register: &Register,
    keeper: &mut R,
    day: u32,
) -> Result<Vec<u8>, RegisterRefusal> {
    let places = register.untested_since(alloc, keeper, day)?;
    register.export_csv(alloc, keeper, &places)
}

fn say_done(lines: &mut Lines, done: Result<(), RegisterRefusal>) {
    match done {
        Ok(()) => lines.say("ok"),
        Err(refusal) => say_refusal(lines, refusal),
    }
}
