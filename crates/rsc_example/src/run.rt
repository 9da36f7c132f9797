//! The program over its arguments, files and standard streams.
ghost use Rattle.std.specs.Prelude.{◌≡◌, if◌then◌else◌};

use crate::arguments::{Request, parse};
use crate::error::GrepError;
use crate::page::Page;
use crate::patterns::program_of;
use crate::search::Search;
use std::alloc::AllocError;
use std::env::{Args, VarError};
use std::fs::File;
use std::io::{BufWriter, IsTerminal, Write};
use std::{env, io};

// How many bytes are written at once.
const BUFFER: usize = 65_536;

// What `--help` answers, in lines of at most 80 columns.
const HELP: &str =
    "rsc_example prints the lines of files, or of standard input, in which a word or a
pattern stands.

  rsc_example [-cnovw] [-r TEMPLATE] WORDS [FILE..]
  rsc_example [-cnovw] [-r TEMPLATE] [-e WORDS].. [-p CALLS].. [FILE..]

  -e WORDS      words, one on each line of the argument
  -p CALLS      a pattern, as calls of the builder: 'c61-7a + l3d ,' is [a-z]+=
  -w            only whole words: no digit, letter or _ beside a match
  -v            the lines without a match
  -c            how many lines there are
  -o            the matches alone, each on a line
  -n            a line's number before it
  -r TEMPLATE   what is printed for each match: $0 is the match, $1 and $name are
                groups, $$ is a dollar sign
  --            no options after it
  FILE          - is standard input

The status is 0 if there is such a line, 1 if there is none, and 2 if a file
can't be read, or something else fails.
";

/// Answers the arguments, of which the first is the program's name, and returns the status.
///
/// # Errors
///
/// What stops the program. A file that can't be read doesn't: standard error names it, and the next one is searched.
pub fn run(rt: &HostRuntime, arguments: Args) -> Result<u8, GrepError> {
    let arguments: Vec<String> = arguments.skip(1).collect(rt.alloc())?;
    let request = parse(rt.alloc(), arguments.as_slice())?;
    let out = BufWriter::with_capacity(rt.alloc(), BUFFER, io::writer(rt)).map_err(|_| AllocError)?;
    let mut page = Page::new(rt.alloc(), out, request.numbers, wants_color(rt));
    if request.help {
        page.print(HELP.as_bytes())?;
        page.flush()?;
        return Ok(0);
    }
    let program = program_of(rt.alloc(), &request)?;
    let mut search = Search::new(rt.alloc(), &request, &program, page)?;
    search_all(rt, &request, &mut search)
}

// Searches all inputs, and returns the status.
fn search_all<W: Write + Drop>(
    rt: &HostRuntime,
    request: &Request,
    search: &mut Search<'_, W>,
) -> Result<u8, GrepError> {
    let is_named = request.files.len() > 1;
    let mut is_found = false;
    let mut has_failed = false;
    for name in &request.files {
        let name = name.as_str();
        if is_named {
            search.set_name(shown(name))?;
        }
        match search_in(rt, search, name) {
            Ok(found) => is_found |= found,
            Err(GrepError::Read(error)) => {
                has_failed = true;
                let name = shown(name);
                let _ = rt.eprintln(format_args!("rsc_example: {name}: {error}"));
            }
            Err(error) => return Err(error),
        }
    }
    Ok(status_of(is_found, has_failed))
}

// Whether standard output is a terminal, and `NO_COLOR` is not set to anything but the empty text.
fn wants_color(rt: &HostRuntime) -> bool {
    if !rt.stdout().is_terminal() {
        return false;
    }
    match env::var(rt, "NO_COLOR") {
        Ok(value) => value.is_empty(),
        Err(error) => error == VarError::NotPresent,
    }
}

// Searches the file of a name, or standard input.
fn search_in<W: Write + Drop>(
    rt: &HostRuntime,
    search: &mut Search<'_, W>,
    name: &str,
) -> Result<bool, GrepError> {
    if name == "-" {
        return search.search(&mut rt.reader());
    }
    let mut file = File::open(rt, name).map_err(GrepError::Read)?;
    search.search(&mut file)
}

// The name of an input as lines have it.
fn shown(name: &str) -> &str {
    if name == "-" {
        return "(standard input)";
    }
    name
}

// The status with which the program ends.
fn status_of(is_found: bool, has_failed: bool) -> u8
    ensures { result ≡ (if has_failed then 2 else if is_found then 0 else 1) }
{
    if has_failed {
        2
    } else if is_found {
        0
    } else {
        1
    }
}
