//! The program over arguments, a reader and a writer.

use crate::error::{ShowError, refused};
use crate::{classes, groups, looks};
use std::alloc::Global;
use std::io::{ErrorKind, Read, Write};

const EXPECTED_COMMAND: &str = "looks, classes, groups or --help";

const VERSION: &str = "rsc_show, over a port of regex-automata 0.4.18\n";

// What `--help` answers, in lines of at most 80 columns.
const HELP: &str = "rsc_show explains where assertions hold, which bytes share a class, and which
slots groups have.

  rsc_show looks [--terminator XX] [--words ascii|unicode] [LOOK..] -- TEXT
  rsc_show looks .. --hex BYTES     the haystack as hexadecimal digits
  rsc_show looks .. -               the haystack from standard input
  rsc_show classes [--terminator XX] [--words ascii|unicode] [--range XX-XX]..
                   [--color auto|always|never] [--summary] [LOOK..]
  rsc_show groups LISTS
  rsc_show --help, rsc_show --version

XX is two hexadecimal digits; the terminator is 0a unless it is given. LOOK is
the name of an assertion, as StartLF or WordUnicode; looks without one shows
all. LISTS are patterns between `;`, each with its groups between `,`: `-` has
no name. The picture of classes is in colour on a terminal, where NO_COLOR is
not set; --summary says instead what each LOOK and range adds to a table's
width. The status is 0, 1 for a failure, 2 for wrong arguments, and 3 for a
refused list of groups.

  rsc_show looks WordUnicode StartLF -- 'a b'
  rsc_show classes StartLF WordAscii
  rsc_show classes StartLF WordAscii --range 61-7a --summary
  rsc_show groups '-,x;-,-,x'
";

/// Answers the arguments after the program's name, for an output that wants colour or not.
///
/// # Errors
///
/// [`ShowError`] says which. Nothing was written then, except by a failed write itself, and for a refused list its answer.
pub fn run<R: Read, W: Write>(
    alloc: Global,
    arguments: &[String],
    wants_color: bool,
    input: &mut R,
    output: &mut W,
) -> Result<(), ShowError> {
    let (text, is_refused) = answer(alloc, arguments, wants_color, input)?;
    match output.write_all(text.as_bytes()) {
        Ok(()) => {
            if is_refused {
                return Err(ShowError::ListRefused);
            }
            Ok(())
        }
        Err(error) => match error.kind() {
            ErrorKind::BrokenPipe => Err(ShowError::Closed),
            _ => Err(ShowError::Write),
        },
    }
}

fn answer<R: Read>(
    alloc: Global,
    arguments: &[String],
    wants_color: bool,
    input: &mut R,
) -> Result<(String, bool), ShowError> {
    if is_asked(arguments, "--help") || is_asked(arguments, "-h") {
        return Ok((String::from_str(alloc, HELP)?, false));
    }
    if is_asked(arguments, "--version") {
        return Ok((String::from_str(alloc, VERSION)?, false));
    }
    let [command, rest @ ..] = arguments else {
        return Err(refused(alloc, "rsc_show", EXPECTED_COMMAND));
    };
    let command = command.as_str();
    if command == "looks" {
        Ok((looks::answer(alloc, rest, input)?, false))
    } else if command == "classes" {
        Ok((classes::answer(alloc, rest, wants_color)?, false))
    } else if command == "groups" {
        groups::answer(alloc, rest)
    } else {
        Err(refused(alloc, command, EXPECTED_COMMAND))
    }
}

// Whether an argument before the text after `--` is the one that is asked for.
fn is_asked(arguments: &[String], wanted: &str) -> bool {
    for argument in arguments {
        if argument.as_str() == "--" {
            return false;
        }
        if argument.as_str() == wanted {
            return true;
        }
    }
    false
}
