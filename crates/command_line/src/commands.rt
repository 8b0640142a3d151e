//! The words that the program takes, as `clap` reads them.

ghost use Rattle.std.specs.Prelude.{◌≡◌, false, IfOk};
ghost use Rattle.clap.specs.Words.{App, app_of, with_rule, with_subcommand};
ghost use Rattle.clap.specs.declared.builder.command.Command.TheViews.{out-Command as fields_of};
ghost use Rattle.command_line.specs.Tasks.{article, bounds, deliveries, on_file, on_path, on_requests, option, orders, roll, roll_files, run, scripts, serve, serve_at_once, serve_in_turn, sheet, stockdesk, upgrade, with_both};

use clap::{Arg, ArgAction, Command};
use std::alloc::{AllocError, Global};

/// Returns a command with a file.
fn path_command<'a>(
    alloc: Global,
    name: &'a str,
    about: &'a str,
    help: &'a str,
) -> Result<Command<'a>, AllocError>
    ensures app { IfOk result (λ command. app_of command ≡ on_path name.entry.now) }
    ensures local { IfOk result (λ command. (fields_of command).has_globals ≡ false) }
{
    let file = Arg::new(alloc, "FILE")
        .help(help)
        .required(true)
        .action(ArgAction::Set);
    Command::new(alloc, name).about(about).arg(file)
}

/// Returns the command `run`, with its file or without.
fn run_command<'a>(alloc: Global) -> Result<Command<'a>, AllocError>
    ensures app { IfOk result (λ command. app_of command ≡ run) }
    ensures local { IfOk result (λ command. (fields_of command).has_globals ≡ false) }
{
    let file = Arg::new(alloc, "FILE")
        .help("The file of a desk; without it, a new desk in memory, which ends with the run")
        .action(ArgAction::Set);
    Command::new(alloc, "run")
        .about("Answers the lines of standard input, each by a line on standard output")
        .arg(file)
}

/// Returns a command with the file of a desk and one word more.
fn file_command<'a>(
    alloc: Global,
    name: &'a str,
    about: &'a str,
    second: &'a str,
    help: &'a str,
) -> Result<Command<'a>, AllocError>
    ensures app { IfOk result (λ command. app_of command ≡ on_file name.entry.now second.entry.now) }
    ensures local { IfOk result (λ command. (fields_of command).has_globals ≡ false) }
{
    let command = path_command(alloc, name, about, "The file of a desk")?;
    let more = Arg::new(alloc, second)
        .help(help)
        .required(true)
        .action(ArgAction::Set);
    command.arg(more)
}

/// Returns the command with one more below it, where that could be made.
fn with<'a>(
    command: Command<'a>,
    more: Result<Command<'a>, AllocError>,
) -> Result<Command<'a>, AllocError>
    ensures { IfOk result (λ both. (app : App) → IfOk more.entry (λ one. app_of one ≡ app)
        → IfOk more.entry (λ one. (fields_of one).has_globals ≡ false)
        → app_of both ≡ with_subcommand (app_of command.entry) app.top) }
{
    command.subcommand(more?)
}

/// Returns the program, with the commands of scripts.
fn with_scripts<'a>(alloc: Global) -> Result<Command<'a>, AllocError>
    ensures { IfOk result (λ command. app_of command ≡ scripts) }
{
    let program = Command::new(alloc, "stockdesk")
        .about("The stock desk of a chain of shops")
        .subcommand_required(true);
    let help = "A file that is not there or has no bytes; any other is left alone";
    let init = path_command(alloc, "init", "Makes a new desk in a file", help);
    let program = with(program, init)?;
    with(program, run_command(alloc))
}

/// Adds an option with a number; it must be given where it is required.
fn with_option<'a>(
    alloc: Global,
    command: Command<'a>,
    name: &'a str,
    required: bool,
    help: &'a str,
) -> Result<Command<'a>, AllocError>
    ensures app { IfOk result (λ more. app_of more ≡ with_rule (app_of command.entry) (option required name.entry.now)) }
    ensures local { (fields_of command.entry).has_globals ≡ false
        → IfOk result (λ more. (fields_of more).has_globals ≡ false) }
{
    let number = Arg::new(alloc, name)
        .long(name)
        .value_name("N")
        .help(help)
        .required(required)
        .action(ArgAction::Set);
    command.arg(number)
}

/// Returns a command with a file of requests, and an option that says how many are carried out together.
fn requests_command<'a>(
    alloc: Global,
    name: &'a str,
    about: &'a str,
    help: &'a str,
) -> Result<Command<'a>, AllocError>
    ensures app { IfOk result (λ command. app_of command ≡ on_requests name.entry.now) }
    ensures local { IfOk result (λ command. (fields_of command).has_globals ≡ false) }
{
    let command = file_command(alloc, name, about, "CSV", help)?;
    let help =
        "How many requests are kept together, 1 to 1000: their lines are written when all of them are kept";
    with_option(alloc, command, "together", false, help)
}

/// Adds the commands that read files of requests.
fn with_files<'a>(alloc: Global, command: Command<'a>) -> Result<Command<'a>, AllocError>
    ensures { IfOk result (λ all. app_of all
        ≡ with_subcommand (with_both (app_of command.entry) orders deliveries) bounds.top) }
{
    let about =
        "Answers the orders of a file, neighbouring lines of one key as one order, each by a line on standard output";
    let help = "A CSV file: key,order,until,way,branch,article,qty";
    let command = with(command, requests_command(alloc, "orders", about, help))?;
    let about = "Answers the deliveries of a file, each by a line on standard output";
    let help = "A CSV file: key,branch,article,qty";
    let command = with(command, requests_command(alloc, "deliveries", about, help))?;
    let about = "Gives fields the bounds of a file, each answered by a line on standard output";
    let help = "A CSV file: key,branch,article,lo,hi";
    with(command, requests_command(alloc, "bounds", about, help))
}

/// Adds the commands that write sheets.
fn with_sheets<'a>(alloc: Global, command: Command<'a>) -> Result<Command<'a>, AllocError>
    ensures { IfOk result (λ both. app_of both ≡ with_both (app_of command.entry) sheet article) }
{
    let about = "Writes the stock of a branch as a sheet, a line an article";
    let help = "The code of the branch";
    let command = with(command, file_command(alloc, "sheet", about, "BRANCH", help))?;
    let about = "Writes the stock of an article as a sheet, a line a branch";
    let help = "The code of the article";
    with(
        command,
        file_command(alloc, "article", about, "ARTICLE", help),
    )
}

/// Returns the command `serve`, with its file and the two options that must be given.
fn serve_in_turn_command<'a>(alloc: Global) -> Result<Command<'a>, AllocError>
    ensures app { IfOk result (λ command. app_of command ≡ serve_in_turn) }
    ensures local { IfOk result (λ command. (fields_of command).has_globals ≡ false) }
{
    let about = "Answers HTTP on 127.0.0.1, one connection after the other or many at once";
    let command = path_command(alloc, "serve", about, "The file of a desk")?;
    let help = "The port on 127.0.0.1, 0 to 65535; 0 is any that is free";
    let command = with_option(alloc, command, "port", true, help)?;
    let help = "How many connections are served before it ends, 1 to 1000000";
    with_option(alloc, command, "connections", true, help)
}

/// Returns the command `serve`, with its file and its four options for connections.
fn serve_at_once_command<'a>(alloc: Global) -> Result<Command<'a>, AllocError>
    ensures app { IfOk result (λ command. app_of command ≡ serve_at_once) }
    ensures local { IfOk result (λ command. (fields_of command).has_globals ≡ false) }
{
    let command = serve_in_turn_command(alloc)?;
    let help =
        "Serves many connections at once: so many messages at the most, 1 to 1000, are kept together, and their answers are written when all of them are kept";
    let command = with_option(alloc, command, "together", false, help)?;
    let help =
        "With --together, how many connections may be open at once, 1 to 4000; 1000 without it";
    with_option(alloc, command, "clients", false, help)
}

/// Returns the command `serve`, with its file and its five options.
fn serve_command<'a>(alloc: Global) -> Result<Command<'a>, AllocError>
    ensures app { IfOk result (λ command. app_of command ≡ serve) }
    ensures local { IfOk result (λ command. (fields_of command).has_globals ≡ false) }
{
    let command = serve_at_once_command(alloc)?;
    let help =
        "With --together, ends once so many places of the desk are taken or set aside, 1 to 200000; a desk that has so many at the beginning is served all the same";
    with_option(alloc, command, "places", false, help)
}

/// Adds the commands that serve connections and upgrade a desk.
fn with_service<'a>(alloc: Global, command: Command<'a>) -> Result<Command<'a>, AllocError>
    ensures { IfOk result (λ both. app_of both ≡ with_both (app_of command.entry) serve upgrade) }
{
    let command = with(command, serve_command(alloc))?;
    let about = "Makes a desk of this version of one of an earlier version";
    let help = "The file of a desk of an earlier version; one of this version is left alone";
    with(command, path_command(alloc, "upgrade", about, help))
}

/// Returns the command `roll`, with its two files.
fn roll_files_command<'a>(alloc: Global) -> Result<Command<'a>, AllocError>
    ensures app { IfOk result (λ command. app_of command ≡ roll_files) }
    ensures local { IfOk result (λ command. (fields_of command).has_globals ≡ false) }
{
    let old = Arg::new(alloc, "OLD")
        .help("The file of a desk")
        .required(true)
        .action(ArgAction::Set);
    let new = Arg::new(alloc, "NEW")
        .help("A file that is not there")
        .required(true)
        .action(ArgAction::Set);
    let about = "Makes a desk in a new file that goes on in place of one that fills up";
    Command::new(alloc, "roll").about(about).arg(old)?.arg(new)
}

/// Returns the command `roll`, with its two files and its option.
fn roll_command<'a>(alloc: Global) -> Result<Command<'a>, AllocError>
    ensures app { IfOk result (λ command. app_of command ≡ roll) }
    ensures local { IfOk result (λ command. (fields_of command).has_globals ≡ false) }
{
    let command = roll_files_command(alloc)?;
    let help = "How many of the last keys the new desk knows, 0 to 200000; 100000 without it";
    with_option(alloc, command, "keys", false, help)
}

/// Returns the words that the program takes.
pub fn command<'a>(alloc: Global) -> Result<Command<'a>, AllocError>
    ensures { IfOk result (λ command. app_of command ≡ stockdesk) }
{
    let command = with_scripts(alloc)?;
    let command = with_files(alloc, command)?;
    let command = with_sheets(alloc, command)?;
    let command = with_service(alloc, command)?;
    with(command, roll_command(alloc))
}
