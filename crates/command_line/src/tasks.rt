//! What the words after the program's name ask for.

ghost use Rattle.std.specs.Prelude.{◌≡◌, ◌<◌, ◌≤◌, ◌^◌, Some, None, codes, ℕ, List, Option, true, decimal, map, option_map, IfErr, IfOk, IfSome, IsSome};
ghost use Rattle.std.specs.Int.NonZero.{non_zero_usize_get};
ghost use Rattle.clap.specs.Words.{Row, Text, first_of, found_of, kind_of, rows_of, subcommand_of, subcommand_rows_of, takes};
ghost use Rattle.escrow.specs.Codes.{IsArticle, IsBranch};
ghost use Rattle.std.specs.declared.num.NonZeroUsize.{NonZeroUsize};
ghost use Rattle.command_line.specs.Tasks.{AreAtMost, AreWordsFor, Asks, AsksAtMost, AsksFor, AsksForRollOver, AsksForService, AsksForWork, AsksTogether, IsAtOnce, IsFew, IsService, Takes, TakesOn, TakesOnOne, TakesService, TakesWork, command_of, stockdesk};
ghost use Rattle.command_line.specs.declared.work.AtOnce.{AtOnce};
ghost use Rattle.command_line.specs.declared.work.Service.{Service};
ghost use Rattle.command_line.specs.declared.work.Kind.{Kind};
ghost use Rattle.command_line.specs.declared.rolls.RollOver.{RollOver};
ghost use Rattle.command_line.specs.declared.tasks.Task.{Task};

use crate::commands::command;
use crate::rolls::{RollOver, keys_asked};
use crate::work::{AtOnce, Kind, Service, SheetOf, Work};
use clap::error::ErrorKind;
use clap::{ArgMatches, Error};
use escrow::{Article, Branch};
use std::alloc::Global;
use std::num::NonZeroUsize;
use words::read_number;

/// How many connections can be served, at the most.
const MAX_CONNECTIONS: u32 = 1_000_000;

/// How many requests can be carried out together, at the most.
const MAX_TOGETHER: usize = 1_000;

/// How many connections may be open at once, at the most.
const MAX_CLIENTS: usize = 4_000;

/// How many places a desk has.
const MAX_PLACES: usize = 200_000;

/// What the words ask for.
#[derive(Clone, Copy)]
pub enum Task<'a> {
    /// To make a new desk in this file.
    Init(&'a str),
    /// To make the desk in this file one of the newest version.
    Upgrade(&'a str),
    /// To make a desk in a new file that goes on in place of one.
    Roll(RollOver<'a>),
    /// To play a script on a new desk in memory.
    InMemory,
    /// To do this work on the desk in this file.
    InFile(&'a str, Work<'a>),
}

/// Returns the sheet of the branch that a word names.
fn branch_named(word: &str) -> Option<SheetOf>
    ensures named { IfSome result (λ of. of ≡ SheetOf.Branch word.now) }
    ensures taken { IsBranch word.now → IsSome result }
{
    let branch = Branch::read(word.as_bytes()).ok()?;
    Some(SheetOf::Branch(branch))
}

/// Returns the sheet of the article that a word names.
fn article_named(word: &str) -> Option<SheetOf>
    ensures named { IfSome result (λ of. of ≡ SheetOf.Article word.now) }
    ensures taken { IsArticle word.now → IsSome result }
{
    let article = Article::read(word.as_bytes()).ok()?;
    Some(SheetOf::Article(article))
}

/// Returns the port that a word spells.
fn port_named(word: &str) -> Option<u16>
    ensures named { IfSome result (λ port. word.now ≡ decimal port) }
    ensures taken { (port : ℕ) → port < 2 ^ 16 → word.now ≡ decimal port → IsSome result }
{
    let number = read_number(word.as_bytes())?;
    u16::try_from(number).ok()
}

/// Returns how many connections a word asks for.
fn connections_named(word: &str) -> Option<u32>
    ensures named { IfSome result (λ count. (word.now ≡ decimal count) × (1 ≤ count) × (count ≤ 1000000)) }
    ensures taken { (count : ℕ) → 1 ≤ count → count ≤ 1000000 → word.now ≡ decimal count → IsSome result }
{
    let number = read_number(word.as_bytes())?;
    let count = u32::try_from(number).ok()?;
    if 1 <= count && count <= MAX_CONNECTIONS {
        Some(count)
    } else {
        None
    }
}

/// Returns the service that two words ask for.
fn service_named(port: &str, connections: &str) -> Option<Service>
    ensures named { IfSome result (IsService port.now connections.now) }
    ensures taken { (service : Service) → IsService port.now connections.now service → IsSome result }
{
    let port = port_named(port)?;
    let connections = connections_named(connections)?;
    Some(Service { port, connections })
}

/// Returns the word that was found by that name.
fn word<'a>(found: &ArgMatches<'a>, name: &str) -> Option<&'a str>
    ensures { option_map (λ s. s.now) result ≡ first_of name.now (rows_of (found_of found.now)) }
{
    found.get_str(name)
}

/// Returns which kind of file a command reads.
fn kind_named(name: &str) -> Option<Kind>
    ensures named { IfSome result (λ kind. name.now ≡ command_of kind) }
    ensures taken { (kind : Kind) → name.now ≡ command_of kind → IsSome result }
{
    match name {
        "orders" => Some(Kind::Orders),
        "deliveries" => Some(Kind::Deliveries),
        "bounds" => Some(Kind::Bounds),
        _ => None,
    }
}

/// Returns how many a word asks for, at most `most`.
fn count_named(word: &str, most: usize) -> Option<NonZeroUsize>
    requires { most ≤ 200000 }
    ensures named { IfSome result (λ count. (word.now ≡ decimal (non_zero_usize_get count))
        × (non_zero_usize_get count ≤ most)) }
    ensures taken { (count : ℕ) → 1 ≤ count → count ≤ most → word.now ≡ decimal count → IsSome result }
{
    let number = read_number(word.as_bytes())?;
    let count = usize::try_from(number).ok()?;
    if count <= most {
        NonZeroUsize::new(count)
    } else {
        None
    }
}

/// Returns how many the word asks for, if there is a word, at most `limit`; `None` where the word is no such number.
fn most_asked(word: Option<&str>, limit: usize) -> Option<Option<NonZeroUsize>>
    requires { limit ≤ 200000 }
    ensures named { IfSome result (AsksAtMost limit (option_map (λ s. s.now) word.entry)) }
    ensures taken { (most : Option NonZeroUsize) → AsksAtMost limit (option_map (λ s. s.now) word.entry) most
        → AreAtMost limit most → IsSome result }
{
    match word {
        Some(word) => Some(Some(count_named(word, limit)?)),
        None => Some(None),
    }
}

/// Returns the sheet of a branch that is asked for; `None` where the word for the branch is no code.
fn branch_sheet_found<'a>(found: &ArgMatches<'a>) -> Option<Work<'a>>
    ensures asked { IfSome result (AsksForWork (codes "sheet") (rows_of (found_of found.now))) }
    ensures taken { (branch : Text) → first_of (codes "BRANCH") (rows_of (found_of found.now)) ≡ Some branch
        → IsBranch branch → IsSome result }
{
    let branch = word(found, "BRANCH")?;
    Some(Work::Sheet(branch_named(branch)?))
}

/// Returns the sheet of an article that is asked for; `None` where the word for the article is no code.
fn article_sheet_found<'a>(found: &ArgMatches<'a>) -> Option<Work<'a>>
    ensures asked { IfSome result (AsksForWork (codes "article") (rows_of (found_of found.now))) }
    ensures taken { (code : Text) → first_of (codes "ARTICLE") (rows_of (found_of found.now)) ≡ Some code
        → IsArticle code → IsSome result }
{
    let article = word(found, "ARTICLE")?;
    Some(Work::Sheet(article_named(article)?))
}

/// Returns how many three words ask for: in a round, at once, and of places.
fn at_once_named(together: &str, clients: Option<&str>, places: Option<&str>) -> Option<AtOnce>
    ensures named { IfSome result (IsAtOnce together.now (option_map (λ s. s.now) clients.entry)
        (option_map (λ s. s.now) places.entry)) }
    ensures taken { (at_once : AtOnce) → IsAtOnce together.now (option_map (λ s. s.now) clients.entry)
        (option_map (λ s. s.now) places.entry) at_once → IsFew (Some at_once.together)
        → AreAtMost 4000 at_once.clients → AreAtMost 200000 at_once.places → IsSome result }
{
    let together = count_named(together, MAX_TOGETHER)?;
    let clients = most_asked(clients, MAX_CLIENTS)?;
    let places = most_asked(places, MAX_PLACES)?;
    Some(AtOnce {
        together,
        clients,
        places,
    })
}

/// Returns the port and the number of connections that are asked for; `None` where a word for them is no such number.
fn service_found<'a>(found: &ArgMatches<'a>) -> Option<Service>
    ensures asked { IfSome result (AsksForService (rows_of (found_of found.now))) }
    ensures taken { (service : Service) → AsksForService (rows_of (found_of found.now)) service → IsSome result }
{
    let port = word(found, "port")?;
    let connections = word(found, "connections")?;
    service_named(port, connections)
}

/// Returns the service that is asked for, of one connection after the other or of many at once. `None` where a word for
/// it is no such number, or says for connections that are served one after the other how many may be open at once or
/// with how many places the service ends.
fn serving_found<'a>(found: &ArgMatches<'a>) -> Option<Work<'a>>
    ensures asked { IfSome result (AsksForWork (codes "serve") (rows_of (found_of found.now))) }
    ensures taken { TakesService (rows_of (found_of found.now)) (IsSome result) }
{
    let service = service_found(found)?;
    let clients = word(found, "clients");
    let places = word(found, "places");
    match word(found, "together") {
        Some(together) => {
            let at_once = at_once_named(together, clients, places)?;
            Some(Work::ServeAtOnce(service, at_once))
        }
        None => match (clients, places) {
            (None, None) => Some(Work::Serve(service)),
            _ => None,
        },
    }
}

/// Returns the file of requests of this kind that is asked for; `None` where the word for how many together is no such
/// number.
fn requests_found<'a>(kind: Kind, found: &ArgMatches<'a>) -> Option<Work<'a>>
    ensures asked { IfSome result (AsksForWork (command_of kind) (rows_of (found_of found.now))) }
    ensures taken { (csv : Text) (together : Option NonZeroUsize)
        → first_of (codes "CSV") (rows_of (found_of found.now)) ≡ Some csv
        → AsksTogether (first_of (codes "together") (rows_of (found_of found.now))) together → IsFew together
        → IsSome result }
{
    let csv = word(found, "CSV")?;
    let together = most_asked(word(found, "together"), MAX_TOGETHER)?;
    Some(Work::Requests(kind, csv, together))
}

/// Returns the work that a command asks for; `None` where a word after it is no code or number.
fn work_named<'a>(name: &str, found: &ArgMatches<'a>) -> Option<Work<'a>>
    ensures asked { IfSome result (AsksForWork name.now (rows_of (found_of found.now))) }
    ensures taken { TakesWork name.now (rows_of (found_of found.now)) (IsSome result) }
{
    match name {
        "run" => Some(Work::Script),
        "sheet" => branch_sheet_found(found),
        "article" => article_sheet_found(found),
        "serve" => serving_found(found),
        _ => requests_found(kind_named(name)?, found),
    }
}

/// Returns the task that a command with the file of a desk asks for; `None` where a word after it is no code or number.
fn task_on<'a>(name: &str, path: &'a str, found: &ArgMatches<'a>) -> Option<Task<'a>>
    ensures asked { IfSome result (λ task. first_of (codes "FILE") (rows_of (found_of found.now)) ≡ Some path.entry.now
        → AsksFor name.now (rows_of (found_of found.now)) task) }
    ensures taken { TakesOn name.now (rows_of (found_of found.now)) (IsSome result) }
{
    match name {
        "init" => Some(Task::Init(path)),
        "upgrade" => Some(Task::Upgrade(path)),
        _ => match work_named(name, found) {
            Some(work) => Some(Task::InFile(path, work)),
            None => None,
        },
    }
}

/// Returns the task on one desk that a command asks for; `None` where a word after it is no code or number. Only `run`
/// may be without a file: then the desk is in memory.
fn task_on_one<'a>(name: &str, found: &ArgMatches<'a>) -> Option<Task<'a>>
    ensures asked { IfSome result (AsksFor name.now (rows_of (found_of found.now))) }
    ensures taken { TakesOnOne name.now (rows_of (found_of found.now)) (IsSome result) }
{
    match word(found, "FILE") {
        Some(path) => task_on(name, path, found),
        None => match name {
            "run" => Some(Task::InMemory),
            _ => None,
        },
    }
}

/// Returns the roll-over that is asked for; `None` where the word for how many keys is no such number.
fn roll_over_found<'a>(found: &ArgMatches<'a>) -> Option<RollOver<'a>>
    ensures asked { IfSome result (AsksForRollOver (rows_of (found_of found.now))) }
    ensures taken { (roll_over : RollOver) → AsksForRollOver (rows_of (found_of found.now)) roll_over → IsSome result }
{
    let old = word(found, "OLD")?;
    let new = word(found, "NEW")?;
    let keys = keys_asked(word(found, "keys"))?;
    Some(RollOver { old, new, keys })
}

/// Returns the task that a command asks for, by its name and the words after it; `None` where a word after it is no
/// code or number.
fn task_named<'a>(name: &str, found: &ArgMatches<'a>) -> Option<Task<'a>>
    ensures asked { IfSome result (AsksFor name.now (rows_of (found_of found.now))) }
    ensures taken { Takes name.now (rows_of (found_of found.now)) (IsSome result) }
{
    match name {
        "roll" => Some(Task::Roll(roll_over_found(found)?)),
        _ => task_on_one(name, found),
    }
}

/// Returns the task that the words have been read as.
fn task_of<'a>(matches: &ArgMatches<'a>) -> Option<Task<'a>>
    ensures asked { IfSome result (Asks (subcommand_rows_of matches.now)) }
    ensures taken { (name : Text) (rows : List Row) → subcommand_rows_of matches.now ≡ Some (name, rows)
        → Takes name rows (IsSome result) }
{
    match matches.subcommand() {
        Some((name, found)) => task_named(name, found),
        None => None,
    }
}

/// Returns the task that the words ask for; the first word is the program's name. Reading words that the program takes
/// fails only for want of memory. So does reading the words for a task as they are written out, and these give a task
/// that they ask for.
pub fn read_task<'a>(alloc: Global, words: &'a [&'a str]) -> Result<Option<Task<'a>>, Error>
    ensures asks { IfOk result (λ task. IfSome task
        (Asks (subcommand_of stockdesk (map (λ s. s.now) words.entry.now)))) }
    ensures given { (task : Task) → AreWordsFor task (map (λ s. s.now) words.entry.now)
        → Asks (subcommand_of stockdesk (map (λ s. s.now) words.entry.now)) task }
    ensures asked { (task : Task) → AreWordsFor task (map (λ s. s.now) words.entry.now) → IfOk result IsSome }
    ensures run { AreWordsFor Task.InMemory (map (λ s. s.now) words.entry.now)
        → IfOk result (λ task. task ≡ Some Task.InMemory) }
    ensures taken { takes stockdesk (map (λ s. s.now) words.entry.now) ≡ true
        → IfErr result (λ error. kind_of error ≡ ErrorKind.OutOfMemory) }
    ensures written { (task : Task) → AreWordsFor task (map (λ s. s.now) words.entry.now)
        → IfErr result (λ error. kind_of error ≡ ErrorKind.OutOfMemory) }
{
    let matches = command(alloc)?.try_get_matches_from(words)?;
    Ok(task_of(&matches))
}
