// What the words ask for, by what `clap` makes of them.
ghost use Rattle.std.specs.Prelude.{◌≡◌, ◌<◌, ◌≤◌, ◌^◌, ℕ, List, map, Some, IfOk, Err};
ghost use Rattle.std.specs.Prelude.{codes, option_map, option_and_then, IsSome};
ghost use Rattle.std.specs.String.{string_bytes};
ghost use Rattle.clap.specs.Words.{Text, subcommand_of, subcommand_rows_of};
ghost use Rattle.exact_cross.specs.declared.TheConstants.{MAX_EPSILON};
ghost use Rattle.options.specs.declared.index.TheConstants.{EPS, EPS_REC, MAX_WORKERS};
ghost use Rattle.command_line.specs.declared.request.TheConstants.{MAX_BATCH};
ghost use Rattle.command_line.specs.Commands.{application, request_for};
ghost use Rattle.command_line.specs.Requests.{asked_of, building_of, built_of, is_given, name_in};
ghost use Rattle.command_line.specs.Requests.{number_in, query_of, relax_of};
ghost use Rattle.command_line.specs.Requests.{searched_of, searching_of, replayed_of};
ghost use Rattle.command_line.specs.Requests.{mix_of, replaying_of, rows_in};
ghost use Rattle.command_line.specs.Words.{AreRefused, AreTaken, AskFor, request_of};
ghost use Rattle.command_line.specs.Passed.{AreIndexOptions, AreQueryOptions, AreReplayOptions};
ghost use Rattle.command_line.specs.Passed.{IsDimensionOption, IsFlag, IsNumberIn};
ghost use Rattle.command_line.specs.Passed.{IsPiecesOption, IsSendersOption};
ghost use Rattle.command_line.specs.Passed.{AreDrillOptions};
ghost use Rattle.command_line.specs.Requests.{drilled_of, drilling_of};
ghost use Rattle.command_line.specs.Requests.{checked_of, checking_of};
ghost use Rattle.command_line.specs.Passed.{AreHintOptions, IsNarrowOption};
ghost use Rattle.command_line.specs.Requests.{finding_of, found_by, hinted_of, hinting_of};

use crate::definition::application;
use crate::request::{
    Building, Checking, Drilling, Finding, Hinting, Replaying, Request, Searching,
};
use clap::ArgMatches;
use clap::error::ErrorKind;
use options::{Bounds, Drill, EPS, EPS_REC, Pieces, Plan, Senders, Table, Workers};
use std::alloc::{AllocError, Global};
use thiserror::Error;

/// Why words are no request.
#[derive(Clone, Copy, Debug, PartialEq, Eq, Error)]
pub enum NoRequest {
    /// They aren't those of a command.
    #[error("the words are no command")]
    Usage,
    /// Memory wasn't found.
    #[error("out of memory")]
    NoMemory,
}

impl From<AllocError> for NoRequest {
    ghost use Rattle.command_line.specs.declared.words.NoRequest.TheVariants.{NoMemory};

    ghost from_gives = { λ _ reason. reason ≡ NoMemory };

    fn from(_: AllocError) -> Self {
        NoRequest::NoMemory
    }
}

/// What the words ask for. The first of them is the program's name.
///
/// # Errors
///
/// `Usage` exactly where `clap`, by the definition of the command line, doesn't take the words: an
/// ask for help or for the version is no command. `NoMemory` where memory wasn't found.
pub fn requested<'a>(alloc: Global, words: &'a [String]) -> Result<Request<'a>, NoRequest>
    ensures asks { IfOk result (λ request. AskFor (map string_bytes words.now) (asked_of request)) }
    ensures usage { result ≡ Err NoRequest.Usage → AreRefused (map string_bytes words.now) }
{
    let program = application(alloc)?;
    match program.try_get_matches_from(words) {
        Ok(matches) => named_request(&matches).ok_or(NoRequest::Usage),
        Err(error) if error.kind() == ErrorKind::OutOfMemory => Err(NoRequest::NoMemory),
        Err(_) => Err(NoRequest::Usage),
    }
}

/// What was found for the command that was named. There is one.
fn named_request<'a>(matches: &ArgMatches<'a>) -> Option<Request<'a>>
    requires { (words : List Text) × AreTaken words
        × (subcommand_rows_of matches.now ≡ subcommand_of application words) }
    ensures { option_map asked_of result
        ≡ option_and_then (λ p. request_for p.0 p.1) (subcommand_rows_of matches.now) }
{
    let (name, found) = matches.subcommand()?;
    request_in(name, found)
}

/// What the command of a name asks for, by what was found for its arguments.
fn request_in<'a>(name: &str, found: &ArgMatches<'a>) -> Option<Request<'a>>
    requires { (words : List Text) × AreTaken words
        × (subcommand_of application words ≡ Some (name.now, rows_in found.now)) }
    ensures { option_map asked_of result ≡ request_for name.now (rows_in found.now) }
{
    if name == "build" {
        let building = building_in(found);
        Some(Request::Build { building })
    } else if name == "explain" {
        let building = building_in(found);
        Some(Request::Explain { building })
    } else if name == "query" {
        Some(query_in(found))
    } else if name == "relax" {
        Some(relax_in(found))
    } else if name == "box" {
        let searching = searching_in(found);
        Some(Request::Box { searching })
    } else if name == "near" {
        let searching = searching_in(found);
        Some(Request::Near { searching })
    } else if name == "replay" {
        let replaying = replaying_in(found);
        Some(Request::Replay { replaying })
    } else if name == "mix" {
        Some(mix_in(found))
    } else if name == "hints" {
        let hinting = hinting_in(found);
        Some(Request::Hints { hinting })
    } else if name == "find" {
        let finding = finding_in(found);
        Some(Request::Find { finding })
    } else if name == "drill" {
        let drilling = drilling_in(found);
        Some(Request::Drill { drilling })
    } else if name == "save" {
        let building = building_in(found);
        Some(Request::Save { building })
    } else if name == "check" {
        let checking = checking_in(found);
        Some(Request::Check { checking })
    } else {
        None
    }
}

fn query_in<'a>(found: &ArgMatches<'a>) -> Request<'a>
    requires index { AreIndexOptions (rows_in found.now) }
    requires options { AreQueryOptions (rows_in found.now) }
    ensures { asked_of result ≡ query_of (rows_in found.now) }
{
    Request::Query {
        building: building_in(found),
        script: name_in(found, "SCRIPT"),
        windows: is_given(found, "windows"),
        table: table_in(found),
    }
}

fn relax_in<'a>(found: &ArgMatches<'a>) -> Request<'a>
    requires index { AreIndexOptions (rows_in found.now) }
    requires pieces { IsPiecesOption (rows_in found.now) }
    ensures { asked_of result ≡ relax_of (rows_in found.now) }
{
    Request::Relax {
        building: building_in(found),
        script: name_in(found, "SCRIPT"),
        pieces: pieces_in(found),
    }
}

fn pieces_in(found: &ArgMatches<'_>) -> Pieces
    requires { IsPiecesOption (rows_in found.now) }
    ensures { result.count ≡ number_in (codes "pieces") 4 (rows_in found.now) }
{
    Pieces {
        count: number_in(found, "pieces", 4),
    }
}

fn table_in(found: &ArgMatches<'_>) -> Table
    requires { AreQueryOptions (rows_in found.now) }
    ensures { result.bits ≡ number_in (codes "buckets") 0 (rows_in found.now) }
{
    Table {
        bits: number_in(found, "buckets", 0),
    }
}

fn building_in<'a>(found: &ArgMatches<'a>) -> Building<'a>
    requires { AreIndexOptions (rows_in found.now) }
    ensures { built_of result ≡ building_of (rows_in found.now) }
{
    Building {
        file: name_in(found, "FILE"),
        narrow: is_given(found, "narrow"),
        bounds: bounds_in(found),
        workers: workers_in(found),
    }
}

fn searching_in<'a>(found: &ArgMatches<'a>) -> Searching<'a>
    requires { IsDimensionOption (rows_in found.now) }
    ensures { searched_of result ≡ searching_of (rows_in found.now) }
{
    Searching {
        file: name_in(found, "FILE"),
        script: name_in(found, "SCRIPT"),
        dims: number_in(found, "dims", 2),
    }
}

fn replaying_in<'a>(found: &ArgMatches<'a>) -> Replaying<'a>
    requires { AreReplayOptions (rows_in found.now) }
    ensures { replayed_of result ≡ replaying_of (rows_in found.now) }
{
    Replaying {
        script: name_in(found, "SCRIPT"),
        plan: plan_in(found),
    }
}

fn mix_in<'a>(found: &ArgMatches<'a>) -> Request<'a>
    requires replay { AreReplayOptions (rows_in found.now) }
    requires senders { IsSendersOption (rows_in found.now) }
    ensures { asked_of result ≡ mix_of (rows_in found.now) }
{
    Request::Mix {
        replaying: replaying_in(found),
        senders: senders_in(found),
    }
}

fn senders_in(found: &ArgMatches<'_>) -> Senders
    requires { IsSendersOption (rows_in found.now) }
    ensures { result.count ≡ number_in (codes "senders") 2 (rows_in found.now) }
{
    Senders {
        count: number_in(found, "senders", 2),
    }
}

fn hinting_in<'a>(found: &ArgMatches<'a>) -> Hinting<'a>
    requires { AreHintOptions (rows_in found.now) }
    ensures { hinted_of result ≡ hinting_of (rows_in found.now) }
{
    Hinting {
        file: name_in(found, "FILE"),
        narrow: is_given(found, "narrow"),
        eps: number_in(found, "eps", 32),
    }
}

fn finding_in<'a>(found: &ArgMatches<'a>) -> Finding<'a>
    requires { IsNarrowOption (rows_in found.now) }
    ensures { found_by result ≡ finding_of (rows_in found.now) }
{
    Finding {
        file: name_in(found, "FILE"),
        hints: name_in(found, "HINTS"),
        script: name_in(found, "SCRIPT"),
        narrow: is_given(found, "narrow"),
    }
}

fn drilling_in(found: &ArgMatches<'_>) -> Drilling
    requires { AreDrillOptions (rows_in found.now) }
    ensures { drilled_of result ≡ drilling_of (rows_in found.now) }
{
    Drilling {
        drill: drill_in(found),
        bounds: bounds_in(found),
        workers: workers_in(found),
    }
}

fn checking_in<'a>(found: &ArgMatches<'a>) -> Checking<'a>
    requires { IsNarrowOption (rows_in found.now) }
    ensures { checked_of result ≡ checking_of (rows_in found.now) }
{
    Checking {
        file: name_in(found, "FILE"),
        index: name_in(found, "INDEX"),
        narrow: is_given(found, "narrow"),
    }
}

fn bounds_in(found: &ArgMatches<'_>) -> Bounds
    requires eps { IsNumberIn 0 MAX_EPSILON (codes "eps") (rows_in found.now) }
    requires eps_rec { IsNumberIn 0 MAX_EPSILON (codes "rec") (rows_in found.now) }
    ensures eps { result.eps ≡ number_in (codes "eps") EPS (rows_in found.now) }
    ensures eps_rec { result.eps_rec ≡ number_in (codes "rec") EPS_REC (rows_in found.now) }
{
    Bounds {
        eps: number_in(found, "eps", EPS),
        eps_rec: number_in(found, "rec", EPS_REC),
    }
}

fn workers_in(found: &ArgMatches<'_>) -> Workers
    requires { IsNumberIn 1 MAX_WORKERS (codes "workers") (rows_in found.now) }
{
    Workers {
        count: number_in(found, "workers", 4),
    }
}

fn plan_in(found: &ArgMatches<'_>) -> Plan
    requires { AreReplayOptions (rows_in found.now) }
    ensures levels { result.levels ≡ number_in (codes "levels") 20 (rows_in found.now) }
    ensures batch { result.batch ≡ number_in (codes "batch") 16 (rows_in found.now) }
    ensures readers { result.readers
        ≡ number_in (codes "readers") 0 (rows_in found.now) }
    ensures few_updates { result.batch ≤ MAX_BATCH }
{
    Plan {
        levels: number_in(found, "levels", 20),
        batch: number_in(found, "batch", 16),
        readers: number_in(found, "readers", 0),
        workers: workers_in(found),
    }
}

fn drill_in(found: &ArgMatches<'_>) -> Drill
    requires { AreDrillOptions (rows_in found.now) }
    ensures number { result.number ≡ number_in (codes "N") 1 (rows_in found.now) }
    ensures seed { result.seed ≡ number_in (codes "SEED") 0 (rows_in found.now) }
{
    Drill {
        number: number_in(found, "N", 1),
        seed: number_in(found, "SEED", 0),
    }
}

/// The name that was given.
fn name_in<'a>(found: &ArgMatches<'a>, id: &str) -> &'a str
    ensures { result.now ≡ name_in id.now (rows_in found.now) }
{
    found.get_str(id).unwrap_or("")
}

/// The number of an option, or else its default.
fn number_in(found: &ArgMatches<'_>, id: &str, default: u32) -> u32
    requires { (least most : ℕ) × (most < 2 ^ 32)
        × IsNumberIn least most id.now (rows_in found.now) }
    ensures value { result ≡ number_in id.now default (rows_in found.now) }
    ensures range { (least most : ℕ) → most < 2 ^ 32 → least ≤ default → default ≤ most
        → IsNumberIn least most id.now (rows_in found.now)
        → (least ≤ result) × (result ≤ most) }
{
    found.get_one::<u32>(id).unwrap_or(default)
}

/// Whether a flag is given.
fn is_given(found: &ArgMatches<'_>, id: &str) -> bool
    requires { IsFlag id.now (rows_in found.now) }
    ensures { result ≡ is_given id.now (rows_in found.now) }
{
    found.get_flag(id)
}

/// Words that `clap` takes ask for something: each command of the definition is a request.
pub fn taken_words_ask()
    ensures { (words : List Text) → AreTaken words
        → IsSome (request_of words) }
{}
