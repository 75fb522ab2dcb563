//! The commands of the program with their arguments and help, as clap reads them.
ghost use Rattle.std.specs.Prelude.{◌≡◌, IfOk, true};
ghost use Rattle.clap.specs.Words.{app_of};
ghost use Rattle.tsdb.specs.CommandLines.{program_app, replay_app, faults_app, inspect_app, serve_app, IsCommand, IsArgument, port_rule, requests_rule, settings_rule, image_argument_rule, lines_rule};

use clap::{Arg, ArgAction, Command, value_parser};
use std::alloc::{AllocError, Global};

const VERSION: &str = "0.1.0";

const ABOUT: &str = "A time series database of integers, for scripts and over HTTP";

const SCRIPTS: &str = "\
A script has one command per line. Blank lines and lines that begin with # are skipped.

  settings JSON  sets durations and rollup rules; only as the first command:
                 {\"raw\":\"2m\",\"rules\":[{\"name\":\"m1\",\"measurement\":\"M\",\"interval\":\"1m\",\"offset\":\"0s\",
                 \"keep\":[\"TAG\"],\"duration\":\"INF\"}]} keeps raw points for 2 minutes, and one cell of M per
                 minute and value of TAG forever.
  at N[UNIT]     sets the moment, which stands for the current time, initially 0. UNIT is ns, u, µ, ms, s,
                 m, h, d or w; without one, N is in nanoseconds since the Unix epoch.
  precision P    sets the unit of timestamps, initially ns: ns, n, u, ms, s, m or h.
  epoch U        sets the format of times in replies: text (initially) is RFC 3339 in UTC; ns, n, u, µ,
                 ms, s, m or h is a number of whole units since the Unix epoch.
  write LINE     writes a line of line protocol, `M[,TAG=VALUE..] F=Vi[,F=Vi..] [T]`: measurement M,
                 fields F with integers V, time T or else the moment. Prints ok, or none for a
                 comment or a blank line. After a fault, printed with its offset, nothing is written.
  retain         drops raw points and cells that have expired at the moment, and prints from
                 where on there are raw points (marks NANOSECONDS) and cells (NAME=BUCKET).
  begin          begins such a retention run, to be taken in steps, and prints the same. Prints
                 fault 53 if a run is in progress.
  step           takes the next step of the run: prints moved, or done if no step is left after it.
  reload         saves the store to memory, loads it back, and prints ok. No later answer changes.
  rule JSON      adds a rollup rule, in the form that `settings` has, and prints NAME=BUCKET: its first
                 bucket, the first that starts at or above the raw mark. Cells of points that are there
                 are created at once. Also allowed during a run.
  drop NAME      drops a rule with its cells, and prints ok, or fault 8 if no rule has this name. Also
                 allowed during a run.
  live           prints the number of raw points. Each field of a line counts; a replaced value counts
                 once.
  query TEXT     prints the JSON reply to up to 16 statements of InfluxQL, separated by `;`:
                 `SELECT FUNCTION(F)[ AS NAME][,..] FROM M WHERE time >= A [AND time < B] [AND TAG = 'V' ..]
                 GROUP BY time(DURATION[, OFFSET])[, TAG ..] [fill(null|none|previous|N)]`, of one field F.
                 The functions are COUNT, SUM, MIN, MAX, FIRST, LAST and MEAN.
  explain TEXT   prints the plans of the statements instead: which raw points and cells they read.
  cert TEXT      gives the plan for the next query, instead of its own; `;` stands for each line end.
  count M F A B  prints the number of points of field F of measurement M from time A on and before
                 time B, in nanoseconds. A point that was written again counts once.

Errors are printed as `fault` and a number, out of memory as `fault memory`; the script continues with
its next line.

Example:

  printf 'write door opened=1i 5\\nwrite door opened=2i 8\\ncount door opened 0 8\\n' | tsdb replay

prints ok, ok and 1.

`tsdb faults` prints what each fault means, `tsdb faults N` only fault N.
`tsdb serve SETTINGS IMAGE PORT REQUESTS` answers HTTP requests; see `tsdb serve --help`.
`tsdb inspect IMAGE` prints what a saved store holds; see `tsdb inspect --help`.";

const NOTES: &str = "\
A connection has one request: POST /write, GET or POST /query, or /ping, as in InfluxDB 1.x; POST /maintain, which
runs retention; or POST or DELETE /rules, which adds or drops a rollup rule. The moment is the time of
the machine's clock. A client that takes longer than 10 seconds is disconnected.

If the file IMAGE exists, the store is loaded from it, with the settings that it was saved with, and SETTINGS isn't
read. The store is saved after each /maintain and /rules that is answered with 200, and at the end: to IMAGE.new,
which then replaces IMAGE. Lines written since the last save are lost if the program is killed. A second server of
the same IMAGE is refused, by a lock on IMAGE.lock.

Standard error says where it listens and whether IMAGE was loaded. It has a line for each save that fails, and for the
first refused body of each minute.

Example:

  tsdb serve settings.json image 8086 0";

const INSPECTION: &str = "\
Reads the image and changes nothing; a store that is being served may be inspected too. Prints one JSON object:

  version, bytes      the version of the image's form, and its size
  settings            the settings that it was saved with, in the form of `serve`'s SETTINGS
  raw_mark            the time from which on all raw points are kept, in nanoseconds since the Unix epoch
  rules               of each rule its name, its low index (its first whole bucket) and its cells of dropped points
  run_open            true if a retention run is in progress, and waiting_columns: those that it hasn't moved yet
  accepted            the values that were accepted, repeats counted
  series, columns, raw_points    their numbers
  without_rule        the measurements that no rule rolls up: once dropped, their points are gone

With --lines it prints each raw point as a line of line protocol with its time in nanoseconds instead: the series in
the order of their names, each column oldest point first. Written into a new store, before retention runs there, the
lines give the same raw points. Cells of dropped points can't be written as lines. If a name of the image can't stand
in a line, nothing is printed.

An image at fault is reported in one line on standard error, as `tsdb serve` reports it, with status 1.

Example:

  tsdb inspect --lines image | gzip > points.gz";

/// Creates the program's command, with its subcommands.
pub fn program<'a>(alloc: Global) -> Result<Command<'a>, AllocError>
    ensures { IfOk result (λ c. app_of c ≡ program_app) }
{
    Command::new(alloc, "tsdb")
        .version(VERSION)
        .about(ABOUT)
        .after_help(SCRIPTS)
        .subcommand_required(true)
        .arg_required_else_help(true)
        .subcommand(replay(alloc))?
        .subcommand(faults(alloc)?)?
        .subcommand(inspect(alloc)?)?
        .subcommand(serve(alloc)?)
}

fn replay<'a>(alloc: Global) -> Command<'a>
    ensures { IsCommand replay_app result }
{
    Command::new(alloc, "replay")
        .about("Runs a script from standard input, and prints its answers")
        .after_help(SCRIPTS)
}

fn faults<'a>(alloc: Global) -> Result<Command<'a>, AllocError>
    ensures { IfOk result (IsCommand faults_app) }
{
    let number = Arg::new(alloc, "N").help("The number of the fault to print");
    Command::new(alloc, "faults")
        .about("Prints what the number of each fault means")
        .arg(number)
}

fn inspect<'a>(alloc: Global) -> Result<Command<'a>, AllocError>
    ensures { IfOk result (IsCommand inspect_app) }
{
    Command::new(alloc, "inspect")
        .about("Prints what the image of a store holds")
        .after_help(INSPECTION)
        .arg(lines(alloc))?
        .arg(inspected(alloc))
}

fn serve<'a>(alloc: Global) -> Result<Command<'a>, AllocError>
    ensures { IfOk result (IsCommand serve_app) }
{
    Command::new(alloc, "serve")
        .about("Answers HTTP requests on 127.0.0.1, one after another")
        .after_help(NOTES)
        .arg(settings(alloc))?
        .arg(image(alloc))?
        .arg(port(alloc))?
        .arg(requests(alloc))
}

fn settings<'a>(alloc: Global) -> Arg<'a>
    ensures { IsArgument settings_rule result }
{
    Arg::new(alloc, "SETTINGS").required(true).help(
        "A file with the settings, in the form of the script command `settings`",
    )
}

fn image<'a>(alloc: Global) -> Arg<'a>
    ensures { IsArgument image_argument_rule result }
{
    Arg::new(alloc, "IMAGE").required(true).help(
        "The file that the store is saved in; created if it doesn't exist",
    )
}

fn inspected<'a>(alloc: Global) -> Arg<'a>
    ensures { IsArgument image_argument_rule result }
{
    Arg::new(alloc, "IMAGE")
        .required(true)
        .help("The file that a store was saved in")
}

fn lines<'a>(alloc: Global) -> Arg<'a>
    ensures { IsArgument lines_rule result }
{
    Arg::new(alloc, "lines")
        .long("lines")
        .action(ArgAction::SetTrue)
        .help("Prints the raw points as line protocol")
}

fn port<'a>(alloc: Global) -> Arg<'a>
    ensures { IsArgument port_rule result }
{
    Arg::new(alloc, "PORT")
        .required(true)
        .value_parser(value_parser!(u16).range(1..))
        .help("The port of 127.0.0.1 to listen on")
}

fn requests<'a>(alloc: Global) -> Arg<'a>
    ensures { IsArgument requests_rule result }
{
    Arg::new(alloc, "REQUESTS")
        .required(true)
        .value_parser(value_parser!(u64))
        .help("The number of connections to serve before it ends, 0 for no end")
}
