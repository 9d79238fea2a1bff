//! The commands on files, by their words.

ghost use Rattle.std.specs.Prelude.{◌≡◌, map, option_copied, IfOk};
ghost use Rattle.command_words.specs.Subcommands.{subcommand_named, takes_limit, aggregates};
ghost use Rattle.command_words.specs.Told.{files_read, is_flag_told, limit_told, out_told, spill_told, value_told, values_told};

use crate::{BATCH, IN, LIMIT, OUT, SPILL};
use clap::ArgMatches;
use std::alloc::{AllocError, Global};

/// A command on files.
#[derive(Clone, Copy)]
pub enum Subcommand {
    New,
    Feed,
    Merge,
    Known,
    Answer,
}

impl Subcommand {
    /// The command of a name.
    pub fn named(name: &str) -> Option<Subcommand>
        ensures { result ≡ subcommand_named name.now }
    {
        match name {
            "new" => Some(Subcommand::New),
            "feed" => Some(Subcommand::Feed),
            "merge" => Some(Subcommand::Merge),
            "known" => Some(Subcommand::Known),
            "answer" => Some(Subcommand::Answer),
            _ => None,
        }
    }

    /// Whether it takes a limit and a file for what is spilled. An answer takes both, and they bound nothing: it merges groups, and
    /// needs no table.
    pub fn takes_limit(self) -> bool
        ensures { result ≡ takes_limit self }
    {
        match self {
            Subcommand::Feed | Subcommand::Merge | Subcommand::Answer => true,
            Subcommand::New | Subcommand::Known => false,
        }
    }

    /// Whether it aggregates, and so wants a seed, and can tell what that took.
    pub fn aggregates(self) -> bool
        ensures { result ≡ aggregates self }
    {
        matches!(self, Subcommand::Feed | Subcommand::Merge)
    }

    /// The file that it writes, if it writes one.
    pub fn out<'p>(self, matches: &ArgMatches<'p>) -> Option<&'p str>
        ensures { option_copied result ≡ out_told self matches.now }
    {
        match self {
            Subcommand::New | Subcommand::Feed | Subcommand::Merge => matches.get_str(OUT),
            Subcommand::Known | Subcommand::Answer => None,
        }
    }

    /// The limit that it tells.
    pub fn limit<'p>(self, matches: &ArgMatches<'p>) -> Option<&'p str>
        ensures { option_copied result ≡ limit_told self matches.now }
    {
        if !self.takes_limit() {
            return None;
        }
        matches.get_str(LIMIT)
    }

    /// The file for what is spilled that it tells.
    pub fn spill<'p>(self, matches: &ArgMatches<'p>) -> Option<&'p str>
        ensures { option_copied result ≡ spill_told self matches.now }
    {
        if !self.takes_limit() {
            return None;
        }
        matches.get_str(SPILL)
    }

    /// The summaries and batch files that it reads, in their order on the command line. The files that have the texts of `new` are not
    /// among them.
    pub fn files_read<'p>(
        self,
        alloc: Global,
        matches: &ArgMatches<'p>,
    ) -> Result<Vec<&'p str>, AllocError>
        ensures { IfOk result (λ paths. map (λ path. path.now) paths.items ≡ files_read self matches.now) }
    {
        let mut paths = Vec::new(alloc);
        match self {
            Subcommand::New => Ok(paths),
            Subcommand::Feed => {
                paths.push(value(matches, IN))?;
                paths.extend_from_slice(values(matches, BATCH))?;
                Ok(paths)
            }
            Subcommand::Merge => {
                paths.extend_from_slice(values(matches, IN))?;
                Ok(paths)
            }
            Subcommand::Known | Subcommand::Answer => {
                paths.push(value(matches, IN))?;
                Ok(paths)
            }
        }
    }
}

/// The value of an argument. The parser has seen to it that there is one.
pub fn value<'a>(matches: &ArgMatches<'a>, id: &str) -> &'a str
    ensures { result.now ≡ value_told matches.now id.now }
{
    matches.get_str(id).unwrap_or("")
}

/// The values of an argument, in their order on the command line.
pub fn values<'m, 'a>(matches: &'m ArgMatches<'a>, id: &str) -> &'m [&'a str]
    ensures { map (λ s. s.now) result.now ≡ values_told matches.now id.now }
{
    matches.get_strs(id).unwrap_or_default()
}

/// Whether a flag stands on the command line.
pub fn is_flag_told(matches: &ArgMatches<'_>, flag: &str) -> bool
    ensures { result ≡ is_flag_told matches.now flag.now }
{
    matches.get_one(flag).unwrap_or(false)
}
