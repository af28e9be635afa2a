//! What the options of the command `stats` ask for.
ghost use Rattle.std.specs.Prelude.{◌≡◌, ◌&&◌, [], Some, is_some, map, option_map};
ghost use Rattle.gs_figure_sheets.specs.Choices.{spelled};
ghost use Rattle.gs_program.specs.Options.{given_of, options_of};
ghost use Rattle.gossip_sim.specs.StatsWishes.{adding, are_name_bytes, fits, form_by, form_given, group_in, group_of, group_of_value, groups_from, has_groups, has_messages, if_fitting, is_group_name, is_name_byte, is_taken, is_without, subject_by, subject_given, wishes_for, wishes_of, with_group};

use crate::picture::choice_of;
use arrayvec::ArrayVec;
use gs_figure_sheets::{Choice, Subject};
use gs_program::{GivenOption, LARGE, OptionRule, Options, PROGRESS};

/// How the command is called.
pub const USAGE: &str =
    "usage: gossip_stats [--large] [--progress] [--by PEERS|--rounds|--topics|--links] [--of PEERS] \
    [--group NAME=PEERS].. [--csv|--json]\n";

/// The options that it takes.
pub const OPTIONS: [OptionRule; 10] = [
    LARGE,
    PROGRESS,
    OptionRule {
        name: "--by",
        has_value: true,
        most: 1,
    },
    OptionRule {
        name: "--of",
        has_value: true,
        most: 1,
    },
    OptionRule {
        name: "--group",
        has_value: true,
        most: 16,
    },
    OptionRule {
        name: "--rounds",
        has_value: false,
        most: 1,
    },
    OptionRule {
        name: "--topics",
        has_value: false,
        most: 1,
    },
    OptionRule {
        name: "--links",
        has_value: false,
        most: 1,
    },
    OptionRule {
        name: "--csv",
        has_value: false,
        most: 1,
    },
    OptionRule {
        name: "--json",
        has_value: false,
        most: 1,
    },
];

/// How many groups there may be.
pub const MOST_GROUPS: usize = 16;

/// How figures are written, if not as tables for a person.
#[derive(Clone, Copy, Debug, PartialEq, Eq)]
pub enum Form {
    Csv,
    Json,
}

/// A group of peers that is asked for.
#[derive(Clone, Copy, Debug, Default)]
pub struct Named<'a> {
    pub name: &'a str,
    /// Which peers are in it, as a choice names them.
    pub peers: &'a str,
}

/// The groups that are asked for.
pub type Groups<'a> = ArrayVec<Named<'a>, MOST_GROUPS>;

/// What is asked for of a run.
#[derive(Drop)]
pub struct Asked<'a> {
    /// Which messages count: those that these peers published first.
    pub by: Choice<'a>,
    /// Which traces count: those of these peers.
    pub among: Choice<'a>,
    /// Groups of peers, in the order in which they were given.
    pub groups: ArrayVec<Named<'a>, MOST_GROUPS>,
    /// What the figures are about. None means the run as a whole.
    pub subject: Option<Subject>,
    /// How the figures are written. None means tables for a person.
    pub form: Option<Form>,
}

/// Returns what options ask for: all of a run, as tables, where there are none. Returns None where one names no group, where
/// two exclude each other, or where one would change nothing.
pub fn asked_by<'a>(options: &Options<'a>) -> Option<Asked<'a>>
    ensures { option_map wishes_of result ≡ wishes_for (options_of options.now) }
{
    let groups = groups_from(no_groups(), options.given.as_slice())?;
    let subject = subject_of(options)?;
    let form = form_of(options)?;
    if_fitting(Asked {
        by: choice_of(options.value("--by")),
        among: choice_of(options.value("--of")),
        groups,
        subject,
        form,
    })
}

fn subject_of(options: &Options<'_>) -> Option<Option<Subject>>
    ensures { result ≡ subject_given (options_of options.now) }
{
    subject_by(
        options.has("--rounds"),
        options.has("--topics"),
        options.has("--links"),
    )
}

/// The subject that one of the options names. None where more than one does.
fn subject_by(rounds: bool, topics: bool, links: bool) -> Option<Option<Subject>>
    ensures { result ≡ subject_by rounds topics links }
{
    match (rounds, topics, links) {
        (false, false, false) => Some(None),
        (true, false, false) => Some(Some(Subject::Rounds)),
        (false, true, false) => Some(Some(Subject::Topics)),
        (false, false, true) => Some(Some(Subject::Links)),
        (true, true, _) | (true, false, true) | (false, true, true) => None,
    }
}

fn form_of(options: &Options<'_>) -> Option<Option<Form>>
    ensures { result ≡ form_given (options_of options.now) }
{
    form_by(options.has("--csv"), options.has("--json"))
}

/// The form that one of the options names. None where both do.
fn form_by(csv: bool, json: bool) -> Option<Option<Form>>
    ensures { result ≡ form_by csv json }
{
    match (csv, json) {
        (false, false) => Some(None),
        (true, false) => Some(Some(Form::Csv)),
        (false, true) => Some(Some(Form::Json)),
        (true, true) => None,
    }
}

/// What is asked for, if each part of it changes the sheets.
fn if_fitting<'a>(asked: Asked<'a>) -> Option<Asked<'a>>
    ensures { option_map wishes_of result ≡ if_fitting (wishes_of asked.entry) }
{
    if fits(&asked) {
        return Some(asked);
    }
    None
}

fn fits(asked: &Asked<'_>) -> bool
    ensures { result ≡ fits (wishes_of asked.now) }
{
    (has_messages(asked.subject) || !is_named(asked.by))
        && (has_groups(asked.subject) || is_without(asked.groups.as_slice()))
}

fn is_named(choice: Choice<'_>) -> bool
    ensures { result ≡ is_some (spelled choice.entry) }
{
    match choice {
        Choice::Any => false,
        Choice::Named(_) => true,
    }
}

fn is_without(groups: &[Named<'_>]) -> bool
    ensures { result ≡ is_without (map group_of groups.now) }
{
    match groups {
        [] => true,
        [_first, ..] => false,
    }
}

/// Whether the sheets of a subject have messages that could be chosen.
fn has_messages(subject: Option<Subject>) -> bool
    ensures { result ≡ has_messages subject }
{
    match subject {
        None => true,
        Some(Subject::Run) => true,
        Some(Subject::Rounds) => false,
        Some(Subject::Topics) => false,
        Some(Subject::Links) => false,
    }
}

/// Whether the sheets of a subject have groups.
fn has_groups(subject: Option<Subject>) -> bool
    ensures { result ≡ has_groups subject }
{
    match subject {
        None => true,
        Some(Subject::Run) => true,
        Some(Subject::Rounds) => true,
        Some(Subject::Topics) => false,
        Some(Subject::Links) => false,
    }
}

fn no_groups<'a>() -> ArrayVec<Named<'a>, MOST_GROUPS>
    ensures { result.items ≡ [] }
{
    ArrayVec::new()
}

/// With the groups that these further options name. None where one names no group, or where another has its name. It calls
/// itself once for each option.
fn groups_from<'a>(groups: Groups<'a>, given: &[GivenOption<'a>]) -> Option<Groups<'a>>
    ensures { option_map (λ list. map group_of list.items) result
        ≡ groups_from (Some (map group_of groups.entry.items)) (map given_of given.now) }
{
    match given {
        [] => Some(groups),
        [first, rest @ ..] => {
            if first.name == "--group" {
                return match with_group(groups, group_of_value(first.value)) {
                    Some(next) => groups_from(next, rest),
                    None => None,
                };
            }
            groups_from(groups, rest)
        }
    }
}

fn group_of_value(value: Option<&str>) -> Option<Named<'_>>
    ensures { option_map group_of result ≡ group_of_value (option_map (λ text. text.now) value.entry) }
{
    match value {
        None => None,
        Some(text) => group_in(text),
    }
}

/// With one more group. None where there is no group or no room for it, or where another has its name.
fn with_group<'a>(groups: Groups<'a>, group: Option<Named<'a>>) -> Option<Groups<'a>>
    ensures { option_map (λ list. map group_of list.items) result
        ≡ with_group (map group_of groups.entry.items) (option_map group_of group.entry) }
{
    match group {
        None => None,
        Some(group) => adding(groups, group),
    }
}

fn adding<'a>(groups: Groups<'a>, group: Named<'a>) -> Option<Groups<'a>>
    ensures { option_map (λ list. map group_of list.items) result
        ≡ adding (map group_of groups.entry.items) (group_of group.entry) }
{
    if groups.is_full() || is_taken(groups.as_slice(), group.name) {
        return None;
    }
    let mut groups = groups;
    groups.push(group);
    Some(groups)
}

/// Whether a group has this name. It calls itself 16 times at most.
fn is_taken(groups: &[Named<'_>], name: &str) -> bool
    ensures { result ≡ is_taken (map group_of groups.now) name.now }
{
    match groups {
        [] => false,
        [first, rest @ ..] => first.name == name || is_taken(rest, name),
    }
}

/// The group that `NAME=PEERS` names, if it has a name.
fn group_in(text: &str) -> Option<Named<'_>>
    ensures { option_map group_of result ≡ group_in text.now }
{
    match text.split_once('=') {
        Some((name, peers)) => {
            if is_group_name(name) {
                return Some(Named { name, peers });
            }
            None
        }
        None => None,
    }
}

/// Whether a group may have this name. The row of all peers has the name `all`.
fn is_group_name(name: &str) -> bool
    ensures { result ≡ is_group_name name.now }
{
    !name.is_empty() && name.len() <= 32 && are_name_bytes(name.as_bytes()) && name != "all"
}

/// Whether each byte may stand in a name. It calls itself 32 times at most, since no name is longer.
fn are_name_bytes(name: &[u8]) -> bool
    ensures { result ≡ are_name_bytes name.now }
{
    match name {
        [] => true,
        [first, rest @ ..] => is_name_byte(*first) && are_name_bytes(rest),
    }
}

fn is_name_byte(byte: u8) -> bool
    ensures { result ≡ is_name_byte byte }
{
    byte.is_ascii_alphanumeric() || byte == b'_' || byte == b'-'
}
