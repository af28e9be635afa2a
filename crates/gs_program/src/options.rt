//! The options of a command, by a table of those that it takes.
ghost use Rattle.std.specs.Prelude.{◌≡◌, ◌≤◌, [], Some, length, map, option_map, string_bytes, is_some};
ghost use Rattle.gs_program.specs.Orders.{OrderIsFree};
ghost use Rattle.gs_program.specs.Options.{by_itself, given_from, given_of, has_option, most_for, options_given, options_of, rule_of, takes_value, times, value_of, with_given, with_its_value};

use arrayvec::ArrayVec;

/// How many options a command may be given.
pub const MOST_GIVEN: usize = 24;

/// An option that a command takes.
#[derive(Clone, Copy, Debug)]
pub struct OptionRule {
    pub name: &'static str,
    /// Whether the next argument is its value.
    pub has_value: bool,
    /// How often it may come.
    pub most: usize,
}

/// An option that was given.
#[derive(Clone, Copy, Debug, Default)]
pub struct GivenOption<'a> {
    pub name: &'a str,
    /// Its value, if it has one.
    pub value: Option<&'a str>,
}

/// The options that a command was given, in order.
#[derive(Drop)]
pub struct Options<'a> {
    pub given: ArrayVec<GivenOption<'a>, MOST_GIVEN>,
}

impl<'a> Options<'a> {
    /// Returns the options that these arguments give. Returns None where one is no option of the table, lacks its value, or
    /// comes too often, and where there are more than `MOST_GIVEN`.
    pub fn of(rules: &[OptionRule], arguments: &'a [String]) -> Option<Options<'a>>
        ensures { option_map options_of result ≡ options_given (map rule_of rules.now) (map string_bytes arguments.now) }
    {
        given_from(rules, no_option(), arguments)
    }

    /// Says whether an option was given.
    pub fn has(&self, name: &str) -> bool
        ensures { result ≡ has_option (options_of self.now) name.now }
    {
        has_option(self.given.as_slice(), name)
    }

    /// Returns the value of the first option with this name.
    pub fn value(&self, name: &str) -> Option<&'a str>
        ensures { option_map (λ t. t.now) result ≡ value_of (options_of self.now) name.now }
    {
        value_of(self.given.as_slice(), name)
    }
}

/// Two adjacent options with different names may change places: what `has` and `value` find stays the same. The law is only
/// about its definitions, and its function does nothing.
pub fn look_ups_ignore_the_order()
    ensures { OrderIsFree }
{}

fn no_option<'a>() -> Options<'a>
    ensures { options_of result ≡ [] }
{
    Options {
        given: ArrayVec::new(),
    }
}

/// With these further arguments. Each call takes one, and there are at most `MOST_GIVEN` options.
fn given_from<'a>(
    rules: &[OptionRule],
    options: Options<'a>,
    arguments: &'a [String],
) -> Option<Options<'a>>
    ensures { option_map options_of result
        ≡ given_from (map rule_of rules.now) (Some (options_of options.entry)) (map string_bytes arguments.now) }
{
    match arguments {
        [] => Some(options),
        [name] => with_given(rules, options, word(name)),
        [name, value, more @ ..] => {
            if takes_value(rules, name) {
                return match with_given(rules, options, valued(name, value)) {
                    Some(next) => given_from(rules, next, more),
                    None => None,
                };
            }
            match with_given(rules, options, word(name)) {
                Some(next) => given_from(rules, next, &arguments[1..]),
                None => None,
            }
        }
    }
}

fn word(name: &str) -> GivenOption<'_>
    ensures { given_of result ≡ by_itself name.now }
{
    GivenOption { name, value: None }
}

fn valued<'a>(name: &'a str, value: &'a str) -> GivenOption<'a>
    ensures { given_of result ≡ with_its_value name.now value.now }
{
    GivenOption {
        name,
        value: Some(value),
    }
}

/// Whether the argument after this name is its value.
fn takes_value(rules: &[OptionRule], name: &str) -> bool
    ensures { result ≡ takes_value (map rule_of rules.now) name.now }
{
    match rules {
        [] => false,
        [first, rest @ ..] => (first.has_value && first.name == name) || takes_value(rest, name),
    }
}

/// With one more option. None where it may not come once more.
fn with_given<'a>(
    rules: &[OptionRule],
    options: Options<'a>,
    option: GivenOption<'a>,
) -> Option<Options<'a>>
    ensures { option_map options_of result
        ≡ with_given (map rule_of rules.now) (options_of options.entry) (given_of option.entry) }
{
    let most = most_for(rules, option.name, option.value.is_some());
    if times(options.given.as_slice(), option.name) < most && !options.given.is_full() {
        let mut options = options;
        options.given.push(option);
        return Some(options);
    }
    None
}

/// How often an option may come. An option without a rule may not.
fn most_for(rules: &[OptionRule], name: &str, has_value: bool) -> usize
    ensures { result ≡ most_for (map rule_of rules.now) name.now has_value }
{
    match rules {
        [] => 0,
        [first, rest @ ..] => {
            if first.name == name && first.has_value == has_value {
                return first.most;
            }
            most_for(rest, name, has_value)
        }
    }
}

/// How often an option was given.
fn times(given: &[GivenOption<'_>], name: &str) -> usize
    ensures times { result ≡ times (map given_of given.now) name.now }
    ensures bound { result ≤ length given.now }
{
    match given {
        [] => 0,
        [first, rest @ ..] => {
            if first.name == name {
                return 1 + times(rest, name);
            }
            times(rest, name)
        }
    }
}

fn has_option(given: &[GivenOption<'_>], name: &str) -> bool
    ensures { result ≡ has_option (map given_of given.now) name.now }
{
    match given {
        [] => false,
        [first, rest @ ..] => first.name == name || has_option(rest, name),
    }
}

fn value_of<'a>(given: &[GivenOption<'a>], name: &str) -> Option<&'a str>
    ensures { option_map (λ t. t.now) result ≡ value_of (map given_of given.now) name.now }
{
    match given {
        [] => None,
        [first, rest @ ..] => {
            if first.name == name {
                return first.value;
            }
            value_of(rest, name)
        }
    }
}
